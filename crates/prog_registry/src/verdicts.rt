//! The most recent verdicts on refused images.

ghost use Rattle.std.specs.Prelude.{◌≡◌, ◌≤◌, [], None, IfSome, IfNone, IfOk, OnOk, OnErr, length};
ghost use Rattle.prog_registry.specs.Judged.{IsJudged};
ghost use Rattle.prog_registry.specs.Verdicts.{verdict_on, with_verdict, Recalls, AreVerdicts};

use bpf_verify::VerifyFault;
use lru::{DefaultHasher, LruCache};
use std::alloc::{AllocError, Allocator};
use std::marker::Model;
use std::num::NonZeroUsize;

/// The maximum number of stored verdicts.
pub const VERDICT_LIMIT: usize = 64;

/// The verifier's faults by image, most recently used first, and the number of answers that this table has given.
#[derive(Drop)]
pub struct Verdicts<A: Allocator> {
    cache: LruCache<Vec<u8, A>, VerifyFault, DefaultHasher, A>,
    recalls: u64,
}

impl<A: Allocator> Model for Verdicts<A> {
    ghost use Rattle.prog_registry.specs.Verdicts.{Recent};
    ghost use Rattle.prog_registry.specs.Kept.{plain, AreKept};

    ghost Value = { Recent };

    ghost view = { λ a. record { verdicts = plain a.cache.entries; recalls = a.recalls } };

    ghost invariant = { λ a. AreKept a.cache };
}

impl<A: Allocator> Verdicts<A> {
    /// Creates an empty table with room for 64 verdicts.
    ///
    /// # Errors
    /// `AllocError` if allocation fails.
    pub fn new(alloc: A) -> Result<Verdicts<A>, AllocError>
    where
        A: Copy,
        ensures { IfOk result (λ v. v ≡ record { verdicts = []; recalls = 0 }) }
    {
        let limit = NonZeroUsize::new(VERDICT_LIMIT).unwrap();
        let cache = LruCache::new(alloc, limit)?;
        Ok(Verdicts { cache, recalls: 0 })
    }

    /// The number of stored verdicts.
    pub fn len(&self) -> usize
        ensures value { result ≡ length self.now.verdicts }
        ensures few { result ≤ 64 }
        ensures verdicts { AreVerdicts self.now.verdicts }
    {
        self.cache.len()
    }

    /// The number of answers that this table has given, saturating at `u64::MAX`.
    pub fn recalls(&self) -> u64
        ensures { result ≡ self.now.recalls }
    {
        self.recalls
    }

    /// Returns the stored verdict on an image, if there is one. The verdict becomes the most recently used one, and the
    /// answer is counted.
    pub fn recall(&mut self, image: &[u8]) -> Option<VerifyFault>
        ensures some { IfSome result (λ fault. Recalls self.old image.now fault self.new) }
        ensures judged { IfSome result (IsJudged image.now) }
        ensures none { IfNone result (verdict_on self.old.verdicts image.now ≡ None) }
        ensures same { IfNone result (self.new ≡ self.old) }
    {
        let fault = self.cache.peek(image).copied()?;
        self.cache.promote(image);
        self.recalls = self.recalls.saturating_add(1);
        Some(fault)
    }

    /// Stores the verdict on an image that has none. If 64 verdicts are stored, it replaces the least recently used one.
    ///
    /// # Errors
    /// `AllocError` if allocation fails; then nothing changes.
    pub fn keep(&mut self, alloc: A, image: &[u8], fault: VerifyFault) -> Result<(), AllocError>
    where
        A: Copy,
        requires new { verdict_on self.old.verdicts image.now ≡ None }
        requires judged { IsJudged image.now fault }
        ensures ok { OnOk result (self.new ≡ with_verdict self.old image.now fault) }
        ensures err { OnErr result (self.new ≡ self.old) }
    {
        let key = Vec::from_slice(alloc, image)?;
        if self.cache.put(key, fault).is_err() {
            return Err(AllocError);
        }
        Ok(())
    }
}
