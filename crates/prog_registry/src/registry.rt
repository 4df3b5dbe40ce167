//! The registry of programs and verdicts.

ghost use Rattle.std.specs.Prelude.{◌≡◌, ◌≢◌, ◌%◌, ◌<◌, ◌/◌, ◌≤◌, ◌↔◌, ◌⊎◌, ℕ, List, [], Some, IfOk, IfErr, OnOk, IsOkAnd, IsErrOf, length, slice_get};
ghost use Rattle.std.specs.Option.{option_map};
ghost use Rattle.std.specs.Arc.{arc_value};
ghost use Rattle.bpf_insn.specs.declared.insn.Insn.{Insn};
ghost use Rattle.bpf_insn.specs.declared.fault.DecodeFault.TheVariants.{Length, TooLong};
ghost use Rattle.bpf_insn.specs.Code.{IsImage, unit_limit};
ghost use Rattle.bpf_insn.specs.Decoding.{IsWhole};
ghost use Rattle.bpf_verify.specs.declared.fault.VerifyFault.{VerifyFault as Fault};
ghost use Rattle.bpf_verify.specs.Structure.{IsMisbuilt};
ghost use Rattle.bpf_verify.specs.Verified.{Accepted};
ghost use Rattle.prog_registry.specs.Programs.{StandsAt, IsNew, ArePrograms};
ghost use Rattle.prog_registry.specs.Verdicts.{verdict_on, AreVerdicts};
ghost use Rattle.prog_registry.specs.Judged.{IsProgramOf};
ghost use Rattle.prog_registry.specs.Registry.{GivesNumber, RefusesImage, RecallsIn, IsUnheard};

use crate::fault::RegFault;
use crate::judging::judge;
use crate::programs::Programs;
use crate::verdicts::Verdicts;
use bpf_verify::Verified;
use std::alloc::{AllocError, Allocator, Global};
use std::marker::Model;
use std::sync::Arc;

/// The number of a program in its registry, from 0.
#[derive(Clone, Copy, Debug, PartialEq, Eq)]
pub struct ProgId(pub u32);

/// Accepted programs by number, and the most recent verdicts on refused images. Its model is the list of programs, the list of
/// verdicts, and the number of answers from verdicts.
#[derive(Drop)]
pub struct Registry<A: Allocator = Global> {
    programs: Programs<A>,
    verdicts: Verdicts<A>,
}

impl<A: Allocator> Model for Registry<A> {
    ghost use Rattle.prog_registry.specs.Registry.{Registered};

    ghost Value = { Registered };

    ghost view = { λ a. record { programs = a.programs; recent = a.verdicts } };
}

impl<A: Allocator + Copy> Registry<A> {
    /// Creates a registry without programs and verdicts. Allocates the table of verdicts.
    ///
    /// # Errors
    /// `AllocError` if allocation fails.
    pub fn new(alloc: A) -> Result<Registry<A>, AllocError>
        ensures { IfOk result (λ r. r ≡ record { programs = []; recent = record { verdicts = []; recalls = 0 } }) }
    {
        let verdicts = Verdicts::new(alloc)?;
        Ok(Registry {
            programs: Programs::new(alloc),
            verdicts,
        })
    }
}

impl<A: Allocator> Registry<A> {
    /// Returns the program with a number, or `None` if no program has it. The program of a number never changes. Allocates no memory.
    pub fn get(&self, id: ProgId) -> Option<&Arc<Verified<A>, A>>
        ensures value { option_map (λ p. arc_value p.now) result ≡ slice_get self.now.programs id.0 }
        ensures programs { ArePrograms self.now.programs }
    {
        self.programs.get(id.0)
    }

    /// The number of stored verdicts. Allocates no memory.
    pub fn recent(&self) -> usize
        ensures value { result ≡ length self.now.recent.verdicts }
        ensures few { result ≤ 64 }
        ensures verdicts { AreVerdicts self.now.recent.verdicts }
    {
        self.verdicts.len()
    }

    /// The number of answers from stored verdicts, saturating at `u64::MAX`. Allocates no memory.
    pub fn recalls(&self) -> u64
        ensures { result ≡ self.now.recent.recalls }
    {
        self.verdicts.recalls()
    }
}

impl<A: Allocator + Copy> Registry<A> {
    // Decodes and verifies an image that has neither a number nor a stored verdict. Stores a verdict of the verifier if there
    // is memory for it.
    fn judge_new(&mut self, image: &[u8]) -> Result<Verified<A>, RegFault>
        requires { IsUnheard self.old image.now }
        ensures same { OnOk result (self.new ≡ self.old) }
        ensures program { IfOk result (IsProgramOf image.now) }
        ensures err { IfErr result (λ fault. RefusesImage self.old image.now fault self.new) }
    {
        let alloc = self.programs.allocator();
        match judge(alloc, image) {
            Ok(program) => Ok(program),
            Err(RegFault::Verify(fault)) => {
                let _kept = self.verdicts.keep(alloc, image, fault);
                Err(RegFault::Verify(fault))
            }
            Err(fault) => Err(fault),
        }
    }

    // Gives the next number to the accepted program of an image that has neither a number nor a stored verdict.
    #[tactic(auto, using(crate::proofs::Codes::program_sized))]
    fn enlist(&mut self, image: &[u8], program: Verified<A>) -> Result<ProgId, RegFault>
        requires unheard { IsUnheard self.old image.now }
        requires program { IsProgramOf image.now program }
        ensures ok { IfOk result (λ id. GivesNumber self.old image.now id.0 self.new) }
        ensures err { IfErr result (λ fault. RefusesImage self.old image.now fault self.new) }
    {
        if self.programs.is_full() {
            return Err(RegFault::Full);
        }
        let Ok(id) = self.programs.add(image, program) else {
            return Err(RegFault::NoMemory);
        };
        Ok(ProgId(id))
    }

    // The body of `submit`.
    fn number(&mut self, image: &[u8]) -> Result<ProgId, RegFault>
        ensures ok { IfOk result (λ id. GivesNumber self.old image.now id.0 self.new) }
        ensures err { IfErr result (λ fault. RefusesImage self.old image.now fault self.new) }
        ensures programs { ArePrograms self.old.programs }
    {
        if let Some(id) = self.programs.find(image) {
            return Ok(ProgId(id));
        }
        if let Some(fault) = self.verdicts.recall(image) {
            return Err(RegFault::Verify(fault));
        }
        let program = self.judge_new(image)?;
        self.enlist(image, program)
    }

    /// Returns the number of an image's program, and adds the program if it is new.
    ///
    /// A known image gets its number again, in constant time on average, and nothing changes. A new image without a stored
    /// verdict is decoded and verified; if it is accepted, it gets the next number, from 0.
    ///
    /// # Errors
    /// - `Decode` if the image is not a program.
    /// - `Verify` if the program is not accepted. The programs are unchanged. The verdict is stored as the most recently used
    ///   one. If a verdict is already stored, it is returned at once, and the answer is counted.
    /// - `Full` if the program is accepted and new, and there are already 4,096 programs.
    /// - `NoMemory` if memory ran out. This fault is never stored as a verdict.
    ///
    /// A fault other than `Verify` changes nothing. If there is no memory to store a verdict, the verdict is only returned.
    pub fn submit(&mut self, image: &[u8]) -> Result<ProgId, RegFault>
        // The result.
        ensures ok { IfOk result (λ id. GivesNumber self.old image.now id.0 self.new) }
        ensures err { IfErr result (λ fault. RefusesImage self.old image.now fault self.new) }

        // A known image gets its number again, and a number keeps its program.
        ensures known { (id : ℕ) → StandsAt self.old.programs image.now id → IsOkAnd result (λ r. r.0 ≡ id) × (self.new ≡ self.old) }
        ensures stands { IfOk result (λ id. StandsAt self.new.programs image.now id.0) }
        ensures keeps { (id : ℕ) (p : Accepted) → slice_get self.old.programs id ≡ Some p → slice_get self.new.programs id ≡ Some p }

        // A stored verdict is the answer.
        ensures recalled { (fault : Fault) → IsNew self.old.programs image.now → verdict_on self.old.recent.verdicts image.now ≡ Some fault →
            IsErrOf result (RegFault.Verify fault) × RecallsIn self.old image.now fault self.new }

        // The conditions of faults.
        ensures length { IsErrOf result (RegFault.Decode Length) ↔ (length image.now % 8 ≢ 0) }
        ensures too_long { IsErrOf result (RegFault.Decode TooLong) ↔ (IsWhole image.now × (unit_limit < length image.now / 8)) }
        ensures structure { (code : List Insn) (fault : Fault) → IsImage code image.now → IsMisbuilt code fault →
            IsErrOf result (RegFault.Verify fault) ⊎ IsErrOf result RegFault.NoMemory }
    {
        self.number(image)
    }
}
