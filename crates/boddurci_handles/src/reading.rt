//! Readings.
ghost use Rattle.std.specs.Prelude.{◌≡◌, Option, Some, None, IfSome, IfNone};
ghost use Rattle.std.specs.Option.{option_map};
ghost use Rattle.boddurci_handles.specs.declared.pieces.Pieces.{Pieces};
ghost use Rattle.boddurci_handles.specs.Held.{read_at, coded_read};

use crate::loose::Loose;
use crate::pieces::Pieces;
use std::alloc::Global;
use std::marker::Model;

/// A reading of C, which is free or owns the pieces of a `.pag` that were read. It is a single pointer, which is null if the
/// reading is free.
#[repr(C)]
pub struct Reading {
    at: *mut u8,
    alloc: Global,
    pub ghost read: { Option Pieces } by { coded_read },
}

impl Model for Reading {
    ghost also_owns = { λ h. read_at h.alloc h.at h.read };
}

impl Reading {
    fn free(alloc: Global) -> Reading
        ensures { result.read ≡ None }
    {
        Reading {
            at: std::ptr::null_mut(),
            alloc,
        }
    }

    fn of(owned: Loose<Pieces, Global>) -> Reading
        ensures { result.read ≡ Some owned.value }
    {
        let Loose { at, alloc } = owned;
        Reading {
            at: at as *mut u8,
            alloc,
        }
    }

    fn into_loose(self) -> Option<Loose<Pieces, Global>>
        ensures { option_map (λ l. l.value) result ≡ self.read }
    {
        let Reading { at, alloc } = self;
        if at == std::ptr::null_mut() {
            None
        } else {
            Some(Loose {
                at: at as *mut Pieces,
                alloc,
            })
        }
    }

    /// Takes the pieces out. The reading is then free.
    pub fn take(&mut self, alloc: Global) -> Option<Box<Pieces>>
        ensures some { IfSome result (λ pieces. self.old.read ≡ Some pieces.value) }
        ensures none { IfNone result (self.old.read ≡ None) }
        ensures free { self.new.read ≡ None }
    {
        let old = std::mem::replace(self, Reading::free(alloc));
        match old.into_loose() {
            Some(loose) => Some(loose.into_box()),
            None => None,
        }
    }

    /// Puts pieces in, and drops any earlier ones.
    pub fn put(&mut self, pieces: Box<Pieces>)
        ensures { self.new.read ≡ Some pieces.value }
    {
        *self = Reading::of(Loose::of(pieces));
    }
}

impl Drop for Reading {
    fn drop(self) {
        if let Some(loose) = self.into_loose() {
            drop(loose.into_box());
        }
    }
}
