//! Handles.
ghost use Rattle.std.specs.Prelude.{◌≡◌, Option, Some, None, IfSome, IfNone};
ghost use Rattle.std.specs.Option.{option_map};
ghost use Rattle.boddurci_handles.specs.declared.opened.Db.{Db};
ghost use Rattle.boddurci_handles.specs.Held.{held_at, coded_held};

use crate::loose::Loose;
use crate::opened::Db;
use std::alloc::Global;
use std::marker::Model;

/// A handle of C, which is closed or owns an open database. It is a single pointer, which is null if the handle is closed.
#[repr(C)]
pub struct Handle {
    at: *mut u8,
    alloc: Global,
    pub ghost held: { Option Db } by { coded_held },
}

impl Model for Handle {
    ghost also_owns = { λ h. held_at h.alloc h.at h.held };
}

impl Handle {
    fn closed(alloc: Global) -> Handle
        ensures { result.held ≡ None }
    {
        Handle {
            at: std::ptr::null_mut(),
            alloc,
        }
    }

    fn of(owned: Loose<Db, Global>) -> Handle
        ensures { result.held ≡ Some owned.value }
    {
        let Loose { at, alloc } = owned;
        Handle {
            at: at as *mut u8,
            alloc,
        }
    }

    fn into_loose(self) -> Option<Loose<Db, Global>>
        ensures { option_map (λ l. l.value) result ≡ self.held }
    {
        let Handle { at, alloc } = self;
        if at == std::ptr::null_mut() {
            None
        } else {
            Some(Loose {
                at: at as *mut Db,
                alloc,
            })
        }
    }

    /// Takes the database out. The handle is then closed.
    pub fn take(&mut self, alloc: Global) -> Option<Box<Db>>
        ensures some { IfSome result (λ db. self.old.held ≡ Some db.value) }
        ensures none { IfNone result (self.old.held ≡ None) }
        ensures closed { self.new.held ≡ None }
    {
        let old = std::mem::replace(self, Handle::closed(alloc));
        match old.into_loose() {
            Some(loose) => Some(loose.into_box()),
            None => None,
        }
    }

    /// Puts a database into the handle.
    pub fn put(&mut self, db: Box<Db>)
        ensures { self.new.held ≡ Some db.value }
    {
        *self = Handle::of(Loose::of(db));
    }
}

impl Drop for Handle {
    fn drop(self) {
        if let Some(loose) = self.into_loose() {
            drop(loose.into_box());
        }
    }
}

// The database may move to another thread, and so may the handle.
unsafe impl Send for Handle {}
