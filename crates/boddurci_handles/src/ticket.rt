//! Tickets.
ghost use Rattle.std.specs.Prelude.{◌≡◌, Option, Some, None, IfSome, IfNone};
ghost use Rattle.std.specs.Option.{option_map};
ghost use Rattle.boddurci_handles.specs.declared.job.Job.{Job};
ghost use Rattle.boddurci_handles.specs.Held.{asked_at, coded_asked};

use crate::job::Job;
use crate::loose::Loose;
use std::alloc::Global;
use std::marker::Model;

/// A ticket of C, which is free or owns the job of a requested run. It is a single pointer, which is null if the ticket is free.
#[repr(C)]
pub struct Ticket {
    at: *mut u8,
    alloc: Global,
    pub ghost asked: { Option Job } by { coded_asked },
}

impl Model for Ticket {
    ghost also_owns = { λ h. asked_at h.alloc h.at h.asked };
}

impl Ticket {
    fn free(alloc: Global) -> Ticket
        ensures { result.asked ≡ None }
    {
        Ticket {
            at: std::ptr::null_mut(),
            alloc,
        }
    }

    fn of(owned: Loose<Job, Global>) -> Ticket
        ensures { result.asked ≡ Some owned.value }
    {
        let Loose { at, alloc } = owned;
        Ticket {
            at: at as *mut u8,
            alloc,
        }
    }

    fn into_loose(self) -> Option<Loose<Job, Global>>
        ensures { option_map (λ l. l.value) result ≡ self.asked }
    {
        let Ticket { at, alloc } = self;
        if at == std::ptr::null_mut() {
            None
        } else {
            Some(Loose {
                at: at as *mut Job,
                alloc,
            })
        }
    }

    /// Takes the job out. The ticket is then free.
    pub fn take(&mut self, alloc: Global) -> Option<Box<Job>>
        ensures some { IfSome result (λ job. self.old.asked ≡ Some job.value) }
        ensures none { IfNone result (self.old.asked ≡ None) }
        ensures free { self.new.asked ≡ None }
    {
        let old = std::mem::replace(self, Ticket::free(alloc));
        match old.into_loose() {
            Some(loose) => Some(loose.into_box()),
            None => None,
        }
    }

    /// Puts a job under the ticket, and drops any earlier one.
    pub fn put(&mut self, job: Box<Job>)
        ensures { self.new.asked ≡ Some job.value }
    {
        *self = Ticket::of(Loose::of(job));
    }
}

impl Drop for Ticket {
    fn drop(self) {
        if let Some(loose) = self.into_loose() {
            drop(loose.into_box());
        }
    }
}

// The job may move to another thread, and so may the ticket.
unsafe impl Send for Ticket {}
