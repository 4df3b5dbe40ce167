//! Opens a store, makes its sessions, and closes it.
ghost use Rattle.std.specs.Prelude.{◌≡◌, IfOk, IfErr, OnOk, []};
ghost use Rattle.std.specs.List.{All};
ghost use Rattle.std.specs.FinMap as map;
ghost use Rattle.sdbm_addr.specs.Database.{map_of};
ghost use Rattle.sdbm_addr.specs.Pairs.{key_cmp};
ghost use Rattle.store_cmd.specs.History.{History};
ghost use Rattle.store_shared.specs.Shared.{opened_by};
ghost use Rattle.store_shared.specs.Closed.{Agrees, AreDistinct, Covers, IsRefusedClose};

use crate::close::{CloseFault, close_fault};
use crate::session::{Calls, Session};
use crate::store::{Core, Gate, Store};
use desk_core::Desk;
use sdbm_addr::Bytes;
use sdbm_files::Image;
use std::alloc::{AllocError, Allocator};
use std::sync::{Condvar, Mutex, Wait};
use store_cmd::{Opening, Trail};

/// The maximum number of sessions of a store.
const SESSION_LIMIT: u64 = 4096;

/// The reasons why a session is not made.
#[derive(Clone, Copy, Debug, PartialEq, Eq)]
pub enum SessionFault {
    /// The store has made 4,096 sessions already.
    TooMany,
}

/// The result of closing a store: the database, and the trail that led to it.
#[derive(Drop)]
pub struct Closed<A: Allocator> {
    pub image: Image<A>,
    pub trail: Trail<A>,
}

impl<A: Allocator + Copy, G: Gate> Store<A, G> {
    /// Opens a store on a database, without sessions. Its trail begins with the pairs of the database and may have `limit`
    /// entries. Never blocks.
    ///
    /// # Errors
    /// `AllocError` if there is no memory for a copy of all pairs. Image and gate are returned unchanged.
    pub fn open(
        alloc: A,
        image: Image<A>,
        limit: usize,
        gate: G,
    ) -> Result<Self, (AllocError, Image<A>, G)>
        ensures ok { IfOk result (λ store. store ≡ opened_by image) }
        ensures image { IfErr result (λ refused. refused.1 ≡ image) }
        ensures gate { IfErr result (λ refused. refused.2 ≡ gate) }
    {
        let kind = image.key_bytes();
        let size = image.page_size();
        let desk = match Desk::open(alloc, image, limit) {
            Ok(desk) => desk,
            Err((error, image)) => return Err((error, image, gate)),
        };
        let Ok(opening) = desk.trail().opening.try_clone() else {
            let (image, _trail) = desk.into_parts();
            return Err((AllocError, image, gate));
        };
        Ok(Store {
            alloc,
            gate,
            kind,
            size,
            opening,
            core: Mutex::new(Core {
                desk,
                sessions: 0,
                waited_for: false,
            }),
            changed: Condvar::new(),
        })
    }

    /// The pairs with which the store was opened, sorted by the bytes of their keys. Takes no lock and allocates nothing.
    pub fn opening(&self) -> &[(Bytes<A>, Bytes<A>)]
        ensures { result.now ≡ self.now.opening }
    {
        self.opening.as_slice()
    }

    /// Makes a session, which has no calls yet. Sessions are numbered from 0 in the order of their creation.
    ///
    /// # Errors
    /// `TooMany` if 4,096 sessions were made already.
    pub fn session<R: Wait>(&self, rt: &R) -> Result<Session<'_, A, G>, SessionFault>
        ensures calls { IfOk result (λ session. session.calls ≡ []) }
        ensures size { IfOk result (λ session. session.size ≡ self.now.size) }
    {
        let mut core = self.core.lock(rt);
        let number = core.sessions;
        if number >= SESSION_LIMIT {
            return Err(SessionFault::TooMany);
        }
        core.sessions = number + 1;
        Ok(Session::new(self, self.alloc, self.size, number))
    }

    /// Closes the store and returns its database and trail, if the calls handed in are those of the trail. Every session has
    /// ended by then, since each borrows the store. The time is linear in the entries and in the pairs of the opening, and
    /// quadratic in the sessions. The memory is two numbers per session. If this memory is not available, or if the store
    /// does not close, the time is proportional to the number of entries times the number of sessions.
    ///
    /// # Errors
    /// On any error, the store and the calls are returned, and the store can be closed again. Checked in this order:
    /// - `Stranger` or `Double`, whichever comes first in the list: no session of this store has the number, or the number is
    ///   repeated.
    /// - `Missing` with the session of the first entry whose session handed in no calls.
    /// - `Torn` with the first session in the list whose calls differ from its calls in the trail.
    /// - `Opening` if the trail's opening, the hash kind or the page size is not the one with which the store was opened.
    pub fn close(
        self,
        calls: Vec<Calls<A>, A>,
    ) -> Result<Closed<A>, (CloseFault, Self, Vec<Calls<A>, A>)>
        ensures opening { IfOk result (λ closed. closed.trail.opening ≡ self.opening) }
        ensures legal { IfOk result (λ closed. History self.size self.kind (map.from_entries {R = key_cmp} self.opening) closed.trail.entries.items (map_of closed.image)) }
        ensures kind { IfOk result (λ closed. closed.image.kind ≡ self.kind) }
        ensures size { IfOk result (λ closed. closed.image.size ≡ self.size) }
        ensures agree { IfOk result (λ closed. All (Agrees closed.trail.entries.items) calls.items) }
        ensures distinct { OnOk result (AreDistinct calls.items) }
        ensures covers { IfOk result (λ closed. Covers closed.trail.entries.items calls.items) }
        ensures fault { IfErr result (λ refused. IsRefusedClose self calls.items refused.0) }
        ensures store { IfErr result (λ refused. refused.1 ≡ self) }
        ensures returned { IfErr result (λ refused. refused.2.items ≡ calls.items) }
    {
        let Store {
            alloc,
            gate,
            kind,
            size,
            opening,
            core,
            changed,
        } = self;
        let core = core.into_inner();
        let fault = close_fault(
            alloc,
            &core.desk,
            core.sessions,
            kind,
            size,
            opening.as_slice(),
            calls.as_slice(),
        );
        if let Some(fault) = fault {
            let core = Mutex::new(core);
            let store = Store {
                alloc,
                gate,
                kind,
                size,
                opening,
                core,
                changed,
            };
            return Err((fault, store, calls));
        }
        let Core { desk, .. } = core;
        let (image, trail) = desk.into_parts();
        Ok(Closed { image, trail })
    }
}
