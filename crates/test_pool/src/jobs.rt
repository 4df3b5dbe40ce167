//! A store, the programs, and the waiting tasks.

use crate::meeting::{Meeting, MeetingGate};
use bpf_asm::assemble;
use bpf_insn::encode;
use prog_registry::{ProgId, Registry};
use sdbm_addr::{Bytes, KeyBytes, PageSize};
use sdbm_files::Image;
use std::alloc::{AllocError, Global};
use std::mem;
use std::sync::Wait;
use std::thread::Threads;
use store_cmd::Reply;
use store_shared::{Calls, CloseFault, Closed, Store};
use test_support::read_bytes;
use worker_pool::{Answers, PoolFault, Task, run_jobs};

/// The state of a test.
#[derive(Drop)]
pub struct Pool<'a> {
    pub alloc: Global,
    pub meeting: &'a Meeting,
    registry: Registry<Global>,
    store: Option<Store<Global, MeetingGate<'a>>>,
    tasks: Vec<Task<Global>>,
    calls: Vec<Calls<Global>>,
    /// The result of the last close.
    pub closed: Option<Closed<Global>>,
}

/// The replies to the tasks or the fault, and the calls of all workers.
pub type Outcome = (Result<Vec<Reply<Global>>, PoolFault>, Vec<Calls<Global>>);

impl<'a> Pool<'a> {
    /// A test without programs, store and tasks. The gates of its stores use `meeting`.
    pub fn new(alloc: Global, meeting: &'a Meeting) -> Result<Self, AllocError> {
        Ok(Pool {
            alloc,
            meeting,
            registry: Registry::new(alloc)?,
            store: None,
            tasks: Vec::new(alloc),
            calls: Vec::new(alloc),
            closed: None,
        })
    }

    /// Opens a store without calls, whose sessions need not meet.
    pub fn open(&mut self, image: Image<Global>, limit: usize) -> Option<()> {
        self.meeting.want(0);
        let gate = MeetingGate {
            meeting: self.meeting,
        };
        self.calls = Vec::new(self.alloc);
        self.store = Some(Store::open(self.alloc, image, limit, gate).ok()?);
        Some(())
    }

    /// An empty database.
    pub fn empty(&self) -> Image<Global> {
        Image::empty(self.alloc, KeyBytes::Signed, PageSize::Small)
    }

    /// Submits a program and returns its number.
    pub fn submit(&mut self, text: &str) -> Option<u32> {
        let text = text.replace(self.alloc, " / ", "\n").ok()?;
        let code = assemble(self.alloc, text.as_str()).ok()?;
        let image = encode(self.alloc, &code).ok()?;
        let id = self.registry.submit(image.as_slice()).ok()?;
        Some(id.0)
    }

    /// Adds a waiting task. Returns the number of waiting tasks.
    pub fn wait(&mut self, words: &[&str]) -> Option<usize> {
        let [key, prog, arg, blank, now] = words else {
            return None;
        };
        let task = Task {
            key: Bytes::new(read_bytes(self.alloc, key)?),
            prog: ProgId(prog.parse::<u32>().ok()?),
            arg: Bytes::new(read_bytes(self.alloc, arg)?),
            blank: blank.parse::<usize>().ok(),
            now: now.parse::<u64>().ok()?,
        };
        self.tasks.push(task).ok()?;
        Some(self.tasks.len())
    }

    /// Adds `count` waiting tasks, with the times from 0. Returns the number of waiting tasks.
    pub fn wait_often(&mut self, count: u64, words: &[&str]) -> Option<usize> {
        let [key, prog, arg, blank] = words else {
            return None;
        };
        for now in 0..count {
            let now = format!(in self.alloc; "{now}").ok()?;
            self.wait(&[*key, *prog, *arg, *blank, now.as_str()])?;
        }
        Some(self.tasks.len())
    }

    /// Runs the waiting tasks with workers, and removes the tasks. Reserves the memory that `keep` needs.
    pub fn run<R: Threads + Wait + Sync>(&mut self, rt: &R, workers: usize) -> Option<Outcome> {
        self.calls.reserve(workers).ok()?;
        let store = self.store.as_ref()?;
        let tasks = self.tasks.as_slice();
        let outcome = match run_jobs(rt, self.alloc, store, &self.registry, tasks, workers) {
            Ok(Answers { replies, calls }) => (Ok(replies), calls),
            Err((fault, calls)) => (Err(fault), calls),
        };
        self.tasks = Vec::new(self.alloc);
        Some(outcome)
    }

    /// Stores calls until the store is closed.
    pub fn keep(&mut self, calls: Vec<Calls<Global>>) -> Result<(), AllocError> {
        for its in calls {
            self.calls.push(its)?;
        }
        Ok(())
    }

    /// Makes a session that makes no calls, and returns its number.
    pub fn session<R: Wait>(&self, rt: &R) -> Option<u64> {
        let session = self.store.as_ref()?.session(rt).ok()?;
        Some(session.into_calls().number())
    }

    /// Closes the store with the stored calls. Returns the fault if it does not close. Removes the store in both cases.
    pub fn close(&mut self) -> Option<Result<(), CloseFault>> {
        let store = self.store.take()?;
        let calls = mem::replace(&mut self.calls, Vec::new(self.alloc));
        match store.close(calls) {
            Ok(closed) => {
                self.closed = Some(closed);
                Some(Ok(()))
            }
            Err((fault, _store, _calls)) => Some(Err(fault)),
        }
    }
}
