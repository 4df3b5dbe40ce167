//! Boddurci as a library: a key-value store in the two files of sdbm, shared by many threads, with small programs that run on
//! its records in place. This crate only re-exports the API that a service calls.
//!
//! A service uses it in this order:
//!
//! 1. [`Image::open`] makes a database from the bytes of `.dir` and `.pag`; empty files give an empty database.
//! 2. [`assemble`] and [`verify`] make a [`Program`] from a text. An accepted program is safe on every record and argument, and
//!    terminates.
//! 3. [`Store::open`] puts a lock around the database, and [`Store::session`] gives each thread its own [`Session`].
//! 4. `fetch`, `store`, `delete`, `count` and `run` of a session are atomic with respect to all other threads.
//!    [`Session::call_all`] makes many calls at a lower cost; it takes [`SharedCommand`]s. A [`Gate`] lets you observe or delay
//!    calls; [`NoGate`] does neither, and is faster.
//! 5. [`Session::into_calls`] ends a session. [`Store::close`] takes the calls of all sessions and returns the database, with a
//!    log of every answered call in order.
//! 6. [`Image::write`] writes both files into two [`Sink`]s.
//!
//! [`run_jobs`] does steps 3 to 5 for a list of [`Task`]s: each runs a program on the record of a key. A [`Registry`] stores
//! programs by number and verifies each accepted program image only once.
//!
//! `docs/THREADS.md` is the guide, and `crates/example_threads` is an example service.
#![tactic(auto)]

pub use bpf_asm::{AsmFault, FaultKind, assemble, disassemble};
pub use bpf_insn::{Code, DecodeFault, decode, encode};
pub use bpf_verify::{Verified, VerifyFault, verify};
pub use desk_core::{Done, Job};
pub use prog_registry::{ProgId, RegFault, Registry};
pub use sdbm_addr::{Bytes, KeyBytes, Mode, PageSize};
pub use sdbm_files::{Image, MemSink, OpenFault, Sink, SinkFault, WriteFault, widen};
pub use store_cmd::{
    Command, KeptEntry, Opening, Program, Refusal, Reply, SharedCommand, SizeFault, Trail,
};
pub use store_shared::{Calls, CloseFault, Closed, Gate, NoGate, Session, SessionFault, Store};
pub use worker_pool::{Answers, PoolFault, Task, run_jobs};
