//! Cases: a store is opened, sessions make calls and end, and the store is closed.

use crate::bench::Bench;
use crate::case::{Case, read_case};
use crate::gate::{Manner, Watch};
use linked_list_allocator::LocalHeap;
use std::alloc::{Allocator, Global};
use std::sync::Wait;
use std::thread::Threads;
use store_shared::{Gate, NoGate};

impl<'h, R: Wait, A: Allocator + Copy> Bench<'h, R, A> {
    fn play_in_turn<G: Gate>(&mut self, case: Case<'_>, gate: G) -> Option<()> {
        let store = self.open_store(case, gate)?;
        self.take_turns(&store, case)?;
        self.show_closing(store, case.closing.unwrap_or(""))
    }
}

impl<'h, R: Threads + Wait + Sync> Bench<'h, R, Global> {
    fn play_apart<G: Gate>(&mut self, case: Case<'_>, gate: G) -> Option<()> {
        let store = self.open_store(case, gate)?;
        self.work_apart(&store, case)?;
        self.show_closing(store, case.closing.unwrap_or(""))
    }

    fn play_beside(&mut self, case: Case<'_>) -> Option<()> {
        let store = self.open_store(case, NoGate)?;
        self.work_beside(&store, case)
    }
}

/// Two benches: one has its stores in a heap, for sessions that make their calls in turn; the other is for parallel sessions.
#[derive(Drop)]
pub struct Benches<'h, R> {
    heap: &'h LocalHeap,
    turns: Bench<'h, R, &'h LocalHeap>,
    apart: Bench<'h, R, Global>,
}

impl<'h, R: Threads + Wait + Sync> Benches<'h, R> {
    /// Empty benches.
    pub fn new(rt: &'h R, alloc: Global, heap: &'h LocalHeap) -> Self {
        Benches {
            heap,
            turns: Bench::new(rt, alloc, heap),
            apart: Bench::new(rt, alloc, alloc),
        }
    }

    fn play(&mut self, case: Case<'_>, watch: &Watch) -> Option<()> {
        self.turns.heap = if case.who == "lean" {
            Some(self.heap)
        } else {
            None
        };
        match (case.who, case.manner) {
            ("beside", _) => self.apart.play_beside(case),
            ("apart", Manner::Free) => self.apart.play_apart(case, NoGate),
            ("apart", _) => self.apart.play_apart(case, watch.gate()),
            _ => self.turns.play_in_turn(case, watch.gate()),
        }
    }

    /// The answers to the lines of a case, after its title.
    pub fn answer(&mut self, text: &str) -> Option<String> {
        let (title, lines) = text.split_once('\n')?;
        let case = read_case(lines)?;
        let watch = Watch::new(case.manner);
        let played = self.play(case, &watch);
        let (turns, apart) = (self.turns.take_out(), self.apart.take_out());
        let mut out = format!(in self.turns.global; "{title}\n{turns}{apart}").ok()?;
        if !matches!(case.manner, Manner::Free) {
            watch.show(&mut out).ok()?;
        }
        if played.is_none() {
            out.push_str("a line that cannot be read\n").ok()?;
        }
        Some(out)
    }
}
