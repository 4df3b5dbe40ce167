//! Ends sessions, closes stores, and keeps the results.

use crate::bench::Bench;
use crate::calls::{close, end, opening};
use crate::plain::is_as_plain;
use std::alloc::{AllocError, Allocator};
use std::fmt::Write;
use store_shared::{Calls, Closed, Gate, Session, Store};

impl<'h, R, A: Allocator + Copy> Bench<'h, R, A> {
    /// Ends sessions while the heap has no memory, and appends their calls to those in hand. Reports each session that made
    /// calls.
    pub fn end_all<G: Gate>(&mut self, sessions: Vec<Session<'_, A, G>>) -> Option<()> {
        let _blocks = self.take_memory(0).ok()?;
        let count = sessions.len();
        let mut in_order = true;
        self.out.push_str("ended").ok()?;
        for (place, session) in sessions.into_iter().enumerate() {
            let calls = end(session);
            let (number, made) = (calls.number(), calls.entries().len());
            in_order = in_order && number == place as u64;
            if made > 0 {
                write!(self.out, " {number}:{made}").ok()?;
            }
            self.hands.push(Some(calls)).ok()?;
        }
        let order = if in_order { "in order" } else { "out of order" };
        writeln!(self.out, ", {count} {order}").ok()
    }

    fn read_places(&self, words: &str) -> Option<Vec<usize>> {
        let mut places = Vec::new(self.global);
        if words.is_empty() {
            return Some(places);
        }
        for word in words.split(' ') {
            places.push(word.parse::<usize>().ok()?).ok()?;
        }
        Some(places)
    }

    // Takes the calls at these indices.
    fn take_calls(&mut self, places: &[usize]) -> Option<Vec<Calls<A>, A>> {
        let mut handed = Vec::new(self.alloc);
        for place in places {
            handed.push(self.hands.get_mut(*place)?.take()?).ok()?;
        }
        Some(handed)
    }

    fn put_calls_back(&mut self, places: &[usize], handed: Vec<Calls<A>, A>) {
        for (place, calls) in places.iter().zip(handed) {
            if let Some(hand) = self.hands.get_mut(*place) {
                *hand = Some(calls);
            }
        }
    }

    // Keeps the image and the trail of a closed store. Drops all calls in hand.
    fn keep(&mut self, closed: Closed<A>) -> Result<(), AllocError> {
        let Closed { image, trail } = closed;
        let (entries, pairs) = (trail.entries.len(), trail.opening.as_slice().len());
        write!(self.out, "closed: {entries} entries after {pairs} pairs")?;
        let plain = is_as_plain(self.global, self.alloc, &trail, &image)?;
        self.out.push_str(if plain {
            "\n"
        } else {
            ", not as a plain map\n"
        })?;
        self.image = Some(image);
        self.trail = Some(trail);
        self.hands = Vec::new(self.global);
        Ok(())
    }

    // Closes a store with the calls at these indices, while the heap has no memory. If that fails, returns the store.
    fn close<G: Gate>(&mut self, store: Store<A, G>, words: &str) -> Option<Option<Store<A, G>>> {
        let places = self.read_places(words)?;
        let handed = self.take_calls(places.as_slice())?;
        let blocks = self.take_memory(0).ok()?;
        let came = close(store, handed);
        drop(blocks);
        match came {
            Ok(closed) => {
                self.keep(closed).ok()?;
                Some(None)
            }
            Err((fault, store, handed)) => {
                self.put_calls_back(places.as_slice(), handed);
                writeln!(
                    self.out,
                    "refused {fault:?}, opened with {} pairs",
                    opening(&store)
                )
                .ok()?;
                Some(Some(store))
            }
        }
    }

    // The session of each entry of the trail, in order.
    fn order_text(&self) -> Option<String> {
        let mut text = String::from_str(self.global, "order").ok()?;
        for entry in self.trail.as_ref()?.entries.iter() {
            write!(text, " {}", entry.session()).ok()?;
        }
        Some(text)
    }

    fn kept_text(&self, word: &str) -> Option<String> {
        match word {
            "order" => self.order_text(),
            "pairs" => self.pairs_text(self.image.as_ref()?),
            _ => None,
        }
    }

    /// Closes a store as the lines say, and shows the result.
    pub fn show_closing<G: Gate>(&mut self, store: Store<A, G>, lines: &str) -> Option<()> {
        let mut store = Some(store);
        for line in lines.lines() {
            let (word, rest) = line.split_once(' ').unwrap_or((line, ""));
            if word == "close" {
                store = self.close(store?, rest)?;
            } else {
                let text = self.kept_text(word)?;
                writeln!(self.out, "{text}").ok()?;
            }
        }
        Some(())
    }
}
