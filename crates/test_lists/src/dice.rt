//! Random commands and events.
ghost use Rattle.std.specs.Prelude.{◌<◌};

use crate::asks::{Ask, Run};
use crate::comes::Does;
use crate::programs::PROGRAMS;
use crate::values::{Value, same_bytes};

/// A linear congruential generator with the constants of Knuth's MMIX.
#[derive(Drop)]
pub struct Dice {
    pub state: u64,
}

impl Dice {
    /// A number below `sides`.
    pub fn roll(&mut self, sides: u64) -> u64
        requires { 0 < sides }
        ensures { result < sides }
    {
        self.state = self
            .state
            .wrapping_mul(6364136223846793005)
            .wrapping_add(1442695040888963407);
        (self.state >> 33) % sides
    }
}

// Lengths of values whose pairs fit on one page, split pages, are crowded out, or are too large. With keys of two bytes, a
// value of 410 bytes still fits next to one of 600, and a value of 411 does not; 1,006 bytes are the maximum.
const COUNTS: [usize; 8] = [1, 2, 300, 410, 411, 600, 1006, 1008];

fn any_value(dice: &mut Dice) -> Value {
    let byte = dice.roll(200) as u8;
    let count = COUNTS[dice.roll(8) as usize];
    same_bytes(byte, count)
}

// Lengths of arguments. The last is too long.
const ARGUMENTS: [usize; 5] = [0, 7, 8, 1024, 1025];

// Lengths of blanks. With keys of two bytes, 1,006 is the maximum and 1,007 is too large.
const BLANKS: [usize; 8] = [0, 7, 8, 410, 411, 600, 1006, 1007];

fn any_blank(dice: &mut Dice) -> Option<usize> {
    match dice.roll(2) {
        0 => None,
        _ => Some(BLANKS[dice.roll(8) as usize]),
    }
}

fn any_run(dice: &mut Dice, key: usize) -> Run {
    let byte = dice.roll(200) as u8;
    let arg = same_bytes(byte, ARGUMENTS[dice.roll(5) as usize]);
    Run {
        key,
        program: dice.roll(PROGRAMS as u64) as usize,
        arg,
        blank: any_blank(dice),
        now: dice.roll(1000),
    }
}

/// A random command.
pub fn any_ask(dice: &mut Dice) -> Ask {
    let key = dice.roll(8) as usize;
    let value = any_value(dice);
    match dice.roll(14) {
        0 | 1 => Ask::Fetch(key),
        2 | 3 => Ask::Insert(key, value),
        4 | 5 => Ask::Replace(key, value),
        6 => Ask::Delete(key),
        7 | 8 | 9 | 10 | 11 | 12 => Ask::Run(any_run(dice, key)),
        _ => Ask::Count,
    }
}

/// A random event.
pub fn any_event(dice: &mut Dice) -> Does {
    let ticket = dice.roll(4) as usize;
    match dice.roll(16) {
        0 | 1 | 2 | 3 | 4 | 5 => Does::Ask(dice.roll(3), any_ask(dice)),
        6 | 7 | 8 | 9 => Does::Work(ticket),
        10 | 11 => Does::Convert(ticket),
        12 | 13 | 14 => Does::Finish(ticket),
        _ => Does::Abandon(ticket),
    }
}
