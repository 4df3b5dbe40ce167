//! Random commands.
ghost use Rattle.std.specs.Prelude.{◌<◌};

use sdbm_addr::{Bytes, Mode};
use std::alloc::{AllocError, Global};
use store_cmd::Command;

// A linear congruential generator with the constants of Knuth's MMIX.
#[derive(Drop)]
struct Dice {
    state: u64,
}

impl Dice {
    // A number below `sides`.
    fn roll(&mut self, sides: u64) -> u64
        requires { 0 < sides }
        ensures { result < sides }
    {
        self.state = self
            .state
            .wrapping_mul(6364136223846793005)
            .wrapping_add(1442695040888963407);
        (self.state >> 33) % sides
    }
}

// A random command on one of `keys` keys. A value is one byte, repeated up to 40 times.
fn roll_command(alloc: Global, dice: &mut Dice, keys: u16) -> Result<Command<Global>, AllocError>
    requires { 0 < keys }
{
    let key = (dice.roll(u64::from(keys)) as u16).to_le_bytes();
    let key = Bytes::from_slice(alloc, &key)?;
    let byte = dice.roll(256) as u8;
    let value = Bytes::new(vec![in alloc; byte; dice.roll(41) as usize]?);
    let kind = dice.roll(16);
    let mode = if kind < 10 {
        Mode::Replace
    } else {
        Mode::Insert
    };
    Ok(match kind {
        0..=5 => Command::Fetch { key },
        6..=12 => Command::Store { key, value, mode },
        13..=14 => Command::Delete { key },
        _ => Command::Count,
    })
}

/// Reads `SEED KEYS CALLS`: `CALLS` random commands on `KEYS` keys. `SEED` is the seed of the first session; each further
/// session adds 1.
pub fn read_rolls(alloc: Global, words: &str, place: u64) -> Option<Vec<Command<Global>>> {
    let (seed, rest) = words.split_once(' ')?;
    let (keys, calls) = rest.split_once(' ')?;
    let state = seed.parse::<u64>().ok()?.wrapping_add(place);
    let keys = keys.parse::<u16>().ok()?;
    if keys == 0 {
        return None;
    }
    let mut dice = Dice { state };
    let mut commands = Vec::new(alloc);
    for _ in 0..calls.parse::<usize>().ok()? {
        commands
            .push(roll_command(alloc, &mut dice, keys).ok()?)
            .ok()?;
    }
    Some(commands)
}
