//! Bars of `#` that show how full pages are.
ghost use Rattle.std.specs.Prelude.{◌≡◌, ◌≤◌, ◌++◌, length, replicate, OnOk};
ghost use Rattle.dbm_stats.specs.Totals.{greatest};
ghost use Rattle.dbm_stats.specs.Figures.{bar_length, bar_row, bar_rows, percent};

use crate::rows::show_number;
use std::alloc::{AllocError, Allocator};

// The longest bar.
static SIGNS: [u8; 40] = [b'#'; 40];

/// Appends a line for each element of `bars`. Each element is the number of pages in one tenth.
///
/// # Errors
/// `AllocError` if allocation fails. A part of the output may then be in `text`.
pub fn show_bars<A: Allocator>(bars: &[u32], text: &mut Vec<u8, A>) -> Result<(), AllocError>
    requires { length bars.now ≤ 10 }
    ensures { OnOk result (text.new.items ≡ text.old.items ++ bar_rows bars.now) }
{
    let most = most_of(bars);
    for i in 0..bars.len() {
        show_bar(most, i as u64, bars[i], text)?;
    }
    Ok(())
}

// Returns the greatest number in `bars`, or 0 if `bars` is empty.
fn most_of(bars: &[u32]) -> u32
    ensures { result ≡ greatest (λ n. n) bars.now }
{
    let mut most = 0u32;
    for bar in bars {
        most = most.max(*bar);
    }
    most
}

// Appends the line of tenth `i`, which has `number` pages. `most` is the greatest number of any tenth.
fn show_bar<A: Allocator>(
    most: u32,
    i: u64,
    number: u32,
    text: &mut Vec<u8, A>,
) -> Result<(), AllocError>
    requires { i ≤ 10 }
    ensures { OnOk result (text.new.items ≡ text.old.items ++ bar_row most i number) }
{
    text.extend_from_slice(b"from ")?;
    show_percent(i, text)?;
    text.extend_from_slice(b"%  ")?;
    text.extend_from_slice(signs(bar_length(most, number)))?;
    text.push(b' ')?;
    show_number(number as u64, text)?;
    Ok(text.push(b'\n')?)
}

// Appends the lower bound of a tenth in percent, at least two characters wide.
fn show_percent<A: Allocator>(i: u64, text: &mut Vec<u8, A>) -> Result<(), AllocError>
    requires { i ≤ 10 }
    ensures { OnOk result (text.new.items ≡ text.old.items ++ percent i) }
{
    if i == 0 {
        return text.extend_from_slice(b" 0");
    }
    show_number(10 * i, text)
}

// Returns a bar of `count` signs.
fn signs(count: usize) -> &'static [u8]
    requires { count ≤ 40 }
    ensures { result.now ≡ replicate count 35 }
{
    &SIGNS[..count]
}

// Returns the length of the bar for `number`, if 40 signs represent `most`. A number above 0 has at least one sign.
fn bar_length(most: u32, number: u32) -> usize
    ensures value { result ≡ bar_length most number }
    ensures short { result ≤ 40 }
{
    let above = 40 * number as u64 + (most as u64).saturating_sub(1);
    let length = above / most.max(1) as u64;
    length.min(40) as usize
}
