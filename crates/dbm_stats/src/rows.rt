//! Appends lines with a label and a number to a text.
ghost use Rattle.std.specs.Prelude.{◌≡◌, ◌++◌, decimal, OnOk};
ghost use Rattle.dbm_stats.specs.Figures.{depth_rows, file_rows, full_row, pair_rows, quotient, row};

use crate::{Depths, PageRoom, PairTotals, Stats};
use itoa::Buffer;
use std::alloc::{AllocError, Allocator};

// Appends a line with a label and a number.
fn show_row<A: Allocator>(
    label: &[u8],
    number: u64,
    text: &mut Vec<u8, A>,
) -> Result<(), AllocError>
    ensures { OnOk result (text.new.items ≡ text.old.items ++ row label.now number) }
{
    text.extend_from_slice(label)?;
    show_number(number, text)?;
    Ok(text.push(b'\n')?)
}

/// Appends a number in decimal.
///
/// # Errors
/// `AllocError` if allocation fails.
pub fn show_number<A: Allocator>(number: u64, text: &mut Vec<u8, A>) -> Result<(), AllocError>
    ensures { OnOk result (text.new.items ≡ text.old.items ++ decimal number) }
{
    let mut digits = Buffer::new();
    text.extend_from_slice(digits.format(number).as_bytes())
}

/// Appends the lines about pairs.
///
/// # Errors
/// `AllocError` if allocation fails. A part of the output may then be in `text`.
pub fn show_pairs<A: Allocator>(
    totals: &PairTotals,
    text: &mut Vec<u8, A>,
) -> Result<(), AllocError>
    ensures { OnOk result (text.new.items ≡ text.old.items ++ pair_rows totals.now) }
{
    show_row(b"pairs                    ", totals.count, text)?;
    show_row(b"bytes of keys            ", totals.key_bytes, text)?;
    show_row(b"bytes of values          ", totals.value_bytes, text)?;
    show_row(b"bytes of longest key     ", totals.longest_key, text)?;
    show_row(b"bytes of longest pair    ", totals.longest_pair, text)
}

/// Appends the lines about pages and files.
///
/// # Errors
/// `AllocError` if allocation fails. A part of the output may then be in `text`.
pub fn show_files<A: Allocator, B: Allocator>(
    stats: &Stats<B>,
    text: &mut Vec<u8, A>,
) -> Result<(), AllocError>
    ensures { OnOk result (text.new.items ≡ text.old.items ++ file_rows stats.now) }
{
    show_row(b"pages with pairs         ", stats.used as u64, text)?;
    show_row(b"pages without (holes)    ", stats.holes as u64, text)?;
    show_row(b"bytes of .dir            ", stats.dir_bytes, text)?;
    show_row(b"bytes of .pag            ", stats.pag_bytes, text)?;
    show_row(b"bytes of .pag, widened   ", stats.wide_bytes, text)
}

/// Appends the lines about the directory.
///
/// # Errors
/// `AllocError` if allocation fails. A part of the output may then be in `text`.
pub fn show_depths<A: Allocator>(
    splits: u64,
    depths: Depths,
    used: u32,
    text: &mut Vec<u8, A>,
) -> Result<(), AllocError>
    ensures { OnOk result (text.new.items ≡ text.old.items ++ depth_rows splits depths used) }
{
    show_row(b"splits                   ", splits, text)?;
    show_row(b"least depth of a page    ", depths.least as u64, text)?;
    text.extend_from_slice(b"average depth            ")?;
    show_quotient(depths.sum, used, text)?;
    text.push(b'\n')?;
    show_row(b"greatest depth           ", depths.greatest as u64, text)
}

// Appends a quotient with one decimal place, rounded down. A `count` of 0 counts as 1.
fn show_quotient<A: Allocator>(
    sum: u64,
    count: u32,
    text: &mut Vec<u8, A>,
) -> Result<(), AllocError>
    ensures { OnOk result (text.new.items ≡ text.old.items ++ quotient sum count) }
{
    let count = count.max(1) as u64;
    show_number(sum / count, text)?;
    text.push(b'.')?;
    show_number(sum % count * 10 / count, text)
}

/// Appends the line of one of the fullest pages.
///
/// # Errors
/// `AllocError` if allocation fails. A part of the output may then be in `text`.
pub fn show_full<A: Allocator>(room: &PageRoom, text: &mut Vec<u8, A>) -> Result<(), AllocError>
    ensures { OnOk result (text.new.items ≡ text.old.items ++ full_row room.now) }
{
    text.extend_from_slice(b"page ")?;
    show_number(room.number as u64, text)?;
    text.extend_from_slice(b": ")?;
    show_number(room.free as u64, text)?;
    text.extend_from_slice(b" bytes free\n")
}
