//! The statistics of a database as a JSON object.
ghost use Rattle.std.specs.Prelude.{◌≡◌, ◌++◌, ◌∷◌, decimal, drop, IfOk, OnOk};
ghost use Rattle.std.specs.List.{flat_map};
ghost use Rattle.dbm_stats.specs.Figures.{between_commas, depth_fields, figures_object, file_fields, pair_fields, room_object};

use crate::json::{show_field, show_next_field};
use crate::rows::show_number;
use crate::{Depths, PageRoom, PairTotals, Stats};
use std::alloc::{AllocError, Allocator};

/// Makes a line with the statistics of a database as a JSON object.
///
/// # Errors
/// `AllocError` if allocation fails.
pub fn figures_object<A: Allocator + Copy, B: Allocator>(
    alloc: A,
    stats: &Stats<B>,
) -> Result<Vec<u8, A>, AllocError>
    ensures { IfOk result (λ text. text.items ≡ figures_object stats.now) }
{
    let mut text = Vec::new(alloc);
    text.push(b'{')?;
    show_pairs(&stats.pairs, &mut text)?;
    show_files(stats, &mut text)?;
    show_depths(stats.splits, stats.depths, &mut text)?;
    text.extend_from_slice(b",\"fill\":[")?;
    show_numbers(alloc, stats.bars.as_slice(), &mut text)?;
    text.extend_from_slice(b"],\"fullest\":[")?;
    show_rooms(alloc, stats.fullest.as_slice(), &mut text)?;
    text.extend_from_slice(b"]}\n")?;
    Ok(text)
}

// Appends the fields about pairs.
fn show_pairs<A: Allocator>(totals: &PairTotals, text: &mut Vec<u8, A>) -> Result<(), AllocError>
    ensures { OnOk result (text.new.items ≡ text.old.items ++ pair_fields totals.now) }
{
    show_field(b"pairs", totals.count, text)?;
    show_next_field(b"key_bytes", totals.key_bytes, text)?;
    show_next_field(b"value_bytes", totals.value_bytes, text)?;
    show_next_field(b"longest_key", totals.longest_key, text)?;
    show_next_field(b"longest_pair", totals.longest_pair, text)
}

// Appends the fields about pages and files.
fn show_files<A: Allocator, B: Allocator>(
    stats: &Stats<B>,
    text: &mut Vec<u8, A>,
) -> Result<(), AllocError>
    ensures { OnOk result (text.new.items ≡ text.old.items ++ file_fields stats.now) }
{
    show_next_field(b"pages", stats.used as u64, text)?;
    show_next_field(b"holes", stats.holes as u64, text)?;
    show_next_field(b"dir_bytes", stats.dir_bytes, text)?;
    show_next_field(b"pag_bytes", stats.pag_bytes, text)?;
    show_next_field(b"wide_bytes", stats.wide_bytes, text)
}

// Appends the fields about the directory.
fn show_depths<A: Allocator>(
    splits: u64,
    depths: Depths,
    text: &mut Vec<u8, A>,
) -> Result<(), AllocError>
    ensures { OnOk result (text.new.items ≡ text.old.items ++ depth_fields splits depths) }
{
    show_next_field(b"splits", splits, text)?;
    show_next_field(b"least_depth", depths.least as u64, text)?;
    show_next_field(b"greatest_depth", depths.greatest as u64, text)?;
    show_next_field(b"depth_sum", depths.sum, text)
}

// Appends numbers, separated by commas.
fn show_numbers<A: Allocator>(
    alloc: A,
    numbers: &[u32],
    text: &mut Vec<u8, A>,
) -> Result<(), AllocError>
    ensures { OnOk result (text.new.items ≡ text.old.items ++ between_commas decimal numbers.now) }
{
    let mut items = Vec::new(alloc);
    for number in numbers {
        items.push(b',')?;
        show_number(*number as u64, &mut items)?;
    }
    text.extend_from_slice(past_first(items.as_slice()))
}

// Appends pages as objects, separated by commas.
fn show_rooms<A: Allocator>(
    alloc: A,
    rooms: &[PageRoom],
    text: &mut Vec<u8, A>,
) -> Result<(), AllocError>
    ensures { OnOk result (text.new.items ≡ text.old.items ++ between_commas room_object rooms.now) }
{
    let mut items = Vec::new(alloc);
    for room in rooms {
        items.push(b',')?;
        show_room(room, &mut items)?;
    }
    text.extend_from_slice(past_first(items.as_slice()))
}

// Appends a page as an object.
fn show_room<A: Allocator>(room: &PageRoom, text: &mut Vec<u8, A>) -> Result<(), AllocError>
    ensures { OnOk result (text.new.items ≡ text.old.items ++ room_object room.now) }
{
    text.push(b'{')?;
    show_field(b"page", room.number as u64, text)?;
    show_next_field(b"free", room.free as u64, text)?;
    Ok(text.push(b'}')?)
}

// Returns the bytes after the first one, or no bytes if `bytes` is empty.
fn past_first(bytes: &[u8]) -> &[u8]
    ensures { result.now ≡ drop 1 bytes.now }
{
    if bytes.is_empty() {
        return bytes;
    }
    &bytes[1..]
}
