//! The statistics of a database as text.
ghost use Rattle.std.specs.Prelude.{◌≡◌, ◌≤◌, ◌++◌, length, IfOk, OnOk};
ghost use Rattle.std.specs.List.{flat_map};
ghost use Rattle.dbm_stats.specs.Figures.{figures_text, full_row};

use crate::bar_lines::show_bars;
use crate::rows::{show_depths, show_files, show_full, show_pairs};
use crate::{PageRoom, Stats};
use std::alloc::{AllocError, Allocator};

/// Makes a text with the statistics of a database, one on each line, and bars that show how full its pages are.
///
/// # Errors
/// `AllocError` if allocation fails.
pub fn figures_text<A: Allocator, B: Allocator>(
    alloc: A,
    stats: &Stats<B>,
) -> Result<Vec<u8, A>, AllocError>
    requires { length stats.now.bars.items ≤ 10 }
    ensures { IfOk result (λ text. text.items ≡ figures_text stats.now) }
{
    let mut text = Vec::new(alloc);
    show_pairs(&stats.pairs, &mut text)?;
    show_files(stats, &mut text)?;
    show_depths(stats.splits, stats.depths, stats.used, &mut text)?;
    text.extend_from_slice(b"pages by how full they are\n")?;
    show_bars(stats.bars.as_slice(), &mut text)?;
    text.extend_from_slice(b"pages nearest to full\n")?;
    show_fullest(stats.fullest.as_slice(), &mut text)?;
    Ok(text)
}

// Appends a line for each page.
fn show_fullest<A: Allocator>(fullest: &[PageRoom], text: &mut Vec<u8, A>) -> Result<(), AllocError>
    ensures { OnOk result (text.new.items ≡ text.old.items ++ flat_map full_row fullest.now) }
{
    for room in fullest {
        show_full(room, text)?;
    }
    Ok(())
}
