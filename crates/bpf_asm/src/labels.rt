//! The table of labels.

ghost use Rattle.std.specs.Prelude.{◌≡◌, ◌≤◌, map, IfOk, OnOk};
ghost use Rattle.bpf_asm.specs.Denotes.{units};
ghost use Rattle.bpf_asm.specs.Emitted.{definition_of, IsTableOf, Defines, Records};
ghost use Rattle.bpf_asm.specs.Views.{view_line};

use crate::line::Line;
use std::alloc::{AllocError, Allocator};
use std::collections::BTreeMap;

/// The definition of a label: the index of its line, and the index of the next unit. Both count from 0.
#[derive(Clone, Copy, Debug, PartialEq, Eq)]
pub struct Definition {
    pub line: usize,
    pub unit: usize,
}

/// The labels of a text, sorted by name. A hash map would be slow if the author of the text chose names that collide.
pub type Labels<'a, A> = BTreeMap<&'a [u8], Definition, A>;

/// Returns the definition of a label, or `None` if the label is not defined.
pub fn find_label<'a, A: Allocator>(labels: &Labels<'a, A>, name: &'a [u8]) -> Option<Definition>
    ensures { result ≡ definition_of labels.now name.now }
{
    labels.get(&name).copied()
}

/// The number of units of a line.
pub fn line_units(line: &Line<'_>) -> usize
    ensures value { result ≡ units (view_line line.now) }
    ensures few { result ≤ 2 }
{
    match line {
        Line::Plain(insn) | Line::Aimed(insn, _) => insn.units(),
        _ => 0,
    }
}

/// Adds a label to the table, unless the table has it already.
fn define<'a, A: Allocator + Copy>(
    labels: &mut Labels<'a, A>,
    name: &'a [u8],
    place: Definition,
) -> Result<(), AllocError>
    ensures { OnOk result (Defines labels.old labels.new name.now place) }
{
    match find_label(labels, name) {
        Some(_) => Ok(()),
        None => {
            labels.insert(name, place)?;
            Ok(())
        }
    }
}

/// Adds the label of a line with `define`, if the line is a label.
fn record_line<'a, A: Allocator + Copy>(
    labels: &mut Labels<'a, A>,
    line: &Line<'a>,
    place: Definition,
) -> Result<(), AllocError>
    ensures { OnOk result (Records labels.old labels.new (view_line line.now) place) }
{
    match line {
        Line::Label(name) => define(labels, name, place),
        _ => Ok(()),
    }
}

/// Returns the labels of all lines. If a label is defined twice, the first definition is used.
pub fn find_labels<'a, A: Allocator + Copy>(
    alloc: A,
    lines: &[Line<'a>],
) -> Result<Labels<'a, A>, AllocError>
    ensures { IfOk result (IsTableOf (map view_line lines.now)) }
{
    let mut labels = BTreeMap::new(alloc);
    let mut unit = 0;
    for (at, line) in lines.iter().enumerate() {
        record_line(&mut labels, line, Definition { line: at, unit })?;
        unit += line_units(line);
    }
    Ok(labels)
}
