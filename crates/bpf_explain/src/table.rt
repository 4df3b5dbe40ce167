//! The table of a program's instructions, and the sentence after it.

use crate::explaining::Explanation;
use crate::facts::{write_facts, write_range};
use crate::lines::Line;
use crate::reading::{registers_read, target_of};
use crate::sentences::write_sentence;
use crate::source::instruction_lines;
use bpf_range::Range;
use bpf_verify::State;
use std::alloc::{AllocError, Allocator};

/// Width of a range of lengths, in columns.
const RANGE_WIDTH: usize = 10;

/// Usual width of an instruction, in columns.
const INSN_WIDTH: usize = 20;

/// Maximum width of a row, in columns.
const ROW_WIDTH: usize = 100;

// Pads with spaces to a width, then adds two spaces.
fn pad<A: Allocator>(out: &mut String<A>, start: usize, width: usize) -> Result<(), AllocError> {
    let used = out.len().saturating_sub(start);
    for _ in used..width {
        out.push(' ')?;
    }
    out.push_str("  ")
}

// Prints a range of lengths, or `-` if the range is not known.
fn write_bounds<A: Allocator>(out: &mut String<A>, range: Option<Range>) -> Result<(), AllocError> {
    let start = out.len();
    match range {
        Some(range) => write_range(out, range)?,
        None => out.push_str("-")?,
    }
    pad(out, start, RANGE_WIDTH)
}

// Prints the facts known about the registers that an instruction reads, and its jump target.
fn reads_of<A: Allocator>(alloc: A, line: &Line) -> Result<String<A>, AllocError> {
    let mut out = String::new(alloc);
    let Some(state) = &line.state else {
        out.push_str("nothing leads here")?;
        return Ok(out);
    };
    write_facts(&mut out, line.insn, state, "; ")?;
    if let Some(unit) = target_of(line.at, line.insn) {
        let mark = if reads(line) { "; " } else { "" };
        write!(&mut out, "{mark}jumps to {unit}")?;
    }
    Ok(out)
}

// The last column of a row, which may continue on further lines. The current line begins at `line` in the text.
#[derive(Clone, Copy)]
struct Column {
    indent: usize,
    line: usize,
}

impl Column {
    // Adds a space if `more` bytes and a semicolon fit on the current line, otherwise a line break and the indentation.
    fn space<A: Allocator>(&mut self, out: &mut String<A>, more: usize) -> Result<(), AllocError> {
        let used = out.len().saturating_sub(self.line);
        if used.saturating_add(more) < ROW_WIDTH - 1 {
            return Ok(out.push(' ')?);
        }
        out.push('\n')?;
        self.line = out.len();
        for _ in 0..self.indent {
            out.push(' ')?;
        }
        Ok(())
    }
}

// Prints facts in the last column of a row that begins at `row`. A fact that does not fit on the current line begins the next line, in the
// column `indent`. A fact that is longer than a line is broken at spaces.
fn write_facts_in<A: Allocator>(
    out: &mut String<A>,
    row: usize,
    indent: usize,
    known: &str,
) -> Result<(), AllocError> {
    let mut column = Column { indent, line: row };
    for (index, fact) in known.split("; ").enumerate() {
        if index > 0 {
            out.push(';')?;
            column.space(out, fact.len())?;
        }
        for (place, word) in fact.split(' ').enumerate() {
            if place > 0 {
                column.space(out, word.len())?;
            }
            out.push_str(word)?;
        }
    }
    Ok(())
}

// Prints the columns after an instruction's numbers: the lengths, the instruction and the facts known before it. The row begins at `row`.
fn write_known<A: Allocator + Copy>(
    alloc: A,
    out: &mut String<A>,
    row: usize,
    line: &Line,
    text: &str,
) -> Result<(), AllocError> {
    write_bounds(out, line.state.map(|state| state.bytes))?;
    write_bounds(out, line.state.map(|state| state.argument))?;
    let start = out.len();
    out.push_str(text)?;
    let known = reads_of(alloc, line)?;
    if known.is_empty() {
        return Ok(());
    }
    let indent = start.saturating_sub(row).saturating_add(INSN_WIDTH + 2);
    pad(out, start, INSN_WIDTH)?;
    write_facts_in(out, row, indent, known.as_str())
}

fn reads(line: &Line) -> bool {
    let [first, _, _] = registers_read(line.insn);
    first.is_some()
}

// Prints the unit of an instruction and its line number in the text.
fn write_numbers<A: Allocator>(
    out: &mut String<A>,
    line: &Line,
    number: Option<usize>,
) -> Result<(), AllocError> {
    let at = line.at;
    write!(out, "{at:>4}  ")?;
    match number {
        Some(number) => write!(out, "{number:>4}  "),
        None => Ok(()),
    }
}

impl<A: Allocator + Copy> Explanation<A> {
    fn write_row(
        &self,
        alloc: A,
        out: &mut String<A>,
        line: &Line,
        number: Option<usize>,
        text: &str,
    ) -> Result<(), AllocError> {
        out.push_str("\n")?;
        let row = out.len();
        write_numbers(out, line, number)?;
        if self.has_states() {
            write_known(alloc, out, row, line, text)
        } else {
            out.push_str(text)
        }
    }

    /// Returns the explanation as text, without a final line feed. Each row has an instruction, its unit, its line number in the source
    /// (if given), the possible lengths of record and argument before it, and the facts known about each register that it reads. The text
    /// of a refused program ends with the reason. If the structure of the program is invalid, the rows have no lengths and no facts.
    ///
    /// `source` is the program's text as it was assembled.
    ///
    /// # Errors
    /// `AllocError` if allocation fails.
    pub fn text(&self, alloc: A, source: Option<&str>) -> Result<String<A>, AllocError> {
        let mut out = String::new(alloc);
        let numbers = match source {
            Some(source) => Some(instruction_lines(alloc, source)?),
            None => None,
        };
        self.write_head(&mut out, source.is_some())?;
        let mut texts = self.insns.as_str().lines();
        for (index, line) in self.lines.iter().enumerate() {
            let text = texts.next().unwrap_or("");
            let number = number_at(&numbers, index);
            self.write_row(alloc, &mut out, line, number, text)?;
        }
        if self.fault.is_some() && !self.lines.is_empty() {
            out.push_str("\n")?;
        }
        self.write_refusal(&mut out, &numbers)?;
        Ok(out)
    }

    /// Returns one sentence with the reason why a program is refused, and the instruction's unit and line. Returns an empty text for an
    /// accepted program.
    ///
    /// `source` is the program's text as it was assembled.
    ///
    /// # Errors
    /// `AllocError` if allocation fails.
    pub fn refusal(&self, alloc: A, source: Option<&str>) -> Result<String<A>, AllocError> {
        let mut out = String::new(alloc);
        let numbers = match source {
            Some(source) => Some(instruction_lines(alloc, source)?),
            None => None,
        };
        self.write_refusal(&mut out, &numbers)?;
        Ok(out)
    }
}

// The source line of the instruction at an index.
fn number_at<A: Allocator>(numbers: &Option<Vec<usize, A>>, index: usize) -> Option<usize> {
    match numbers {
        Some(numbers) => numbers.get(index).copied(),
        None => None,
    }
}

impl<A: Allocator> Explanation<A> {
    // Returns true if the instructions have states. A program with an invalid structure has no states.
    fn has_states(&self) -> bool {
        self.lines.iter().any(|line| line.state.is_some())
    }

    fn write_head(&self, out: &mut String<A>, has_source: bool) -> Result<(), AllocError> {
        if self.lines.is_empty() {
            return Ok(());
        }
        out.push_str("unit  ")?;
        if has_source {
            out.push_str("line  ")?;
        }
        if self.has_states() {
            out.push_str("record      argument    ")?;
            let start = out.len();
            out.push_str("instruction")?;
            pad(out, start, INSN_WIDTH)?;
            return out.push_str("what is known of what it reads");
        }
        out.push_str("instruction")
    }

    // Prints the sentence with the reason why the last instruction is refused.
    fn write_refusal(
        &self,
        out: &mut String<A>,
        numbers: &Option<Vec<usize, A>>,
    ) -> Result<(), AllocError> {
        let Some(fault) = self.fault else {
            return Ok(());
        };
        let Some(line) = self.lines.last() else {
            return out.push_str(
                "there is no instruction; the shortest program is mov r0, 0 and exit",
            );
        };
        let at = line.at;
        write!(out, "unit {at}")?;
        let index = self.lines.len().saturating_sub(1);
        if let Some(number) = number_at(numbers, index) {
            write!(out, ", line {number}")?;
        }
        out.push_str(": ")?;
        let text = self.insns.as_str().lines().nth(index).unwrap_or("");
        write_sentence(out, fault, line, self.units, text)
    }
}
