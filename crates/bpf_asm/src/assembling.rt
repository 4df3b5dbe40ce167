//! Assembles text to code.

ghost use Rattle.std.specs.Prelude.{◌≡◌, ◌≤◌, ◌<◌, ◌+◌, ◌-◌, ◌⊎◌, List, Option, pos, map, IfOk, IfErr, OnOk, IfSome, MatchBool};
ghost use Rattle.std.specs.List.{All, sum_by};
ghost use Rattle.std.specs.Option.{option_to_list};
ghost use Rattle.bpf_insn.specs.declared.insn.Insn.{Insn};
ghost use Rattle.bpf_insn.specs.Spelling.{HasSpelling};
ghost use Rattle.bpf_insn.specs.Code.{units_of, unit_count, unit_limit};
ghost use Rattle.bpf_asm.specs.Lines.{Meaning, HasSpellingIn};
ghost use Rattle.bpf_asm.specs.Denotes.{units, with_distance, Once, Yields, Says, meanings, Denotes, DenotesNone, IsOnlyCode};
ghost use Rattle.bpf_asm.specs.Emitted.{IsTableOf, IsDefinition, IsSecond, Emits, Refuses};
ghost use Rattle.bpf_asm.specs.Fault.{IsLineOf};
ghost use Rattle.bpf_asm.specs.Views.{view_line};

use crate::fault::{AsmFault, FaultKind};
use crate::labels::{Labels, find_label, find_labels};
use crate::line::{Line, read_line};
use crate::text::cut;
use bpf_insn::{Code, Insn, UNIT_LIMIT};
use std::alloc::{AllocError, Allocator};

/// Returns a jump with this distance to its target; returns any other instruction unchanged.
fn with_distance(insn: Insn, distance: i16) -> Insn
    ensures value { result ≡ with_distance insn distance }
    ensures has { HasSpelling insn → HasSpelling result }
    ensures units { units_of result ≡ units_of insn }
{
    match insn {
        Insn::Branch {
            test,
            width,
            dst,
            src,
            ..
        } => Insn::Branch {
            test,
            width,
            dst,
            src,
            offset: distance,
        },
        Insn::Jump { .. } => Insn::Jump { offset: distance },
        Insn::JumpFar { .. } => Insn::JumpFar {
            offset: distance as i32,
        },
        other => other,
    }
}

/// The distance from the unit after `own` to `target`, clamped to `i16::MAX`. In a code of at most 4,096 units no distance is clamped.
fn distance(own: usize, target: usize) -> i16
    requires { own < target }
    ensures { target ≤ unit_limit → result ≡ pos (target - (own + 1)) }
{
    let between = target - (own + 1);
    if between <= 0x7fff {
        between as i16
    } else {
        i16::MAX
    }
}

/// Returns the instruction of a line that begins at the unit `own`, or `None` if the line has no instruction.
fn resolved<'a, A: Allocator>(
    labels: &Labels<'a, A>,
    own: usize,
    line: &Line<'a>,
) -> Result<Option<Insn>, FaultKind>
    requires { HasSpellingIn (view_line line.now) }
    ensures ok { IfOk result (λ o. (ms : List (Option Meaning)) → IsTableOf ms labels.now → sum_by units ms ≤ unit_limit → Yields ms own (view_line line.now) (option_to_list o)) }
    ensures has { IfOk result (λ o. IfSome o HasSpelling) }
    ensures units { IfOk result (λ o. unit_count (option_to_list o) ≡ units (view_line line.now)) }
    ensures fault { IfErr result (λ _. (ms : List (Option Meaning)) → IsTableOf ms labels.now → Once ms → (here : List Insn) → Yields ms own (view_line line.now) here → ⊥) }
{
    match line {
        Line::Blank | Line::Label(_) => Ok(None),
        Line::Bad(kind) => Err(*kind),
        Line::Plain(insn) => Ok(Some(*insn)),
        Line::Aimed(insn, name) => {
            let target = find_label(labels, name).ok_or(FaultKind::Label)?;
            if target.unit <= own {
                return Err(FaultKind::Backward);
            }
            Ok(Some(with_distance(*insn, distance(own, target.unit))))
        }
    }
}

/// Returns false if the line is a label whose definition in the table is not on this line.
fn is_definition<'a, A: Allocator>(labels: &Labels<'a, A>, at: usize, line: &Line<'a>) -> bool
    ensures { MatchBool result (IsDefinition labels.now at (view_line line.now)) (IsSecond labels.now at (view_line line.now)) }
{
    match line {
        Line::Label(name) => match find_label(labels, name) {
            Some(definition) => definition.line == at,
            None => false,
        },
        _ => true,
    }
}

/// Appends the instruction of line `at`, if it has one.
fn emit_line<'a, A: Allocator, B: Allocator>(
    code: &mut Code<A>,
    labels: &Labels<'a, B>,
    at: usize,
    line: &Line<'a>,
) -> Result<(), FaultKind>
    requires { HasSpellingIn (view_line line.now) }
    ensures ok { OnOk result (Emits labels.now at (view_line line.now) code.old code.new) }
    ensures fault { IfErr result (λ kind. (kind ≡ FaultKind.NoMemory) ⊎ Refuses labels.now at (view_line line.now) code.old) }
{
    if !is_definition(labels, at, line) {
        return Err(FaultKind::Label);
    }
    let units = code.units();
    match resolved(labels, units, line)? {
        None => Ok(()),
        Some(insn) => {
            if units + insn.units() > UNIT_LIMIT {
                return Err(FaultKind::TooLong);
            }
            code.push(insn)?;
            Ok(())
        }
    }
}

/// Returns the code of the lines, or the fault of the first invalid line.
fn emit<'a, A: Allocator, B: Allocator>(
    alloc: A,
    lines: &[Line<'a>],
    labels: &Labels<'a, B>,
) -> Result<Code<A>, AsmFault>
    requires table { IsTableOf (map view_line lines.now) labels.now }
    requires spelled { All (λ l. HasSpellingIn (view_line l)) lines.now }
    ensures ok { IfOk result (Says (map view_line lines.now)) }
    ensures fault { IfErr result (λ e. (e.kind ≡ FaultKind.NoMemory) ⊎ ((code : List Insn) → Says (map view_line lines.now) code → ⊥)) }
    ensures line { IfErr result (λ e. IsLineOf e.kind e.line) }
{
    let mut code = Code::new(alloc);
    for (at, line) in lines.iter().enumerate() {
        if let Err(kind) = emit_line(&mut code, labels, at, line) {
            return Err(AsmFault::at(at + 1, kind));
        }
    }
    Ok(code)
}

fn read_lines<A: Allocator>(alloc: A, text: &[u8]) -> Result<Vec<Line<'_>, A>, AllocError>
    ensures value { IfOk result (λ v. map view_line v.items ≡ meanings text.now) }
    ensures spelled { IfOk result (λ v. All (λ l. HasSpellingIn (view_line l)) v.items) }
{
    let mut read = Vec::new(alloc);
    let mut rest = Some(text);
    while let Some(bytes) = rest {
        let (line, after) = cut(bytes, b'\n');
        read.push(read_line(line))?;
        rest = after;
    }
    Ok(read)
}

/// Assembles a text to the one code that it denotes.
///
/// Each line is blank, a label or an instruction, with an optional comment after `;`. The distance of a jump to a label is the number of
/// units between the jump and the label. Labels are in a map sorted by name, so no choice of label names makes assembling slow.
///
/// # Errors
/// `NoMemory` if memory runs out. Every other error means that the text denotes no code. The error names the first invalid line, counted
/// from 1, and the first fault of that line in this order: `Mnemonic`, `Operand`, `Number`, `Label`, `Backward`, `TooLong`.
pub fn assemble<A: Allocator + Copy>(alloc: A, text: &str) -> Result<Code<A>, AsmFault>
    ensures ok { IfOk result (Denotes text.now) }
    ensures only { IfOk result (IsOnlyCode text.now) }
    ensures fault { IfErr result (λ e. (e.kind ≡ FaultKind.NoMemory) ⊎ DenotesNone text.now) }
    ensures line { IfErr result (λ e. IsLineOf e.kind e.line) }
{
    let lines = read_lines(alloc, text.as_bytes())?;
    let labels = find_labels(alloc, &lines)?;
    emit(alloc, &lines, &labels)
}
