//! Answers to the lines about images and texts.

use bpf_asm::{assemble, disassemble};
use bpf_insn::{Code, decode, encode};
use std::alloc::{AllocError, Global};
use std::fmt::Write;

// Appends the instructions of a code, separated by ` / `.
fn push_insns(out: &mut String, code: &Code) -> Result<(), AllocError> {
    for unit in 0..code.units() {
        if let Some(insn) = code.insn_at(unit) {
            out.push_str(if unit == 0 { "" } else { " / " })?;
            write!(out, "{insn:?}")?;
        }
    }
    Ok(())
}

// Appends the text of a code, with ` / ` between its lines.
fn push_text(alloc: Global, out: &mut String, code: &Code) -> Result<(), AllocError> {
    let text = disassemble(alloc, code)?;
    let marked = text.as_str().trim_end().replace(alloc, "\n", " / ")?;
    out.push_str(marked.as_str())
}

// Appends the description of an image: its instructions and their text, or its fault.
fn push_image(alloc: Global, out: &mut String, image: &[u8]) -> Result<(), AllocError> {
    let code = match decode(alloc, image) {
        Ok(code) => code,
        Err(fault) => return write!(out, "{fault}"),
    };
    push_insns(out, &code)?;
    out.push_str("; ")?;
    push_text(alloc, out, &code)?;
    if encode(alloc, &code)?.as_slice() != image {
        out.push_str(" is written otherwise")?;
    }
    Ok(())
}

/// The description of an image in hex.
pub fn show_image(alloc: Global, digits: &str) -> Result<String, AllocError> {
    let digits = if digits == "." { "" } else { digits };
    let Ok(image) = hex::decode(alloc, digits) else {
        return String::from_str(alloc, "an image that is no hex");
    };
    let mut out = String::new(alloc);
    push_image(alloc, &mut out, &image)?;
    Ok(out)
}

/// The image of a text in hex, or the text's fault.
pub fn show_text(alloc: Global, text: &str) -> Result<String, AllocError> {
    match assemble(alloc, text) {
        Err(fault) => format!(in alloc; "{fault}"),
        Ok(code) if code.is_empty() => String::from_str(alloc, "."),
        Ok(code) => hex::encode(alloc, &encode(alloc, &code)?),
    }
}

/// Describes a text and an image that should be equivalent.
pub fn show_form(alloc: Global, line: &str) -> Result<String, AllocError> {
    let Some((digits, line)) = line.split_once(' ') else {
        return String::from_str(alloc, "a form without a text");
    };
    let decoded = show_image(alloc, digits)?;
    let assembled = show_text(alloc, line)?;
    format!(in alloc; "{line}: {decoded}; {assembled}")
}

/// Unescapes a text that is written on one line.
pub fn unescaped(alloc: Global, text: &str) -> Result<String, AllocError> {
    let text = text.replace(alloc, "\\n", "\n")?;
    let text = text.as_str().replace(alloc, "\\r", "\r")?;
    text.as_str().replace(alloc, "\\t", "\t")
}
