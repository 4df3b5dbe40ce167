//! Submits programs to a registry.

use bpf_asm::{assemble, disassemble};
use bpf_insn::encode;
use prog_registry::{ProgId, Registry};
use std::alloc::{AllocError, Global};

// The image of a program that is written on one line.
fn image_of(alloc: Global, text: &str) -> Result<Option<Vec<u8>>, AllocError> {
    let text = if text == "." { "" } else { text };
    let lines = text.replace(alloc, " / ", "\n")?;
    match assemble(alloc, lines.as_str()) {
        Ok(code) => Ok(Some(encode(alloc, &code)?)),
        Err(_) => Ok(None),
    }
}

// Reads bytes in hex; `+N` after them appends N zeros.
fn read_bytes(alloc: Global, word: &str) -> Option<Vec<u8>> {
    let (digits, zeros) = match word.split_once('+') {
        Some((digits, zeros)) => (digits, zeros.parse::<u16>().ok()?),
        None => (word, 0),
    };
    let mut bytes = hex::decode(alloc, digits).ok()?;
    for _ in 0..zeros {
        bytes.push(0).ok()?;
    }
    Some(bytes)
}

// The answer to an image, and `true` if the answer is a number.
fn submitted(
    alloc: Global,
    registry: &mut Registry,
    image: &[u8],
) -> Result<(String, bool), AllocError> {
    match registry.submit(image) {
        Ok(id) => Ok((format!(in alloc; "program {}", id.0)?, true)),
        Err(fault) => Ok((format!(in alloc; "refused {fault}")?, false)),
    }
}

fn show_image(
    alloc: Global,
    registry: &mut Registry,
    image: Option<Vec<u8>>,
) -> Result<String, AllocError> {
    match image {
        Some(image) => Ok(submitted(alloc, registry, &image)?.0),
        None => String::from_str(alloc, "no image"),
    }
}

// The text with each `#` replaced by a number.
fn numbered(alloc: Global, text: &str, number: u32) -> Result<String, AllocError> {
    let digits = format!(in alloc; "{number}")?;
    text.replace(alloc, "#", digits.as_str())
}

// The first answer and the last answer, and the number of refusals.
fn show_range(
    alloc: Global,
    registry: &mut Registry,
    from: u32,
    to: u32,
    text: &str,
) -> Result<String, AllocError> {
    let mut first = String::new(alloc);
    let mut last = String::new(alloc);
    let mut refused = 0u64;
    for number in from..to {
        let one = numbered(alloc, text, number)?;
        let Some(image) = image_of(alloc, one.as_str())? else {
            return String::from_str(alloc, "no image");
        };
        let (answer, is_number) = submitted(alloc, registry, &image)?;
        if !is_number {
            refused = refused.wrapping_add(1);
        }
        if number == from {
            first.push_str(answer.as_str())?;
        }
        last = answer;
    }
    format!(in alloc; "{first}, {last}, {refused} refused")
}

// The first and the last answer and the number of refusals, for a line `FROM TO TEXT`.
fn show_each(alloc: Global, registry: &mut Registry, words: &str) -> Result<String, AllocError> {
    let Some((from, rest)) = words.split_once(' ') else {
        return String::from_str(alloc, "a line without a range");
    };
    let Some((to, text)) = rest.split_once(' ') else {
        return String::from_str(alloc, "a line without a range");
    };
    match (from.parse::<u32>(), to.parse::<u32>()) {
        (Ok(from), Ok(to)) => show_range(alloc, registry, from, to, text),
        _ => String::from_str(alloc, "a range that is no numbers"),
    }
}

// The text of a program.
fn show_program(alloc: Global, registry: &Registry, id: &str) -> Result<String, AllocError> {
    let Ok(id) = id.parse::<u32>() else {
        return String::from_str(alloc, "a number that is none");
    };
    match registry.get(ProgId(id)) {
        Some(program) => {
            let lines = disassemble(alloc, program.code())?;
            lines.as_str().trim_end().replace(alloc, "\n", " / ")
        }
        None => String::from_str(alloc, "none"),
    }
}

/// The answer to a line.
pub fn show_submission(
    alloc: Global,
    registry: &mut Registry,
    line: &str,
) -> Result<String, AllocError> {
    match line.split_once(' ') {
        None if line == "counts" => {
            let (recent, recalls) = (registry.recent(), registry.recalls());
            format!(in alloc; "recent {recent}, recalls {recalls}")
        }
        None if line == "new" => String::from_str(alloc, "new"),
        Some(("submit", text)) => {
            let image = image_of(alloc, text)?;
            show_image(alloc, registry, image)
        }
        Some(("offer", word)) => {
            let image = read_bytes(alloc, word);
            show_image(alloc, registry, image)
        }
        Some(("each", words)) => show_each(alloc, registry, words),
        Some(("get", id)) => show_program(alloc, registry, id),
        _ => String::from_str(alloc, "a line of no kind"),
    }
}
