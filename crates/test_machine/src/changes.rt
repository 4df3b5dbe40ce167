//! All changes of one byte of an image, and runs of the changed images on records of several lengths.

use crate::both::is_alike;
use crate::lines::UNREAD;
use bpf_asm::assemble;
use bpf_helpers::Env;
use bpf_insn::{decode, encode};
use bpf_verify::{Verified, verify};
use std::alloc::{AllocError, Global};

// The lengths of the records. All their bytes are zeros.
const LENGTHS: [usize; 5] = [0, 7, 8, 1008, 8008];

// The numbers of images with each result.
#[derive(Clone, Copy)]
struct Changes {
    // cannot be decoded
    undecoded: u64,
    // decoded, but not accepted
    refused: u64,
    // accepted, and every run ends within the program's length and is the same on both machines
    alike: u64,
    unlike: u64,
}

// Returns `true` if both machines give the same answer for each record, within the program's length.
fn is_alike_on_all(alloc: Global, program: &Verified, zeros: &[u8]) -> Result<bool, AllocError> {
    let env = Env {
        now: 5,
        present: true,
        who: 2,
    };
    for length in LENGTHS {
        if length > zeros.len() {
            return Ok(false);
        }
        if !is_alike(alloc, program, &env, &zeros[..length], &[])? {
            return Ok(false);
        }
    }
    Ok(true)
}

// Counts an image by its result.
fn count_image(
    alloc: Global,
    image: &[u8],
    zeros: &[u8],
    changes: &mut Changes,
) -> Result<(), AllocError> {
    let Ok(code) = decode(alloc, image) else {
        changes.undecoded = changes.undecoded.wrapping_add(1);
        return Ok(());
    };
    let Ok(program) = verify(alloc, code) else {
        changes.refused = changes.refused.wrapping_add(1);
        return Ok(());
    };
    if is_alike_on_all(alloc, &program, zeros)? {
        changes.alike = changes.alike.wrapping_add(1);
    } else {
        changes.unlike = changes.unlike.wrapping_add(1);
    }
    Ok(())
}

// Counts the images with every other value of one byte.
fn count_byte(
    alloc: Global,
    image: &mut Vec<u8>,
    at: usize,
    zeros: &[u8],
    changes: &mut Changes,
) -> Result<(), AllocError> {
    if at >= image.len() {
        return Ok(());
    }
    let old = image[at];
    for turn in 1..=255u8 {
        image[at] = old ^ turn;
        count_image(alloc, image, zeros, changes)?;
        if at >= image.len() {
            return Ok(());
        }
    }
    image[at] = old;
    Ok(())
}

// Reports the results of all changes of one byte of a text's image.
fn changes_text(alloc: Global, text: &str) -> Option<String> {
    let text = text.replace(alloc, " / ", "\n").ok()?;
    let code = assemble(alloc, text.as_str()).ok()?;
    let mut image = encode(alloc, &code).ok()?;
    let zeros = vec![in alloc; 0u8; 8008].ok()?;
    let mut changes = Changes {
        undecoded: 0,
        refused: 0,
        alike: 0,
        unlike: 0,
    };
    for at in 0..image.len() {
        count_byte(alloc, &mut image, at, &zeros, &mut changes).ok()?;
    }
    let Changes {
        undecoded,
        refused,
        alike,
        unlike,
    } = changes;
    format!(in alloc;
        "no image {undecoded}, refused {refused}, alike {alike}, unlike {unlike}"
    ).ok()
}

/// Reports the results of all changes of one byte of a text's image, or that the text cannot be read.
pub fn show_changes(alloc: Global, text: &str) -> Result<String, AllocError> {
    match changes_text(alloc, text) {
        Some(said) => Ok(said),
        None => String::from_str(alloc, UNREAD),
    }
}
