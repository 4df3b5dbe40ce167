//! Bytes as text.

use crate::words::unescaped;
use byte_text::{Layout, read_layout, read_text, show_by, show_text};
use dbm_script::{Notation, run_lines};
use sdbm_addr::{KeyBytes, PageSize};
use sdbm_files::Image;
use std::alloc::Global;

fn bytes_in(global: Global, word: &str) -> Option<Vec<u8>> {
    if word == "." {
        return Some(Vec::new(global));
    }
    hex::decode(global, word).ok()
}

fn read_line(global: Global, word: &str) -> Option<String> {
    match read_text(global, word.as_bytes()).ok()? {
        Some(bytes) if bytes.is_empty() => String::from_str(global, ".").ok(),
        Some(bytes) => hex::encode(global, bytes.as_slice()).ok(),
        None => String::from_str(global, "none").ok(),
    }
}

// Shows a text, and `back` if it is read as these bytes.
fn told(global: Global, text: &[u8], bytes: &[u8]) -> Option<String> {
    let read = read_text(global, text).ok()??;
    let back = if read.as_slice() == bytes {
        "back"
    } else {
        "another"
    };
    format!(in global; "{} {back}", str::from_utf8(text).ok()?).ok()
}

fn show_line(global: Global, word: &str) -> Option<String> {
    let bytes = bytes_in(global, word)?;
    let mut text = Vec::new(global);
    show_text(bytes.as_slice(), &mut text).ok()?;
    told(global, text.as_slice(), bytes.as_slice())
}

fn layout_in(global: Global, word: &str) -> Option<Option<Layout<Global>>> {
    read_layout(global, word.as_bytes()).ok()
}

fn by_line(global: Global, rest: &str) -> Option<String> {
    let (layout, word) = rest.split_once(' ')?;
    let bytes = bytes_in(global, word)?;
    let Some(layout) = layout_in(global, layout)? else {
        return String::from_str(global, "no layout").ok();
    };
    let mut text = Vec::new(global);
    show_by(global, &layout, bytes.as_slice(), &mut text).ok()?;
    told(global, text.as_slice(), bytes.as_slice())
}

fn notation_in(global: Global, word: &str) -> Option<Notation<Global>> {
    if word == "." {
        return Some(Notation::Text);
    }
    Some(Notation::Layout(layout_in(global, word)??))
}

// Runs a script on an empty database, and returns its answers.
fn text_line(global: Global, rest: &str) -> Option<String> {
    let (layout, script) = rest.split_once(' ')?;
    let notation = notation_in(global, layout)?;
    let script = unescaped(global, script).ok()?;
    let image = Image::empty(global, KeyBytes::Signed, PageSize::Small);
    let (_after, text) = run_lines(global, &notation, image, script.as_bytes(), u64::MAX).ok()?;
    let text = str::from_utf8(text.as_slice())
        .ok()?
        .replace(global, "\n", "|")
        .ok()?;
    format!(in global; "said {text}").ok()
}

/// The answer to a line of this module. Returns `None` for any other line.
pub fn notation_line(global: Global, word: &str, rest: &str) -> Option<String> {
    match word {
        "read" => read_line(global, rest),
        "show" => show_line(global, rest),
        "by" => by_line(global, rest),
        _ => text_line(global, rest),
    }
}
