//! Scripts and their answers.

use crate::heaps::heaps_text;
use crate::streams::{Collected, EmptyLines, answers, giving, run};
use crate::words::unescaped;
use dbm_script::{Notation, ScriptFault, run_lines};
use sdbm_addr::{KeyBytes, PageSize};
use sdbm_files::Image;
use std::alloc::Global;
use std::io::ErrorKind;

// The written bytes, on one line.
fn escaped(global: Global, text: &[u8]) -> Option<String> {
    let text = str::from_utf8(text).ok()?;
    text.replace(global, "\n", "\\n").ok()
}

// The outcome of a run, and the written bytes.
fn ended(global: Global, came: Result<usize, ScriptFault>, written: &[u8]) -> Option<String> {
    let text = escaped(global, written)?;
    match came {
        Ok(count) => format!(in global; "{count} said {text}").ok(),
        Err(fault) => format!(in global; "refused {fault:?} said {text}").ok(),
    }
}

fn again(global: Global, script: &[u8], read: usize, write: usize) -> Option<String> {
    let mut writer = Collected::new(global, write, None);
    let came = run(global, &mut giving(script, read), &mut writer);
    ended(global, came, writer.text.as_slice())
}

fn again_line(global: Global, script: &[u8], rest: &str) -> Option<String> {
    let (read, write) = rest.split_once(' ')?;
    again(
        global,
        script,
        read.parse::<usize>().ok()?,
        write.parse::<usize>().ok()?,
    )
}

fn script_text(global: Global, script: &mut String, rest: &str) -> Option<String> {
    *script = unescaped(global, rest).ok()?;
    let mut writer = Collected::new(global, 4096, None);
    let mut reader = giving(script.as_bytes(), 4096);
    let came = run(global, &mut reader, &mut writer);
    let text = escaped(global, writer.text.as_slice())?;
    match came {
        Ok(_) => format!(in global; "said {text}").ok(),
        Err(fault) => format!(in global; "refused {fault:?}").ok(),
    }
}

fn read_fault(rest: &str) -> Option<(usize, ErrorKind)> {
    let (word, count) = rest.split_once(' ')?;
    let kind = match word {
        "BrokenPipe" => ErrorKind::BrokenPipe,
        "Interrupted" => ErrorKind::Interrupted,
        _ => return None,
    };
    Some((count.parse::<usize>().ok()?, kind))
}

fn reader_line(global: Global, script: &[u8], rest: &str) -> Option<String> {
    let mut reader = giving(script, 1);
    reader.fails = Some(read_fault(rest)?);
    let mut writer = Collected::new(global, 4096, None);
    let came = run(global, &mut reader, &mut writer);
    ended(global, came, writer.text.as_slice())
}

fn writer_line(global: Global, script: &[u8], rest: &str) -> Option<String> {
    let mut writer = Collected::new(global, 1, Some(read_fault(rest)?));
    let came = run(global, &mut giving(script, 4096), &mut writer);
    let all = answers(global, script);
    let which = if all.as_slice().starts_with(writer.text.as_slice()) {
        "first"
    } else {
        "other"
    };
    match came {
        Ok(_) => String::from_str(global, "no fault").ok(),
        Err(fault) => format!(in global;
            "refused {fault:?} {} {which} bytes",
            writer.text.len()
        ).ok(),
    }
}

fn empty_lines(global: Global, count: &str) -> Option<String> {
    let left = count.parse::<usize>().ok()?;
    let mut writer = Collected::new(global, 4096, None);
    let came = run(global, &mut EmptyLines { left }, &mut writer);
    ended(global, came, writer.text.as_slice())
}

// Runs a script on an empty database. Returns its answers, or the fault if they have more than `most` bytes.
fn within_text(global: Global, script: &[u8], most: &str) -> Option<String> {
    let most = most.parse::<u64>().ok()?;
    let image = Image::empty(global, KeyBytes::Signed, PageSize::Small);
    match run_lines(global, &Notation::Hex, image, script, most) {
        Ok((_after, text)) => {
            let text = escaped(global, text.as_slice())?;
            format!(in global; "said {text}").ok()
        }
        Err(fault) => format!(in global; "refused {fault:?}").ok(),
    }
}

/// The answer to a line of this module. Returns `None` for any other line.
pub fn script_line(global: Global, script: &mut String, word: &str, rest: &str) -> Option<String> {
    match word {
        "script" => script_text(global, script, rest),
        "again" => again_line(global, script.as_bytes(), rest),
        "reader" => reader_line(global, script.as_bytes(), rest),
        "writer" => writer_line(global, script.as_bytes(), rest),
        "lines" => empty_lines(global, rest),
        "within" => within_text(global, script.as_bytes(), rest),
        "heaps" => heaps_text(global, script.as_bytes(), rest),
        _ => None,
    }
}
