//! The requests of command lines, their refusals, and the texts of help.

use dbm_args::{Access, TimeUnit};
use dbm_command_line::{Ask, Request, ToolFault, Wish, read_words};
use std::alloc::{AllocError, Global};
use std::fmt::Write;

/// Unescapes a text that is written on one line.
pub fn unescaped(global: Global, text: &str) -> Result<String, AllocError> {
    let text = text.replace(global, "\\n", "\n")?;
    let text = text.as_str().replace(global, "\\r", "\r")?;
    text.as_str().replace(global, "\\t", "\t")
}

// The words of a line. An empty line has no words.
fn words_of(global: Global, line: &str) -> Option<Vec<&str>> {
    let mut words = Vec::new(global);
    if line.is_empty() {
        return Some(words);
    }
    for word in line.split(' ') {
        words.push(word).ok()?;
    }
    Some(words)
}

fn asked<'a>(global: Global, words: &'a [&'a str]) -> Result<Request<'a>, ToolFault> {
    read_words(global, words)
}

// The subcommand of a request, with its words and options.
fn asked_text(global: Global, wish: &Wish<'_>) -> Result<String, AllocError> {
    match wish {
        Wish::Fetch(fetch) => format!(in global; "{fetch:?}"),
        Wish::Store(store) => format!(in global; "{store:?}"),
        Wish::Delete(delete) => format!(in global; "{delete:?}"),
        Wish::Rename(rename) => format!(in global; "{rename:?}"),
        Wish::Run(run) => format!(in global; "{run:?}"),
        Wish::Incr(incr) => format!(in global; "{incr:?}"),
        Wish::Each(each) => format!(in global; "{each:?}"),
        Wish::Batch(batch) => format!(in global; "{batch:?}"),
        Wish::List(list) => format!(in global; "{list:?}"),
        Wish::Keys(keys) => format!(in global; "{keys:?}"),
        Wish::Count(count) => format!(in global; "{count:?}"),
        Wish::Check(check) => format!(in global; "{check:?}"),
        Wish::Stats(stats) => format!(in global; "{stats:?}"),
        Wish::Script(script) => format!(in global; "{script:?}"),
        Wish::Widen(widen) => format!(in global; "{widen:?}"),
        Wish::Compact(compact) => format!(in global; "{compact:?}"),
        Wish::Dump(dump) => format!(in global; "{dump:?}"),
        Wish::Load(load) => format!(in global; "{load:?}"),
        Wish::Asm(asm) => format!(in global; "{asm:?}"),
        Wish::Disasm(disasm) => format!(in global; "{disasm:?}"),
        Wish::Verify(verify) => format!(in global; "{verify:?}"),
    }
}

fn wish_text(global: Global, wish: &Wish<'_>) -> Option<String> {
    let mut out = asked_text(global, wish).ok()?;
    write!(
        out,
        " base {:?} file {:?} writes {}",
        wish.head().base,
        wish.head().file,
        wish.head().writes
    )
    .ok()?;
    Some(out)
}

// The request as text, and how its database is accessed if the words say so.
fn request_text(global: Global, request: &Request<'_>) -> Option<String> {
    let mut out = match &request.ask {
        Ask::Wish(wish) => wish_text(global, wish)?,
        Ask::Session(session) => format!(in global; "{session:?}").ok()?,
        Ask::Backup(backup) => format!(in global; "{backup:?}").ok()?,
        Ask::Programs(programs) => format!(in global; "{programs:?}").ok()?,
    };
    let Access {
        timeout,
        must_exist,
        quick,
        verbose,
        insist,
    } = request.access;
    if let Some(seconds) = timeout {
        write!(out, " timeout {seconds}").ok()?;
    }
    if must_exist {
        out.push_str(" must exist").ok()?;
    }
    if quick {
        out.push_str(" quick").ok()?;
    }
    if verbose {
        out.push_str(" verbose").ok()?;
    }
    if insist {
        out.push_str(" insist").ok()?;
    }
    Some(out)
}

fn refused_text(global: Global, fault: &ToolFault) -> Option<String> {
    if fault.is_answer() {
        return String::from_str(global, "answered").ok();
    }
    match fault {
        ToolFault::Refused(error) => format!(in global; "refused {:?}", error.kind()).ok(),
        _ => format!(in global; "refused {fault}").ok(),
    }
}

fn words_text(global: Global, rest: &str) -> Option<String> {
    let words = words_of(global, rest)?;
    match asked(global, words.as_slice()) {
        Ok(request) => request_text(global, &request),
        Err(fault) => refused_text(global, &fault),
    }
}

// The text that answers a request for help or the version.
fn help_text(global: Global, rest: &str) -> Option<String> {
    let words = words_of(global, rest)?;
    match asked(global, words.as_slice()) {
        Err(fault) if fault.is_answer() => format!(in global; "{fault}").ok(),
        _ => String::from_str(global, "none").ok(),
    }
}

fn part_text(global: Global, rest: &str) -> Option<String> {
    let (part, words) = rest.split_once(" | ")?;
    let part = unescaped(global, part).ok()?;
    let help = help_text(global, words)?;
    let is_there = help.as_str().contains(part.as_str());
    String::from_str(global, if is_there { "there" } else { "not there" }).ok()
}

// The request with a time, if it needs the time in this unit.
fn time_text(global: Global, rest: &str) -> Option<String> {
    let (unit, words) = rest.split_once(' ')?;
    let words = words_of(global, words)?;
    let Ask::Wish(wish) = asked(global, words.as_slice()).ok()?.ask else {
        return String::from_str(global, "none").ok();
    };
    match wish.time_asked() {
        Some(TimeUnit::Seconds) if unit == "seconds" => (),
        Some(TimeUnit::Milliseconds) if unit == "milliseconds" => (),
        _ => return String::from_str(global, "none").ok(),
    }
    wish_text(global, &wish.with_time("1700000000"))
}

fn faults_text(global: Global) -> Option<String> {
    let memory = ToolFault::NoMemory;
    let word = ToolFault::NoWord;
    let answers = (memory.is_answer(), word.is_answer());
    format!(in global; "{memory} {} {word} {}", answers.0, answers.1).ok()
}

/// The answer to a line of this module. Returns `None` for any other line.
pub fn word_line(global: Global, word: &str, rest: &str) -> Option<String> {
    match word {
        "words" => words_text(global, rest),
        "help" => help_text(global, rest),
        "part" => part_text(global, rest),
        "time" => time_text(global, rest),
        "faults" => faults_text(global),
        _ => None,
    }
}
