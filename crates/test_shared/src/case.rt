//! A case as its lines describe it.

use crate::gate::Manner;

/// A case: how to open its store, its calls, and the lines after `end`, if any.
#[derive(Clone, Copy)]
pub struct Case<'t> {
    pub who: &'t str,
    /// true if the store is opened over the database of the last closed store, not over an empty one
    pub kept: bool,
    pub limit: usize,
    pub manner: Manner,
    pub calls: &'t str,
    pub closing: Option<&'t str>,
}

fn read_manner(words: &str) -> Option<Manner> {
    match words {
        "free" => return Some(Manner::Free),
        "passing" => return Some(Manner::Passing),
        "first" => return Some(Manner::First),
        "refusing" => return Some(Manner::Refusing),
        "meeting" => return Some(Manner::Meeting),
        _ => {}
    }
    let (word, count) = words.split_once(' ')?;
    let count = count.parse::<u64>().ok()?;
    match word {
        "keeping" => Some(Manner::Keeping(count)),
        "dropping" => Some(Manner::Dropping(count)),
        _ => None,
    }
}

/// Reads the lines of a case after its title.
pub fn read_case(lines: &str) -> Option<Case<'_>> {
    let (front, closing) = match lines.split_once("\nend") {
        Some((front, closing)) => (front, Some(closing.trim_start())),
        None => (lines, None),
    };
    let (head, calls) = front.split_once('\n').unwrap_or((front, ""));
    let (who, rest) = head.split_once(' ')?;
    let (from, rest) = rest.split_once(' ')?;
    let (limit, manner) = rest.split_once(' ')?;
    if !matches!(who, "turns" | "lean" | "apart" | "beside") {
        return None;
    }
    let kept = match from {
        "empty" => false,
        "kept" => true,
        _ => return None,
    };
    Some(Case {
        who,
        kept,
        limit: limit.parse::<usize>().ok()?,
        manner: read_manner(manner)?,
        calls,
        closing,
    })
}
