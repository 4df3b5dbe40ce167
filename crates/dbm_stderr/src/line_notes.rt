//! Notes on the line ends of a script or a batch.

use dbm_messages::{Sentence, half_line_note, line_end_note};
use dbm_script::LineKind;

/// Makes the note on the first line that ends in CR. Returns `None` if there is no such line. A comment in a script may end in CR.
pub fn note_of_line_end(lines: LineKind, text: &[u8]) -> Option<Sentence<'static>> {
    for (at, line) in text.split(|byte| *byte == b'\n').enumerate() {
        let is_comment = lines == LineKind::OfScript && line.starts_with(b"#");
        if line.ends_with(b"\r") && !is_comment {
            return Some(line_end_note((at as u64).saturating_add(1)));
        }
    }
    None
}

/// Makes the note on the last line of a script or a batch that was run, if the line has no LF. A comment in a script needs no LF.
pub fn note_of_half_line(lines: LineKind, text: &[u8]) -> Option<Sentence<'static>> {
    let mut count = 0u64;
    let mut last = text;
    for line in text.split(|byte| *byte == b'\n') {
        count = count.saturating_add(1);
        last = line;
    }
    if last.is_empty() || (lines == LineKind::OfScript && last.starts_with(b"#")) {
        return None;
    }
    Some(half_line_note(count))
}
