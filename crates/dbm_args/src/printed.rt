//! Prints arguments and names so that no character moves the cursor of a terminal, hides a letter or reverses the direction of text.

use std::fmt;

/// Returns `true` if a character prints as itself: it is not a control character, has a visible shape, and does not set the direction of
/// text.
pub fn is_plain(c: char) -> bool {
    if c.is_ascii() {
        return !c.is_control();
    }
    c.escape_debug().next() == Some(c)
}

/// A text of lines. LF and plain characters print as themselves, and any other character as an escape such as `\u{1b}`.
#[derive(Clone, Copy)]
pub struct Printed<'a>(pub &'a str);

impl<'a> fmt::Display for Printed<'a> {
    fn fmt<W: fmt::Write>(&self, f: &mut fmt::Formatter<W>) -> fmt::Result {
        for c in self.0.chars() {
            if c == '\n' || is_plain(c) {
                f.write_char(c)?;
            } else {
                for escaped in c.escape_debug() {
                    f.write_char(escaped)?;
                }
            }
        }
        Ok(())
    }
}
