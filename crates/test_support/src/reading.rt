//! Standard input, as a text.

use std::io;

/// All lines of standard input, each with a line feed.
pub fn read_all(rt: &HostRuntime) -> io::Result<String> {
    let mut text = String::new(rt.alloc());
    for line in rt.lines(rt.alloc()) {
        text.push_str(line?.as_str())?;
        text.push_str("\n")?;
    }
    Ok(text)
}
