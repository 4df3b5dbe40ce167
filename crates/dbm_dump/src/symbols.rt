//! Incomplete base64 text, and the lines that may follow it.
ghost use Rattle.std.specs.Prelude.{◌≡◌};
ghost use Rattle.std.specs.List.{list_all};
ghost use Rattle.dbm_dump.specs.Symbols.{is_open, is_symbol, without_pad};

/// Returns `true` if `line` may follow `text`, and more base64 may follow both: `text` does not end with `=`, and `line` has only symbols.
/// As an exception, `line` may end with one `=` that is the third character of its group of four.
pub fn is_open(text: &[u8], line: &[u8]) -> bool
    ensures { result ≡ is_open text.now line.now }
{
    if text.ends_with(b"=") {
        return false;
    }
    are_symbols(without_pad(text.len() + line.len(), line))
}

// Removes an `=` at the end of a line if it is the third character of its group of four. `count` is the length of the text with the line.
fn without_pad(count: usize, line: &[u8]) -> &[u8]
    ensures { result.now ≡ without_pad count line.now }
{
    if count % 4 == 3 {
        return line.strip_suffix(b"=").unwrap_or(line);
    }
    line
}

fn are_symbols(line: &[u8]) -> bool
    ensures { result ≡ list_all is_symbol line.now }
{
    line.iter().all(|byte| is_symbol(*byte))
}

fn is_symbol(byte: u8) -> bool
    ensures { result ≡ is_symbol byte }
{
    (byte as char).is_ascii_alphanumeric() || byte == b'+' || byte == b'/'
}
