//! Splits texts without copying.
ghost use Rattle.std.specs.Prelude.{◌≡◌, ◌==◌, ◌<◌, ◌∷◌, IfSome, length, position};
ghost use Rattle.dbm_script.specs.Pieces.{pieces_of, pieces_left};

use memchr::memchr;

/// Splits a text at the first byte equal to `end`. Returns the text before and after that byte; without that byte, the whole text and
/// `None`.
pub fn first_piece(end: u8, text: &[u8]) -> (&[u8], Option<&[u8]>)
    ensures { pieces_of end text.now ≡ result.0.now ∷ pieces_left end result.1 }
{
    match memchr(end, text) {
        Some(at) => (&text[..at], Some(&text[at + 1..])),
        None => (text, None),
    }
}

/// Like `first_piece`, byte by byte: faster if the piece is short.
#[inline(always)]
pub(crate) fn first_short_piece(end: u8, text: &[u8]) -> (&[u8], Option<&[u8]>)
    ensures { pieces_of end text.now ≡ result.0.now ∷ pieces_left end result.1 }
{
    match place_of(end, text) {
        Some(at) => (&text[..at], Some(&text[at + 1..])),
        None => (text, None),
    }
}

// Returns the index of the first `byte` in a text.
#[inline(always)]
fn place_of(byte: u8, text: &[u8]) -> Option<usize>
    ensures place { result ≡ position (λ b. b == byte) text.now }
    ensures within { IfSome result (λ at. at < length text.now) }
{
    text.iter().position(|b| *b == byte)
}
