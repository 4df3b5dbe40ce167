// Finds the part of a block that differs from the old bytes.
ghost use Rattle.std.specs.Prelude.{◌≡◌, ◌<◌, ◌≤◌, ◌^◌, ◌+◌, ◌*◌, ◌↔◌, ℕ, length, get_or, All, IsTrue};
ghost use Rattle.sdbm_saves.specs.Drafts.{AreOutside};

use crate::blocks::reads_as;

// The length in bytes of a part of a block. A change consists of whole parts, so it may also contain bytes that do not differ.
const PART: usize = 32;

/// A range of bytes in a block.
#[derive(Clone, Copy)]
pub(crate) struct Span {
    pub(crate) start: usize,
    pub(crate) end: usize,
}

/// Returns the span of a block that a change has to write, from the first part that differs to the last. If all old bytes of this span are
/// zeros, the result is the whole block. A change whose old bytes are all zeros therefore covers a whole block, which may be a hole. Bytes
/// past the end of `known` are zeros.
pub(crate) fn changed_span(known: &[u8], block: &[u8]) -> Span
    requires short { length block.now < 2 ^ 32 }
    ensures outside { AreOutside known.now block.now result.start result.end (length block.now) }
    ensures order { result.start ≤ result.end }
{
    let span = differing_span(known, block);
    if span.start > span.end || is_zero_in(known, span) {
        return Span {
            start: 0,
            end: block.len(),
        };
    }
    span
}

// Returns the span from the first part that differs to the last.
fn differing_span(known: &[u8], block: &[u8]) -> Span
    requires short { length block.now < 2 ^ 32 }
    ensures { AreOutside known.now block.now result.start result.end (length block.now) }
{
    let mut span = Span { start: 0, end: 0 };
    for index in 0..block.len().div_ceil(PART) {
        span = with_part(known, block, span, index * PART);
    }
    span
}

// Extends the span by the part at `at` if this part differs.
fn with_part(known: &[u8], block: &[u8], span: Span, at: usize) -> Span
    requires inside { at < length block.now }
    requires short { length block.now < 2 ^ 32 }
    requires outside { AreOutside known.now block.now span.start span.end at }
    ensures { AreOutside known.now block.now result.start result.end (at + 32) }
{
    let stop = block.len().min(at + PART);
    if reads_as(known, at, &block[at..stop]) {
        return span;
    }
    if span.end == 0 {
        return Span {
            start: at,
            end: stop,
        };
    }
    Span {
        start: span.start,
        end: stop,
    }
}

// Returns `true` if all known bytes of the span are zeros.
fn is_zero_in(known: &[u8], span: Span) -> bool
    requires order { span.start ≤ span.end }
{
    let (start, end) = (span.start.min(known.len()), span.end.min(known.len()));
    known[start..end].iter().all(|byte| *byte == 0)
}
