//! The parts of a request that notes and sentences show.

use dbm_args::Words;
use dbm_places::RunPlace;
use dbm_script::LineKind;

/// The parts of a request that notes and sentences show. This type does not depend on `Wish`, so this crate is not checked again when
/// `Wish` changes.
#[derive(Clone, Copy)]
pub struct DiagnosticContext<'a> {
    /// The files of the request.
    pub place: RunPlace<'a>,
    /// The arguments that a sentence may show.
    pub words: Words<'a>,
    /// The kind of lines on standard input, if it is a script or a batch.
    pub lines: Option<LineKind>,
}
