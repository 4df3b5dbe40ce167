//! The notation that the options select.
ghost use Rattle.std.specs.Prelude.{◌≡◌, IfErr, IfOk, None, Some};
ghost use Rattle.dbm_reports.specs.Causes.{IsCaused};
ghost use Rattle.dbm_reports.specs.Notations.{notation_by};
ghost use Rattle.dbm_reports.specs.Known.{layout_causes};

use crate::fault::ReportFault;
use byte_text::read_layout;
use dbm_args::NotationOptions;
use dbm_script::Notation;
use std::alloc::Global;

/// Returns the notation that `--text` and `--as` select, or hex without these options.
///
/// # Errors
/// `BadLayout` if the layout is invalid, and `NoMemory` if allocation fails.
pub fn notation_by(
    alloc: Global,
    options: NotationOptions<'_>,
) -> Result<Notation<Global>, ReportFault>
    ensures ok { IfOk result (λ notation. notation_by options.entry.text options.entry.layout ≡ Some notation) }
    ensures fault { IfErr result (IsCaused (layout_causes (notation_by options.entry.text options.entry.layout))) }
{
    let Some(layout) = options.layout else {
        return Ok(plain_notation(options.text));
    };
    match read_layout(alloc, layout.as_bytes())? {
        Some(layout) => Ok(Notation::Layout(layout)),
        None => Err(ReportFault::BadLayout),
    }
}

// Returns the notation if there is no layout.
fn plain_notation(text: bool) -> Notation<Global>
    ensures { notation_by text None ≡ Some result }
{
    if text {
        return Notation::Text;
    }
    Notation::Hex
}
