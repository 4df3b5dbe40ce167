//! The trait of subcommands.
ghost use Rattle.std.specs.Prelude.{◌≡◌, Bool, IfErr, IfOk, List, Option, false, is_some, ℕ};
ghost use Rattle.std.specs.declared.alloc.Global.{Global};
ghost use Rattle.dbm_script.specs.declared.notations.Notation.{Notation};
ghost use Rattle.dbm_reports.specs.declared.databases.Given.{Given};
ghost use Rattle.dbm_reports.specs.declared.report.Report.{Report};

use crate::databases::Given;
use crate::report::Report;
use dbm_script::Notation;
use std::alloc::Global;
use std::io::Read;

/// A subcommand with its arguments and options. `serve` is proved once for all subcommands.
pub trait Subcommand {
    /// The error of the subcommand.
    type Fault: Drop;

    // The possible reports, given the notation, the bytes of the files and standard input.
    ghost reports: { Self → Notation Global → Given → Option (List ℕ) → Report → Type 0 };

    // The condition of each fault.
    ghost causes: { Self → Notation Global → Given → Option (List ℕ) → Self.Fault → Type 0 };

    // True if the database is saved after the subcommand.
    ghost writes: { Self → Bool };

    // True if the subcommand reads standard input.
    ghost reads: { Self → Bool };

    /// Makes the report of the subcommand, before anything is written.
    ///
    /// # Errors
    /// The first fault: arguments are checked before files, and files before standard input.
    fn report<R: Read>(
        &self,
        alloc: Global,
        notation: &Notation<Global>,
        given: &Given,
        reader: &mut R,
    ) -> Result<Report, Self::Fault>
        ensures ok { IfOk result (reports self.now notation.now given.now (R.remaining reader.old)) }
        ensures fault { IfErr result (causes self.now notation.now given.now (R.remaining reader.old)) }
        ensures database { IfOk result (λ report. is_some report.database ≡ writes self.now) }
        ensures unread { reads self.now ≡ false → R.remaining reader.new ≡ R.remaining reader.old };
}
