//! The notes of a report.
ghost use Rattle.std.specs.Prelude.{◌≡◌, false};

use dbm_script::BadLines;

/// The notes of a report, for standard error. They are not part of the report's text, and no clause depends on them.
#[derive(Clone, Copy, Debug, PartialEq, Eq)]
pub struct Notes {
    /// The bad lines of a script.
    pub bad_lines: BadLines,
    /// The verifier refuses the program that was to run.
    pub refuses_program: bool,
}

impl Notes {
    /// No notes.
    pub fn none() -> Notes
        ensures { result ≡ record { bad_lines = record { first = 0; count = 0 }; refuses_program = false } }
    {
        Notes {
            bad_lines: BadLines::none(),
            refuses_program: false,
        }
    }

    /// A note about bad lines alone.
    pub fn of_lines(bad_lines: BadLines) -> Notes
        ensures { result ≡ record { bad_lines = bad_lines; refuses_program = false } }
    {
        Notes {
            bad_lines,
            refuses_program: false,
        }
    }
}
