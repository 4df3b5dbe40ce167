//! The text of a fault: its name, and the session's number in parentheses if the fault has one.
use crate::close::CloseFault;
use std::error::Error;
use std::fmt;

impl fmt::Display for CloseFault {
    ghost use Rattle.std.specs.Prelude.{Some};
    ghost use Rattle.store_shared.specs.FaultText.{fault_text};

    ghost output = { λ fault. Some (fault_text fault) };

    fn fmt<W: fmt::Write>(&self, f: &mut fmt::Formatter<W>) -> fmt::Result {
        match self {
            CloseFault::Stranger(session) => write!(f, "Stranger({session})"),
            CloseFault::Double(session) => write!(f, "Double({session})"),
            CloseFault::Missing(session) => write!(f, "Missing({session})"),
            CloseFault::Torn(session) => write!(f, "Torn({session})"),
            CloseFault::Opening => write!(f, "Opening"),
        }
    }
}

impl Error for CloseFault {}
