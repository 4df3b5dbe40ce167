//! Displays a fault as its name and, in brackets, the page number and the cause, if any.
use crate::OpenFault;
use std::error::Error;
use std::fmt;

impl fmt::Display for OpenFault {
    ghost use Rattle.std.specs.Prelude.{Some};
    ghost use Rattle.sdbm_files.specs.FaultText.{fault_text};

    ghost output = { λ fault. Some (fault_text fault) };

    fn fmt<W: fmt::Write>(&self, f: &mut fmt::Formatter<W>) -> fmt::Result {
        match self {
            OpenFault::PagLength => write!(f, "PagLength"),
            OpenFault::Page(number, fault) => write!(f, "Page({number}, {fault})"),
            OpenFault::Dir(fault) => write!(f, "Dir({fault})"),
            OpenFault::Misplaced(number) => write!(f, "Misplaced({number})"),
            OpenFault::NoMemory => write!(f, "NoMemory"),
        }
    }
}

impl Error for OpenFault {}
