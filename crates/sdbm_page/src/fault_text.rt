//! Displays a fault as its name.
use crate::PageFault;
use std::error::Error;
use std::fmt;

impl fmt::Display for PageFault {
    ghost use Rattle.std.specs.Prelude.{Some};
    ghost use Rattle.sdbm_page.specs.FaultText.{fault_text};

    ghost output = { λ fault. Some (fault_text fault) };

    fn fmt<W: fmt::Write>(&self, f: &mut fmt::Formatter<W>) -> fmt::Result {
        match self {
            PageFault::Count => write!(f, "Count"),
            PageFault::Offsets => write!(f, "Offsets"),
            PageFault::DoubleKey => write!(f, "DoubleKey"),
            PageFault::NoMemory => write!(f, "NoMemory"),
        }
    }
}

impl Error for PageFault {}
