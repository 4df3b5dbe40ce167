//! Displays a fault as its name.
use crate::DirFault;
use std::error::Error;
use std::fmt;

impl fmt::Display for DirFault {
    ghost use Rattle.std.specs.Prelude.{Some};
    ghost use Rattle.sdbm_dir.specs.FaultText.{fault_text};

    ghost output = { λ fault. Some (fault_text fault) };

    fn fmt<W: fmt::Write>(&self, f: &mut fmt::Formatter<W>) -> fmt::Result {
        match self {
            DirFault::TooDeep => write!(f, "TooDeep"),
            DirFault::DirOrphan => write!(f, "DirOrphan"),
            DirFault::NoMemory => write!(f, "NoMemory"),
        }
    }
}

impl Error for DirFault {}
