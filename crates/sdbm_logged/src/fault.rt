// The reasons why a log could not be opened.
ghost use Rattle.std.specs.Prelude.{◌≡◌};
ghost use Rattle.sdbm_logged.specs.declared.fault.OpenFault.TheVariants as fault;

use sdbm_log::LogFault;
use sdbm_saves::DiskError;

/// The reason why a log could not be opened.
#[derive(Clone, Copy, Debug, PartialEq, Eq)]
pub enum OpenFault {
    /// The files cannot be recovered, or allocation fails. No call was made.
    Files(LogFault),
    /// A call of the disk failed, or the bytes that it writes could not be allocated. Open the files again.
    Disk(DiskError),
}

impl From<LogFault> for OpenFault {
    ghost from_gives = { λ why e. e ≡ fault.Files why };

    fn from(why: LogFault) -> Self {
        OpenFault::Files(why)
    }
}

impl From<DiskError> for OpenFault {
    ghost from_gives = { λ why e. e ≡ fault.Disk why };

    fn from(why: DiskError) -> Self {
        OpenFault::Disk(why)
    }
}
