//! The errors of `dump` and `load`.
ghost use Rattle.std.specs.Prelude.{◌≡◌};
ghost use Rattle.dbm_dump.specs.declared.copy_fault.CopyFault.TheVariants.{Report};
ghost use Rattle.dbm_reports.specs.declared.fault.ReportFault.TheVariants.{NoMemory};

use crate::DumpFault;
use dbm_reports::ReportFault;
use std::alloc::AllocError;

/// The reason why `dump` or `load` failed.
#[derive(Clone, Copy)]
pub enum CopyFault {
    /// A fault that other subcommands have too.
    Report(ReportFault),
    /// A fault of the dump, except `Read` and `NoMemory`: both are a `Report`.
    Dump(DumpFault),
}

impl From<AllocError> for CopyFault {
    ghost from_gives = { λ _ fault. fault ≡ Report NoMemory };

    fn from(_error: AllocError) -> CopyFault {
        CopyFault::Report(ReportFault::NoMemory)
    }
}

impl From<ReportFault> for CopyFault {
    ghost from_gives = { λ reason fault. fault ≡ Report reason };

    fn from(fault: ReportFault) -> CopyFault {
        CopyFault::Report(fault)
    }
}

impl From<DumpFault> for CopyFault {
    ghost use Rattle.dbm_dump.specs.Causes.{dump_fault};

    ghost from_gives = { λ reason fault. fault ≡ dump_fault reason };

    fn from(fault: DumpFault) -> CopyFault {
        match fault {
            DumpFault::Read => CopyFault::Report(ReportFault::Read),
            DumpFault::NoMemory => CopyFault::Report(ReportFault::NoMemory),
            fault => CopyFault::Dump(fault),
        }
    }
}
