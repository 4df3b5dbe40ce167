//! The text of a fault: its name, and its fields in parentheses.
ghost use Rattle.std.specs.Prelude.{◌≡◌};
ghost use Rattle.worker_pool.specs.FaultText.{refusal_text};

use crate::task::PoolFault;
use std::error::Error;
use std::fmt;
use store_cmd::Refusal;

impl fmt::Display for PoolFault {
    ghost use Rattle.std.specs.Prelude.{Some};
    ghost use Rattle.worker_pool.specs.FaultText.{fault_text};

    ghost output = { λ fault. Some (fault_text fault) };

    fn fmt<W: fmt::Write>(&self, f: &mut fmt::Formatter<W>) -> fmt::Result {
        match self {
            PoolFault::NoWorkers => write!(f, "NoWorkers"),
            PoolFault::NoProgram(task) => write!(f, "NoProgram({task})"),
            PoolFault::NoSession => write!(f, "NoSession"),
            PoolFault::NoThread(worker) => write!(f, "NoThread({worker})"),
            PoolFault::Refused(task, refusal) => {
                write!(f, "Refused({task}, {})", refusal_name(*refusal))
            }
            PoolFault::NoMemory => write!(f, "NoMemory"),
        }
    }
}

impl Error for PoolFault {}

fn refusal_name(refusal: Refusal) -> &'static str
    ensures { result.now ≡ refusal_text refusal }
{
    match refusal {
        Refusal::PairTooLarge => "PairTooLarge",
        Refusal::ArgTooLong => "ArgTooLong",
        Refusal::TrailFull => "TrailFull",
        Refusal::NoMemory => "NoMemory",
        Refusal::Strayed => "Strayed",
    }
}
