//! A ghost log of a session's calls to its host. Only contracts read the log.
ghost use Rattle.std.specs.Prelude.{◌≡◌, ◌++◌, ◌∷◌, [], List};
ghost use Rattle.std.specs.Coded.{coded_list};
ghost use base.Fml.{ftrue};
ghost use Rattle.dbm_session.specs.HostCalls.{DidSave, GaveTime, HostCall};
ghost use Rattle.dbm_shell.specs.CallCodes.{coded_call};

use dbm_files::Receipt;
use dbm_script::TimeOfDay;
use std::marker::Model;

/// The saves of a host and the times that it returned, in order. This is a ghost value: it has no bytes at run time and owns nothing.
pub(crate) struct HostLog {
    pub(crate) ghost calls: { List HostCall } by { coded_list coded_call },
}

impl Model for HostLog {
    ghost also_owns = { λ _. ftrue };
}

impl HostLog {
    /// An empty log.
    pub(crate) fn none() -> HostLog
        ensures { result.calls ≡ [] }
    {
        HostLog {}
    }

    /// Returns the log with this time appended.
    pub(crate) fn with_time(&self, time: &Option<TimeOfDay>) -> HostLog
        ensures { result.calls ≡ self.now.calls ++ GaveTime time.now ∷ [] }
    {
        let _ = time;
        HostLog {}
    }

    /// Returns the log with the save of a receipt appended.
    pub(crate) fn with_save(&self, receipt: &Receipt) -> HostLog
        ensures { result.calls ≡ self.now.calls ++ DidSave receipt.now ∷ [] }
    {
        let _ = receipt;
        HostLog {}
    }
}

impl Drop for HostLog {
    fn drop(self) {
        let HostLog {} = self;
    }
}
