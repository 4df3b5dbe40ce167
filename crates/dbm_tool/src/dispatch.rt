//! Selects the subcommand to serve.
ghost use Rattle.std.specs.Prelude.{◌≡◌};
ghost use Rattle.dbm_command_line.specs.Wishes.{writes_files};
ghost use Rattle.dbm_messages.specs.declared.fault.ServeFault.{ServeFault};
ghost use Rattle.dbm_tool.specs.Outcomes.{IsOutcome, outcome_by};
ghost use Rattle.dbm_tool.specs.Services.{reads_input, service_for, service_in};

use dbm_batches::serve_batch;
use dbm_command_line::Wish;
use dbm_dump::CopyFault;
use dbm_messages::ServeFault;
use dbm_reports::{Given, Outcome, ReportFault, Unserved, notation_by, serve};
use dbm_script::Notation;
use std::alloc::Global;
use std::io::{Read, Write};
use std::sync::Wait;
use std::thread::Threads;

/// Serves a request in the notation of its options.
pub fn serve_wish<T: Threads + Wait + Sync, R: Read, W: Write>(
    rt: &T,
    alloc: Global,
    wish: Wish<'_>,
    given: &Given,
    reader: &mut R,
    writer: &mut W,
) -> Result<Outcome, ServeFault>
    ensures { IsOutcome (service_for wish.entry given.now (R.remaining reader.old)) (writes_files wish.entry) (reads_input wish.entry) (R.remaining reader.old) (R.remaining reader.new) (W.contents writer.old) (W.contents writer.new) result }
{
    let head = wish.head();
    match notation_by(alloc, head.notation) {
        Ok(notation) => serve_in(rt, alloc, &notation, wish, given, reader, writer),
        Err(fault) => Err(ServeFault::from(fault)),
    }
}

// Serves a request, given the notation of its bytes.
fn serve_in<T: Threads + Wait + Sync, R: Read, W: Write>(
    rt: &T,
    alloc: Global,
    n: &Notation<Global>,
    wish: Wish<'_>,
    given: &Given,
    reader: &mut R,
    writer: &mut W,
) -> Result<Outcome, ServeFault>
    ensures { IsOutcome (service_in n.now wish.entry given.now (R.remaining reader.old)) (writes_files wish.entry) (reads_input wish.entry) (R.remaining reader.old) (R.remaining reader.new) (W.contents writer.old) (W.contents writer.new) result }
{
    match wish {
        Wish::Fetch(fetch) => outcome_of(serve(alloc, n, &fetch, given, reader, writer)),
        Wish::Store(store) => outcome_of(serve(alloc, n, &store, given, reader, writer)),
        Wish::Delete(delete) => outcome_of(serve(alloc, n, &delete, given, reader, writer)),
        Wish::Rename(rename) => outcome_of(serve(alloc, n, &rename, given, reader, writer)),
        Wish::Run(asked) => outcome_of(serve(alloc, n, &asked, given, reader, writer)),
        Wish::Incr(incr) => outcome_of(serve(alloc, n, &incr, given, reader, writer)),
        Wish::Each(each) => outcome_of(serve(alloc, n, &each, given, reader, writer)),
        Wish::Batch(asked) => outcome_of(serve_batch(rt, alloc, n, asked, given, reader, writer)),
        Wish::List(list) => outcome_of(list.serve(alloc, n, given, writer)),
        Wish::Keys(keys) => outcome_of(keys.serve(alloc, n, given, writer)),
        Wish::Count(count) => outcome_of(serve(alloc, n, &count, given, reader, writer)),
        Wish::Check(check) => outcome_of(serve(alloc, n, &check, given, reader, writer)),
        Wish::Stats(stats) => outcome_of(serve(alloc, n, &stats, given, reader, writer)),
        Wish::Script(script) => outcome_of(serve(alloc, n, &script, given, reader, writer)),
        Wish::Widen(widen) => outcome_of(serve(alloc, n, &widen, given, reader, writer)),
        Wish::Compact(compact) => outcome_of(serve(alloc, n, &compact, given, reader, writer)),
        Wish::Dump(dump) => outcome_of(serve(alloc, n, &dump, given, reader, writer)),
        Wish::Load(load) => outcome_of(serve(alloc, n, &load, given, reader, writer)),
        Wish::Asm(asm) => outcome_of(serve(alloc, n, &asm, given, reader, writer)),
        Wish::Disasm(disasm) => outcome_of(serve(alloc, n, &disasm, given, reader, writer)),
        Wish::Verify(verify) => outcome_of(serve(alloc, n, &verify, given, reader, writer)),
    }
}

// A fault of a subcommand, which converts into a fault of the program.
trait SubcommandFault: Drop {
    // The fault of the program.
    ghost as_fault: { Self → ServeFault };

    fn into_fault(self) -> ServeFault
        ensures { result ≡ as_fault self };
}

impl SubcommandFault for ReportFault {
    ghost use Rattle.dbm_messages.specs.Faults.{report_fault};

    ghost as_fault = { report_fault };

    fn into_fault(self) -> ServeFault {
        ServeFault::from(self)
    }
}

impl SubcommandFault for CopyFault {
    ghost use Rattle.dbm_messages.specs.Faults.{copy_fault};

    ghost as_fault = { copy_fault };

    fn into_fault(self) -> ServeFault {
        ServeFault::from(self)
    }
}

impl SubcommandFault for ServeFault {
    ghost as_fault = { λ fault. fault };

    fn into_fault(self) -> ServeFault {
        self
    }
}

// Converts the fault of a subcommand into a fault of the program.
fn outcome_of<F: SubcommandFault>(came: Result<Outcome, Unserved<F>>) -> Result<Outcome, ServeFault>
    ensures { result ≡ outcome_by F.as_fault came }
{
    match came {
        Ok(outcome) => Ok(outcome),
        Err(Unserved::Unreported(fault)) => Err(fault.into_fault()),
        Err(Unserved::Write) => Err(ServeFault::Write),
        Err(Unserved::TooLong) => Err(ServeFault::FileTooLong),
    }
}
