//! Makes a request from the matches of `clap`. The struct of each subcommand reads its own arguments.
ghost use Rattle.std.specs.Prelude.{◌≡◌, ◌≢◌, IfSome, IsNone, Some, codes, true};
ghost use Rattle.clap.specs.Words.{found_of, rows_of};
ghost use Rattle.dbm_command_line.specs.Wishes.{SubcommandAsks, WishAsks, lacks_word};

use crate::wish::{Ask, Wish};
use clap::ArgMatches;
use dbm_databases::{Check, Count, Keys, List, Script, Stats, Widen};
use dbm_dump::{Backup, Compact, Dump, Load};
use dbm_programs::{Asm, Disasm, Programs, Verify};
use dbm_records::{Batch, Delete, Each, Fetch, Incr, Rename, Run, Store};
use dbm_session::Session;

/// Reads the matches of the subcommand `name`. Returns `None` if a required argument is missing, or if no subcommand has this name.
pub fn asked<'a>(name: &str, matches: &ArgMatches<'a>) -> Option<Ask<'a>>
    ensures some { IfSome result (SubcommandAsks name.now (rows_of (found_of matches.now))) }
    ensures none { IsNone result → lacks_word (Some (name.now, rows_of (found_of matches.now))) ≡ true }
{
    match name {
        "session" => Some(Ask::Session(Session::matched(matches)?)),
        "backup" => Some(Ask::Backup(Backup::matched(matches)?)),
        "programs" => Some(Ask::Programs(Programs::matched(matches))),
        _ => Some(Ask::Wish(wished(name, matches)?)),
    }
}

// Reads the matches of any subcommand except `session`, `backup` and `programs`.
fn wished<'a>(name: &str, matches: &ArgMatches<'a>) -> Option<Wish<'a>>
    requires session { name.now ≢ codes "session" }
    requires backup { name.now ≢ codes "backup" }
    requires programs { name.now ≢ codes "programs" }
    ensures some { IfSome result (WishAsks name.now (rows_of (found_of matches.now))) }
    ensures none { IsNone result → lacks_word (Some (name.now, rows_of (found_of matches.now))) ≡ true }
{
    match name {
        "fetch" => Some(Wish::Fetch(Fetch::matched(matches)?)),
        "store" => Some(Wish::Store(Store::matched(matches)?)),
        "delete" => Some(Wish::Delete(Delete::matched(matches)?)),
        "rename" => Some(Wish::Rename(Rename::matched(matches)?)),
        "list" => Some(Wish::List(List::matched(matches)?)),
        "keys" => Some(Wish::Keys(Keys::matched(matches)?)),
        "count" => Some(Wish::Count(Count::matched(matches)?)),
        "check" => Some(Wish::Check(Check::matched(matches)?)),
        "stats" => Some(Wish::Stats(Stats::matched(matches)?)),
        "script" => Some(Wish::Script(Script::matched(matches)?)),
        "widen" => Some(Wish::Widen(Widen::matched(matches)?)),
        "compact" => Some(Wish::Compact(Compact::matched(matches)?)),
        "dump" => Some(Wish::Dump(Dump::matched(matches)?)),
        "load" => Some(Wish::Load(Load::matched(matches)?)),
        "asm" => Some(Wish::Asm(Asm::matched(matches)?)),
        "disasm" => Some(Wish::Disasm(Disasm::matched(matches)?)),
        "verify" => Some(Wish::Verify(Verify::matched(matches)?)),
        "run" => Some(Wish::Run(Run::matched(matches)?)),
        "incr" => Some(Wish::Incr(Incr::matched(matches)?)),
        "each" => Some(Wish::Each(Each::matched(matches)?)),
        "batch" => Some(Wish::Batch(Batch::matched(matches)?)),
        _ => None,
    }
}
