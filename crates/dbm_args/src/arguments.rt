//! The arguments and options that subcommands share.
ghost use Rattle.std.specs.Prelude.{◌≡◌, false, codes};
ghost use Rattle.clap.specs.Words.{rule_of};
ghost use Rattle.dbm_args.specs.CommandLine as spec;

use clap::{Arg, ArgAction};
use std::alloc::Global;

/// A required positional argument.
pub fn required_word<'a>(alloc: Global, id: &'a str, help: &'a str) -> Arg<'a>
    ensures rule { rule_of result ≡ spec.required_word id.entry.now }
    ensures local { result.global ≡ false }
{
    Arg::new(alloc, id).required(true).help(help)
}

/// The flag `--id`.
pub fn flag<'a>(alloc: Global, id: &'a str, help: &'a str) -> Arg<'a>
    ensures rule { rule_of result ≡ spec.flag id.entry.now }
    ensures local { result.global ≡ false }
{
    let option = Arg::new(alloc, id).long(id).help(help);
    option.action(ArgAction::SetTrue)
}

/// The flag `--null`, or `-0` for short.
pub fn null<'a>(alloc: Global) -> Arg<'a>
    ensures rule { rule_of result ≡ spec.null_flag }
    ensures local { result.global ≡ false }
{
    let help = "Print raw bytes, a zero byte after each, for xargs -0";
    flag(alloc, "null", help).short('0')
}

/// The option `--id VALUE`.
pub fn valued_option<'a>(alloc: Global, id: &'a str, value: &'a str, help: &'a str) -> Arg<'a>
    ensures rule { rule_of result ≡ spec.valued_option id.entry.now }
    ensures local { result.global ≡ false }
{
    Arg::new(alloc, id).long(id).value_name(value).help(help)
}

/// The argument `BASE`, the name of a database.
pub fn base<'a>(alloc: Global) -> Arg<'a>
    ensures rule { rule_of result ≡ spec.required_word (codes "BASE") }
    ensures local { result.global ≡ false }
{
    let help = "The database, in the files BASE.dir and BASE.pag; a missing file counts as empty";
    required_word(alloc, "BASE", help)
}

/// The argument `KEY`.
pub fn key<'a>(alloc: Global) -> Arg<'a>
    ensures rule { rule_of result ≡ spec.required_word (codes "KEY") }
    ensures local { result.global ≡ false }
{
    required_word(
        alloc,
        "KEY",
        "The key in hex, or with --text as text; . is the empty key",
    )
}

/// The flag `--raw-key`: `KEY` is not decoded.
pub fn raw_key<'a>(alloc: Global) -> Arg<'a>
    ensures rule { rule_of result ≡ spec.flag (codes "raw-key") }
    ensures local { result.global ≡ false }
{
    flag(
        alloc,
        "raw-key",
        "Take the bytes of KEY as they are, without escapes or numbers",
    )
}

/// The argument `FILE`, the file of a program.
pub fn file<'a>(alloc: Global, help: &'a str) -> Arg<'a>
    ensures rule { rule_of result ≡ spec.required_word (codes "FILE") }
    ensures local { result.global ≡ false }
{
    required_word(alloc, "FILE", help)
}

/// The flag `--unsigned`: the hash treats the bytes of keys as unsigned.
pub fn unsigned<'a>(alloc: Global) -> Arg<'a>
    ensures rule { rule_of result ≡ spec.flag (codes "unsigned") }
    ensures local { result.global ≡ false }
{
    flag(
        alloc,
        "unsigned",
        "Hash the bytes of keys as unsigned, as some machines do",
    )
}

/// The flag `--wide`: pages have 8,192 bytes.
pub fn wide<'a>(alloc: Global) -> Arg<'a>
    ensures rule { rule_of result ≡ spec.flag (codes "wide") }
    ensures local { result.global ≡ false }
{
    flag(alloc, "wide", "Pages have 8,192 bytes instead of 1,024")
}

/// The flag `--insist`: opens files as wide even if their pages look small.
pub fn insist<'a>(alloc: Global) -> Arg<'a>
    ensures rule { rule_of result ≡ spec.flag (codes "insist") }
    ensures local { result.global ≡ false }
{
    flag(
        alloc,
        "insist",
        "With --wide: open files even if they look like small pages",
    )
}

/// The flag `--text`: bytes are text, not hex.
pub fn text<'a>(alloc: Global) -> Arg<'a>
    ensures rule { rule_of result ≡ spec.flag (codes "text") }
    ensures local { result.global ≡ false }
{
    flag(
        alloc,
        "text",
        "Bytes are text instead of hex: hits, u64:7, a\\sb for a space, \\x00 for any byte",
    )
}

/// The option `--as LAYOUT`: the layout of printed values.
pub fn layout<'a>(alloc: Global) -> Arg<'a>
    ensures rule { rule_of result ≡ spec.valued_option (codes "as") }
    ensures local { result.global ≡ false }
{
    valued_option(
        alloc,
        "as",
        "LAYOUT",
        "Print values that fit by this layout, such as u64 or u64,u64,text; implies --text",
    )
}

/// The option `--prefix BYTES`: selects the keys that begin with these bytes.
pub fn prefix<'a>(alloc: Global) -> Arg<'a>
    ensures rule { rule_of result ≡ spec.valued_option (codes "prefix") }
    ensures local { result.global ≡ false }
{
    valued_option(
        alloc,
        "prefix",
        "BYTES",
        "Only keys that begin with these bytes",
    )
}

/// The flag `--json`.
pub fn json<'a>(alloc: Global) -> Arg<'a>
    ensures rule { rule_of result ≡ spec.flag (codes "json") }
    ensures local { result.global ≡ false }
{
    flag(alloc, "json", "Print JSON")
}

/// The option `--timeout SECONDS`: the longest wait for the lock.
pub fn timeout<'a>(alloc: Global) -> Arg<'a>
    ensures rule { rule_of result ≡ spec.valued_option (codes "timeout") }
    ensures local { result.global ≡ false }
{
    valued_option(
        alloc,
        "timeout",
        "SECONDS",
        "Wait at most this long for other processes, 0 for not at all; then fail with Locked",
    )
}

/// The flag `--verbose`: reports who holds the lock if the command has to wait.
pub fn verbose<'a>(alloc: Global) -> Arg<'a>
    ensures rule { rule_of result ≡ spec.flag (codes "verbose") }
    ensures local { result.global ≡ false }
{
    flag(
        alloc,
        "verbose",
        "Report who holds the lock after half a second of waiting, as at a terminal",
    )
}

/// The flag `--must-exist`: a missing database is an error.
pub fn must_exist<'a>(alloc: Global) -> Arg<'a>
    ensures rule { rule_of result ≡ spec.flag (codes "must-exist") }
    ensures local { result.global ≡ false }
{
    flag(
        alloc,
        "must-exist",
        "Fail with Absent if neither file exists, instead of creating a database",
    )
}

/// The flag `--quick`: reads only the directory and the page of the key, if that is enough.
pub fn quick<'a>(alloc: Global) -> Arg<'a>
    ensures rule { rule_of result ≡ spec.flag (codes "quick") }
    ensures local { result.global ≡ false }
{
    flag(
        alloc,
        "quick",
        "Read only the directory and the page of KEY; faults of other pages are not found",
    )
}

/// The flag `--image`: the program's file is an image.
pub fn image<'a>(alloc: Global) -> Arg<'a>
    ensures rule { rule_of result ≡ spec.flag (codes "image") }
    ensures local { result.global ≡ false }
{
    flag(
        alloc,
        "image",
        "FILE is the image of the program, not its text",
    )
}
