//! `dump`: writes all pairs as one text.
ghost use Rattle.std.specs.Prelude.{◌≡◌, IfOk, IfSome, IsNone, false, map as map_list};
ghost use Rattle.clap.specs.Words.{found_of, rows_of};
ghost use Rattle.dbm_args.specs.CommandLine.{IsSubcommand};
ghost use Rattle.dbm_args.specs.Given.{has_words};
ghost use Rattle.dbm_dump.specs.Dump as spec;
ghost use Rattle.dbm_dump.specs.Dump.{DumpAsks, Dumps, dump_head};
ghost use Rattle.dbm_dump.specs.Texts.{bare_pair, dumped_pairs};
ghost use Rattle.byte_text.specs.Bare.{bare_value};

use crate::copy_fault::CopyFault;
use crate::{DumpFault, Format, dump_pairs, format_of};
use byte_text::{Layout, show_bare};
use clap::{ArgMatches, Command};
use dbm_args::arguments::{base, insist, layout, timeout, unsigned, valued_option, verbose, wide};
use dbm_args::{Form, Head, Named, NotationOptions, Words, form, notation, subcommand, word};
use dbm_reports::{Given, Report, Subcommand, open, printed};
use dbm_script::Notation;
use sdbm_addr::Bytes;
use sdbm_files::Image;
use std::alloc::{AllocError, Global};
use std::io::Read;

/// The subcommand `dump`. Writes all pairs as one text, by default in our own format. With a layout, values are plain text for other
/// programs.
#[derive(Clone, Copy, Debug)]
pub struct Dump<'a> {
    pub base: &'a str,
    pub form: Form,
    pub notation: NotationOptions<'a>,
    pub format: Option<&'a str>,
}

impl<'a> Dump<'a> {
    /// Reads the matches of `dump`. Returns `None` if a required argument is missing.
    pub fn matched(matches: &ArgMatches<'a>) -> Option<Dump<'a>>
        ensures some { IfSome result (DumpAsks (rows_of (found_of matches.now))) }
        ensures none { IsNone result → has_words spec.dump.rules (rows_of (found_of matches.now)) ≡ false }
    {
        Some(Dump {
            base: word(matches, "BASE")?,
            form: form(matches),
            notation: notation(matches),
            format: word(matches, "format"),
        })
    }

    /// Returns the head of the subcommand: its files and its notation.
    pub fn head(&self) -> Head<'a>
        ensures { result ≡ dump_head self.now }
    {
        Head {
            notation: self.notation,
            ..Head::on(Some(self.base))
        }
    }

    /// Returns the arguments that messages may show.
    pub fn words(&self) -> Words<'a> {
        Words {
            first: named_format(self.format),
            layout: self.notation.layout,
            ..Words::on(Some(self.base), self.form)
        }
    }
}

/// Returns the value of `--format` for messages.
pub(crate) fn named_format<'a>(format: Option<&'a str>) -> Option<Named<'a>> {
    match format {
        Some(word) => Some(Named {
            name: "--format",
            word,
        }),
        None => None,
    }
}

/// Declares the subcommand `dump` for `clap`.
///
/// # Errors
/// `AllocError` if allocation fails.
pub fn dump_command<'a>(alloc: Global) -> Result<Command<'a>, AllocError>
    ensures { IfOk result (IsSubcommand spec.dump) }
{
    let help = "text, for load, the default; gdbm, for gdbm_load; or redis, for redis-cli --pipe";
    let args = vec![in alloc;
        base(alloc),
        valued_option(alloc, "format", "FORMAT", help),
        layout(alloc),
        unsigned(alloc),
        wide(alloc),
        insist(alloc),
        timeout(alloc),
        verbose(alloc),
    ]?;
    let about = "Print all pairs as one text, for load or for another program";
    let notes =
        "Prints a header with the number of pairs, a line for each pair in hex, sorted by the bytes of the\n\
         keys, and the line end, so that load refuses a truncated text. With --as u64, a number is dumped as\n\
         its decimal, for programs such as Redis. A dump with --as is for other programs, and is no backup:\n\
         load would store its texts instead of the values.\n\n\
         Example: dbm dump users > users.dump";
    subcommand(alloc, "dump", about, notes, args)
}

impl Subcommand for Dump<'_> {
    ghost use Rattle.std.specs.Prelude.{false};
    ghost use Rattle.dbm_dump.specs.Dump.{dump_in};
    ghost use Rattle.dbm_dump.specs.Causes.{HasDumpCause};

    type Fault = CopyFault;

    ghost reports = { λ dump n given input report. (dump_in n dump given).reports report };

    ghost causes = { λ dump n given input fault. HasDumpCause (dump_in n dump given).causes fault };

    ghost writes = { λ dump. false };

    ghost reads = { λ dump. false };

    fn report<R: Read>(
        &self,
        alloc: Global,
        notation: &Notation<Global>,
        given: &Given,
        _reader: &mut R,
    ) -> Result<Report, CopyFault> {
        let Some(format) = format_of(self.format) else {
            return Err(CopyFault::Dump(DumpFault::BadFormat));
        };
        let image = open(alloc, given, self.form)?;
        Ok(dumped(alloc, notation, &image, format)?)
    }
}

// Reports all pairs of a database in a format.
fn dumped(
    alloc: Global,
    notation: &Notation<Global>,
    image: &Image<Global>,
    format: Format,
) -> Result<Report, AllocError>
    ensures { IfOk result (λ report. Dumps notation.now format report image.now) }
{
    let pairs = as_dumped(alloc, notation, image.pairs()?)?;
    let (kind, size) = (image.key_bytes(), image.page_size());
    let text = dump_pairs(alloc, format, kind, size, pairs.as_slice())?;
    Ok(printed(text))
}

type Pairs = Vec<(Bytes<Global>, Bytes<Global>)>;

// Returns the pairs of a dump. With a layout, their values are plain text.
fn as_dumped(alloc: Global, notation: &Notation<Global>, pairs: Pairs) -> Result<Pairs, AllocError>
    ensures { IfOk result (λ dumped. dumped.items ≡ dumped_pairs notation.now pairs.items) }
{
    match notation {
        Notation::Hex | Notation::Text => Ok(pairs),
        Notation::Layout(layout) => bare_pairs(alloc, layout, pairs.as_slice()),
    }
}

// Returns the pairs with their values as plain text.
fn bare_pairs(
    alloc: Global,
    layout: &Layout<Global>,
    pairs: &[(Bytes<Global>, Bytes<Global>)],
) -> Result<Pairs, AllocError>
    ensures { IfOk result (λ bare. bare.items ≡ map_list (bare_pair layout.now) pairs.now) }
{
    let mut bare = Vec::new(alloc);
    for pair in pairs {
        let key = pair.0.try_clone(alloc)?;
        let value = bare_bytes(alloc, layout, pair.1.as_slice())?;
        bare.push((key, value))?;
    }
    Ok(bare)
}

// Returns a value as plain text.
fn bare_bytes(
    alloc: Global,
    layout: &Layout<Global>,
    value: &[u8],
) -> Result<Bytes<Global>, AllocError>
    ensures { IfOk result (λ bare. bare ≡ bare_value layout.now value.now) }
{
    let mut bytes = Vec::new(alloc);
    show_bare(alloc, layout, value, &mut bytes)?;
    Ok(Bytes::new(bytes))
}
