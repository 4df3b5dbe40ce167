//! `incr`: adds to the number of a key, by the stock program `bounded_counter`.
ghost use Rattle.std.specs.Prelude.{◌≡◌, IfErr, IfOk, IfSome, IsNone, Some, codes, false};
ghost use Rattle.clap.specs.Words.{found_of, new_rule, rows_of, rule_of};
ghost use Rattle.dbm_args.specs.CommandLine.{IsSubcommand};
ghost use Rattle.dbm_args.specs.Given.{has_words};
ghost use Rattle.dbm_records.specs.Incr as spec;
ghost use Rattle.dbm_records.specs.Incr.{IncrAsks, incr_head, number_alone};
ghost use Rattle.dbm_reports.specs.Causes.{IsCaused};
ghost use Rattle.dbm_script.specs.Notation.{bytes_of_word};

use crate::running::run_image;
use byte_text::{read_number, read_signed};
use clap::{Arg, ArgMatches, Command};
use dbm_args::arguments::{
    base, insist, key, layout, must_exist, raw_key, text, timeout, unsigned, valued_option,
    verbose, wide,
};
use dbm_args::{
    Form, Head, Named, NotationOptions, Numbers, Words, form, has_flag, notation, subcommand, word,
};
use dbm_reports::{Given, Report, ReportFault, Subcommand, bad_words, open, word_asked};
use dbm_script::{NUMBER_LEN, Notation, RunWords, counter_argument, read_bytes};
use sdbm_addr::Bytes;
use std::alloc::{AllocError, Global};
use std::io::Read;
use stock_names::Stock;

/// The length of `ran CODE ` with a code of one digit.
const AFTER_CODE: usize = 6;

/// The code of a run that has added the amount.
const ADDED: u64 = 1;

/// The answer if the value has too few bytes for a number.
const TOO_SHORT: &[u8] = b"too short\n";

/// The arguments of `incr`, which adds an amount to the number of a key. A missing key counts as 0. If the sum is below `min` or above
/// `max`, nothing changes.
#[derive(Clone, Copy, Debug)]
pub struct Incr<'a> {
    pub base: &'a str,
    pub form: Form,
    pub notation: NotationOptions<'a>,
    pub key: &'a str,
    pub amount: Option<&'a str>,
    pub min: Option<&'a str>,
    pub max: Option<&'a str>,
    /// The bytes of the argument are the key, without decoding.
    pub raw_key: bool,
}

impl<'a> Incr<'a> {
    /// Reads the matches of `incr`. Returns `None` if a required argument is missing.
    pub fn matched(matches: &ArgMatches<'a>) -> Option<Incr<'a>>
        ensures some { IfSome result (IncrAsks (rows_of (found_of matches.now))) }
        ensures none { IsNone result → has_words spec.incr.rules (rows_of (found_of matches.now)) ≡ false }
    {
        Some(Incr {
            base: word(matches, "BASE")?,
            form: form(matches),
            notation: notation(matches),
            key: word(matches, "KEY")?,
            amount: word(matches, "AMOUNT"),
            min: word(matches, "min"),
            max: word(matches, "max"),
            raw_key: has_flag(matches, "raw-key"),
        })
    }

    /// Returns the head of the subcommand: its files and its notation.
    pub fn head(&self) -> Head<'a>
        ensures { result ≡ incr_head self.entry.now }
    {
        Head {
            writes: true,
            notation: self.notation,
            ..Head::on(Some(self.base))
        }
    }

    /// Returns the arguments that messages may show. A raw key is always valid, so no message shows it.
    pub fn words(&self) -> Words<'a> {
        Words {
            first: if self.raw_key {
                None
            } else {
                Some(Named {
                    name: "KEY",
                    word: self.key,
                })
            },
            numbers: Numbers {
                amount: self.amount,
                min: self.min,
                max: self.max,
                ..Numbers::none()
            },
            ..Words::on(Some(self.base), self.form)
        }
    }
}

// Declares the optional argument for the amount.
fn amount_word<'a>(alloc: Global) -> Arg<'a>
    ensures rule { rule_of result ≡ new_rule (codes "AMOUNT") }
    ensures local { result.global ≡ false }
{
    Arg::new(alloc, "AMOUNT").help(
        "What to add, by default 1; -N subtracts, with -- before the words",
    )
}

/// Declares the subcommand `incr` for `clap`.
///
/// # Errors
/// `AllocError` if allocation fails.
pub fn incr_command<'a>(alloc: Global) -> Result<Command<'a>, AllocError>
    ensures { IfOk result (IsSubcommand spec.incr) }
{
    let args = vec![in alloc;
        base(alloc),
        key(alloc),
        amount_word(alloc),
        valued_option(alloc, "min", "N", "The least number, by default 0"),
        valued_option(
            alloc,
            "max",
            "N",
            "The greatest number, by default 18446744073709551615"
        ),
        raw_key(alloc),
        text(alloc),
        layout(alloc),
        unsigned(alloc),
        wide(alloc),
        insist(alloc),
        must_exist(alloc),
        timeout(alloc),
        verbose(alloc),
    ]?;
    let about = "Add to the number of a key";
    let notes =
        "Prints the new number. If it would be below --min or above --max nothing changes: then the number is printed as it is,\n\
         with status 1. A missing key counts as 0. The value has 8 bytes, the lowest first, as for @counter. If it has fewer, it is\n\
         unchanged too, and the answer is \"too short\", with status 1. Status 3 means that nothing was added, because there is no\n\
         room for a new key (crowded) or KEY is too long (refused). --as has the effect of --text alone: no value is printed.\n\n\
         Example: dbm incr users hits 5 --text";
    subcommand(alloc, "incr", about, notes, args)
}

impl Subcommand for Incr<'_> {
    ghost use Rattle.std.specs.Prelude.{false, true};
    ghost use Rattle.dbm_records.specs.Incr.{incr_in};
    ghost use Rattle.dbm_reports.specs.Causes.{IsCaused};

    type Fault = ReportFault;

    ghost reports = { λ incr n given input report. (incr_in n incr given).reports report };

    ghost causes = { λ incr n given input fault. IsCaused (incr_in n incr given).causes fault };

    ghost writes = { λ incr. true };

    ghost reads = { λ incr. false };

    fn report<R: Read>(
        &self,
        alloc: Global,
        notation: &Notation<Global>,
        given: &Given,
        _reader: &mut R,
    ) -> Result<Report, ReportFault> {
        let word = word_asked(alloc, notation, self.key, self.raw_key)?;
        let key = key_in(alloc, notation, word.as_slice())?;
        let Some(numbers) = numbers_of(self.amount, self.min, self.max) else {
            return Err(ReportFault::BadNumber);
        };
        let database = open(alloc, given, self.form)?;
        let words = RunWords {
            key,
            arg: counter_argument(alloc, numbers.amount, numbers.min, numbers.max)?,
            blank: Some(NUMBER_LEN),
            now: 0,
        };
        let image = Stock::BoundedCounter.image(alloc)?;
        let report = run_image(
            alloc,
            notation,
            database,
            image.as_slice(),
            words,
            Some(ADDED),
        )?;
        Ok(with_number_alone(alloc, report)?)
    }
}

// The amount in two's complement, and the bounds.
#[derive(Clone, Copy)]
struct IncrNumbers {
    amount: u64,
    min: u64,
    max: u64,
}

// Reads the amount and the bounds. Returns `None` if one of them is not a number.
fn numbers_of(amount: Option<&str>, min: Option<&str>, max: Option<&str>) -> Option<IncrNumbers>
    ensures { result ≡ spec.numbers_of amount.entry min.entry max.entry }
{
    let Some(amount) = amount_in(amount) else {
        return None;
    };
    let Some(min) = bound_in(min, 0) else {
        return None;
    };
    let Some(max) = bound_in(max, u64::MAX) else {
        return None;
    };
    Some(IncrNumbers { amount, min, max })
}

// Reads the amount, by default 1, and returns its two's complement. Returns `None` if the argument is not a number.
fn amount_in(word: Option<&str>) -> Option<u64>
    ensures { result ≡ spec.amount_in word.entry }
{
    match word {
        Some(word) => read_signed(word.as_bytes()),
        None => Some(1),
    }
}

// Reads a bound, by default `least`. Returns `None` if the argument is not a number.
fn bound_in(word: Option<&str>, least: u64) -> Option<u64>
    ensures { result ≡ spec.bound_in least word.entry }
{
    match word {
        Some(word) => read_number(word.as_bytes(), u64::MAX),
        None => Some(least),
    }
}

// Reads the bytes of a key from its word.
fn key_in(
    alloc: Global,
    notation: &Notation<Global>,
    word: &[u8],
) -> Result<Bytes<Global>, ReportFault>
    ensures ok { IfOk result (λ key. bytes_of_word notation.now word.now ≡ Some key) }
    ensures fault { IfErr result (IsCaused (spec.key_causes notation.now word.now)) }
{
    match read_bytes(alloc, notation, word)? {
        Some(key) => Ok(key),
        None => Err(bad_words(notation)),
    }
}

// Makes the report of an `incr` from the report of its run. If the program ran, the text is the reply word alone, or `too short`.
fn with_number_alone(alloc: Global, report: Report) -> Result<Report, AllocError>
    ensures text { IfOk result (λ made. made.text.items ≡ number_alone report.text.items) }
    ensures status { IfOk result (λ made. made.status ≡ report.status) }
    ensures database { IfOk result (λ made. made.database ≡ report.database) }
{
    let mut text = Vec::new(alloc);
    text.extend_from_slice(shown_number(report.text.as_slice()))?;
    Ok(Report {
        text,
        status: report.status,
        database: report.database,
        notes: report.notes,
    })
}

// Returns the text without `ran CODE ` at its start, or `too short` for code 4. CODE is one digit.
fn shown_number(text: &[u8]) -> &[u8]
    ensures { result.now ≡ number_alone text.now }
{
    if text.starts_with(b"ran 4 ") {
        return TOO_SHORT;
    }
    if text.starts_with(b"ran ") {
        return &text[text.len().min(AFTER_CODE)..];
    }
    text
}
