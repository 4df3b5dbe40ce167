// The records of a log, and the plans of the records joined into one plan.
ghost use Rattle.std.specs.Prelude.{◌≡◌, ◌-◌, ◌≤◌, ◌+◌, ◌++◌, ◌↔◌, ℕ, ◌∷◌, [], ◌<◌, ◌^◌, length, take, drop, get_or, true, false, IsTrue, OnOk, IfOk, IfSome, IsNone, IfErr};
ghost use Rattle.sdbm_saves.specs.Redo.{number_at, count_of, IsPlan, Knows};
ghost use Rattle.sdbm_saves.specs.Disk.{written};
ghost use Rattle.sdbm_saves.specs.Drafts.{spelled};
ghost use Rattle.sdbm_log.specs.Saving.{image_in, IsRedoPlan, HasNoPlan};
ghost use Rattle.sdbm_log.specs.Log.{nonzero, digits, record_of, records_of, weight_at, size_at, is_whole, is_signed, is_log, number_in, first_plan, later_records, after_records, end_in, HasRecords, MayBeTorn, MayFollow, is_shared, ArePlans, joined, log_plan, number_of, plan_of, CanRecover};
ghost use Rattle.sdbm_log.specs.declared.records.LogFault.TheVariants.{Foreign, Damaged};

use crate::knowing::knows;
use crate::log::HEADER;
use sdbm_saves::{Contents, byte_at, is_plan, number, spelled, write_in};
use std::alloc::{AllocError, Allocator, Global};

// "sdbm" and "log1" as numbers.
const SDBM: usize = 1835164787;

const LOG1: usize = 828862316;

/// The offset of the byte that is not 0 if the log is shared.
pub const SHARED_AT: usize = 9;

/// The reason why the files cannot be recovered.
#[derive(Clone, Copy, Debug, PartialEq, Eq)]
pub enum LogFault {
    /// Out of memory.
    NoMemory,
    /// A plan in the redo file is invalid, or the plans do not know these data files.
    Foreign,
    /// A record in the log is damaged in a way that no crash can cause.
    Damaged,
}

impl From<AllocError> for LogFault {
    ghost use Rattle.sdbm_log.specs.declared.records.LogFault.TheVariants.{NoMemory};

    ghost from_gives = { λ _ e. e ≡ NoMemory };

    fn from(_: AllocError) -> Self {
        LogFault::NoMemory
    }
}

/// Returns `true` if a redo file is a log that may have records: byte 0 is 1, and "sdbmlog1" follows.
pub fn is_log(redo: &[u8]) -> bool
    ensures { result ≡ is_log redo.now }
{
    if byte_at(redo, 0) != 1 {
        return false;
    }
    is_signed(redo)
}

/// Returns the length of the bytes after the header of a redo file, without trailing zeros.
pub(crate) fn used_room(redo: &[u8]) -> usize
    ensures inside { result ≤ length (records_of redo.now) }
    ensures rest { nonzero (drop result (records_of redo.now)) ≡ 0 }
{
    let log = records_of(redo);
    for index in 0..log.len() {
        let end = log.len() - index;
        if log[end - 1] != 0 {
            return end;
        }
    }
    0
}

/// Returns the end of the complete records of a log, counted from the end of the header. This is `end` of `Log`.
pub fn records_end(redo: &[u8]) -> usize
    ensures is { result ≡ end_in (records_of redo.now) }
    ensures log { (end : ℕ) → HasRecords end (records_of redo.now) → result ≡ end }
{
    let log = records_of(redo);
    let rest = after_records(wholes(log), log);
    log.len() - rest.len()
}

// Returns `true` if the signature of a log follows byte 0.
pub(crate) fn is_signed(redo: &[u8]) -> bool
    ensures { result ≡ is_signed redo.now }
{
    if number_in(redo, 1) != SDBM {
        return false;
    }
    number_in(redo, 5) == LOG1
}

// Reads four bytes as a little-endian number. A byte past the end counts as zero.
#[tactic(auto, unfolding(sdbm_saves::specs::Redo::number_at))]
fn number_in(bytes: &[u8], at: usize) -> usize
    requires { at < 2 ^ 32 }
    ensures value { result ≡ number_at bytes.now at }
    ensures small { result < 2 ^ 32 }
{
    usize::from(byte_at(bytes, at))
        + 256 * usize::from(byte_at(bytes, at + 1))
        + 65536 * usize::from(byte_at(bytes, at + 2))
        + 16777216 * usize::from(byte_at(bytes, at + 3))
}

/// The bytes of the three files, read at the same time under the lock.
#[derive(Clone, Copy)]
pub struct LogFiles<'a> {
    /// The bytes of `.pag`.
    pub pages: &'a [u8],
    /// The bytes of `.dir`.
    pub directory: &'a [u8],
    /// The bytes of the redo file.
    pub redo: &'a [u8],
}

/// Returns the plan that turns the data files into those that the three files represent: all plans of a log joined into one, or the
/// committed plan of a single save. Returns `None` if there is nothing to apply.
///
/// # Errors
///
/// `Foreign` if a plan in the redo file is invalid, or if the plans do not know the data files. `Damaged` if a record is damaged in a way
/// that no crash can cause. In both cases the files cannot be recovered. `NoMemory` if allocation fails.
pub fn plan_of(alloc: Global, files: LogFiles<'_>) -> Result<Option<Vec<u8>>, LogFault>
    ensures some { IfOk result (λ found_plan. IfSome found_plan (λ plan. IsRedoPlan (image_in files.entry) plan.items × CanRecover (image_in files.entry))) }
    ensures plan { IfOk result (λ found_plan. IfSome found_plan (λ plan. IsPlan plan.items)) }
    ensures none { IfOk result (λ found_plan. IsNone found_plan → HasNoPlan (image_in files.entry) × CanRecover (image_in files.entry)) }
    ensures foreign { IfErr result (λ fault. fault ≡ Foreign → CanRecover (image_in files.entry) → ⊥) }
    ensures damaged { IfErr result (λ fault. fault ≡ Damaged → CanRecover (image_in files.entry) → ⊥) }
{
    if !is_log(files.redo) {
        return old_plan(alloc, files);
    }
    plan_of_log(alloc, files)
}

// Implements `plan_of` for a redo file that is not a log.
fn old_plan(alloc: Global, files: LogFiles<'_>) -> Result<Option<Vec<u8>>, LogFault>
    requires { is_log files.redo.now ≡ false }
    ensures some { IfOk result (λ found_plan. IfSome found_plan (λ plan. IsRedoPlan (image_in files.entry) plan.items × CanRecover (image_in files.entry))) }
    ensures plan { IfOk result (λ found_plan. IfSome found_plan (λ plan. IsPlan plan.items)) }
    ensures none { IfOk result (λ found_plan. IsNone found_plan → HasNoPlan (image_in files.entry) × CanRecover (image_in files.entry)) }
    ensures foreign { IfErr result (λ fault. fault ≡ Foreign → CanRecover (image_in files.entry) → ⊥) }
    ensures damaged { IfErr result (λ fault. fault ≡ Damaged → CanRecover (image_in files.entry) → ⊥) }
{
    if byte_at(files.redo, 0) != 1 {
        return Ok(None);
    }
    let plan = &files.redo[1..];
    if !is_plan(plan) {
        return Err(LogFault::Foreign);
    }
    if !knows(alloc, plan, contents(files))? {
        return Err(LogFault::Foreign);
    }
    Ok(Some(plan.to_vec(alloc)?))
}

// Borrows the bytes of both data files.
fn contents<'a>(files: LogFiles<'a>) -> Contents<'a>
    ensures pages { result.pages.now ≡ files.entry.pages.now }
    ensures directory { result.directory.now ≡ files.entry.directory.now }
{
    Contents {
        pages: files.pages,
        directory: files.directory,
    }
}

// Implements `plan_of` for a redo file that is a log.
fn plan_of_log(alloc: Global, files: LogFiles<'_>) -> Result<Option<Vec<u8>>, LogFault>
    requires { is_log files.redo.now ≡ true }
    ensures some { IfOk result (λ found_plan. IfSome found_plan (λ plan. IsRedoPlan (image_in files.entry) plan.items × CanRecover (image_in files.entry))) }
    ensures plan { IfOk result (λ found_plan. IfSome found_plan (λ plan. IsPlan plan.items)) }
    ensures none { IfOk result (λ found_plan. IsNone found_plan → HasNoPlan (image_in files.entry) × CanRecover (image_in files.entry)) }
    ensures foreign { IfErr result (λ fault. fault ≡ Foreign → CanRecover (image_in files.entry) → ⊥) }
    ensures damaged { IfErr result (λ fault. fault ≡ Damaged → CanRecover (image_in files.entry) → ⊥) }
{
    let log = records_of(files.redo);
    let count = wholes(log);
    let rest = after_records(count, log);
    if !may_follow(files.redo, rest) {
        return Err(LogFault::Damaged);
    }
    if count == 0 {
        return Ok(None);
    }
    if !are_plans(count, log) {
        return Err(LogFault::Foreign);
    }
    let plan = joined_plan(alloc, count, log)?;
    if !is_plan(plan.as_slice()) {
        return Err(LogFault::Foreign);
    }
    if !knows(alloc, plan.as_slice(), contents(files))? {
        return Err(LogFault::Foreign);
    }
    Ok(Some(plan))
}

// Returns the bytes of a redo file after the header.
fn records_of(redo: &[u8]) -> &[u8]
    ensures { result.now ≡ records_of redo.now }
{
    &redo[redo.len().min(HEADER)..]
}

// Returns the number of complete records at the start of a log.
fn wholes(log: &[u8]) -> usize
    ensures { result ≡ number_in log.now }
{
    let mut rest = log;
    for index in 0..log.len() {
        if !is_whole(rest) {
            return index;
        }
        rest = after_first(rest);
    }
    log.len()
}

// Returns the bytes after the first `count` records of a log.
fn after_records(count: usize, log: &[u8]) -> &[u8]
    ensures { result.now ≡ after_records count log.now }
{
    let mut rest = log;
    for index in 0..count {
        rest = after_first(rest);
    }
    rest
}

// Returns `true` if these bytes may follow the complete records of a redo file.
fn may_follow(redo: &[u8], rest: &[u8]) -> bool
    ensures { IsTrue result ↔ MayFollow redo.now rest.now }
{
    byte_at(redo, SHARED_AT) != 0 || may_be_torn(rest)
}

// Returns `true` if these bytes may be a record whose write a crash interrupted.
fn may_be_torn(rest: &[u8]) -> bool
    ensures { IsTrue result ↔ MayBeTorn rest.now }
{
    may_have_weight(rest) && may_have_size(rest)
}

// Returns `true` if the weight of a record is incomplete, or if the number of nonzero bytes after the weight is at most the weight.
fn may_have_weight(rest: &[u8]) -> bool
    ensures { IsTrue result ↔ (nonzero (take 4 rest.now) ≡ 4 → nonzero (drop 4 rest.now) ≤ weight_at rest.now) }
{
    if rest.len() < 4 {
        return true;
    }
    if nonzero(&rest[..4]) != 4 {
        return true;
    }
    nonzero(&rest[4..]) <= weight(rest)
}

// Returns `true` if the length of the plan of a record is incomplete, or if only zeros follow the plan.
fn may_have_size(rest: &[u8]) -> bool
    ensures { IsTrue result ↔ (nonzero (take 4 (drop 4 rest.now)) ≡ 4 → nonzero (drop (8 + size_at rest.now) rest.now) ≡ 0) }
{
    if rest.len() < 8 {
        return true;
    }
    if nonzero(&rest[4..8]) != 4 {
        return true;
    }
    nonzero(after_first(rest)) == 0
}

/// Returns `true` if a log starts with a complete record.
pub fn is_whole(log: &[u8]) -> bool
    ensures { result ≡ is_whole log.now }
{
    if log.len() < 4 {
        return false;
    }
    if nonzero(&log[..4]) != 4 {
        return false;
    }
    let end = log.len().min(8 + size(log));
    nonzero(&log[4..end]) == weight(log)
}

// Returns the weight of the first record of a log.
#[tactic(auto, unfolding(crate::specs::Log::weight_at))]
fn weight(log: &[u8]) -> usize
    ensures is { result ≡ weight_at log.now }
    ensures small { result < 2 ^ 32 }
{
    usize::from(byte_at(log, 0)).saturating_sub(1)
        + 255 * usize::from(byte_at(log, 1)).saturating_sub(1)
        + 65025 * usize::from(byte_at(log, 2)).saturating_sub(1)
        + 16581375 * usize::from(byte_at(log, 3)).saturating_sub(1)
}

// Returns the length of the plan of the first record of a log.
fn size(log: &[u8]) -> usize
    ensures is { result ≡ size_at log.now }
    ensures small { result < 2 ^ 32 }
{
    weight(&log[log.len().min(4)..])
}

// Returns the number of nonzero bytes.
fn nonzero(bytes: &[u8]) -> usize
    ensures is { result ≡ nonzero bytes.now }
    ensures few { result ≤ length bytes.now }
{
    let mut count = 0;
    for index in 0..bytes.len() {
        count += nonzero_byte(bytes[index]);
    }
    count
}

// Returns 1 for a nonzero byte, otherwise 0.
fn nonzero_byte(byte: u8) -> usize
    ensures is { result ≡ nonzero (byte ∷ []) }
    ensures small { result ≤ 1 }
{
    if byte == 0 { 0 } else { 1 }
}

// Returns the bytes after the first record of a log. The record may be incomplete.
fn after_first(log: &[u8]) -> &[u8]
    ensures { result.now ≡ later_records log.now }
{
    let start = log.len().min(8 + size(log));
    &log[start..]
}

// Returns `true` if the first `count` records of a log contain plans.
fn are_plans(count: usize, log: &[u8]) -> bool
    ensures { IsTrue result ↔ ArePlans count log.now }
{
    let mut rest = log;
    for index in 0..count {
        if !has_plan(rest) {
            return false;
        }
        rest = later_records(rest);
    }
    true
}

/// Returns `true` if the first record of a log contains a plan.
pub fn has_plan(log: &[u8]) -> bool
    ensures { IsTrue result ↔ (8 + size_at log.now ≤ length log.now) × IsPlan (first_plan log.now) }
{
    if log.len() < 8 || size(log) > log.len() - 8 {
        return false;
    }
    is_plan(first_plan(log))
}

/// Returns the plan of the first record of a log.
pub fn first_plan(log: &[u8]) -> &[u8]
    requires { 8 + size_at log.now ≤ length log.now }
    ensures { result.now ≡ first_plan log.now }
{
    let size = size(log);
    &log[8..8 + size]
}

// Returns the bytes after the first record of a log.
fn later_records(log: &[u8]) -> &[u8]
    requires { 8 + size_at log.now ≤ length log.now }
    ensures { result.now ≡ later_records log.now }
{
    let size = size(log);
    &log[8 + size..]
}

// Joins the plans of the first `count` records of a log into one plan.
fn joined_plan<A: Allocator>(alloc: A, count: usize, log: &[u8]) -> Result<Vec<u8, A>, AllocError>
    requires some { 1 ≤ count }
    requires whole { ArePlans count log.now }
    ensures { IfOk result (λ plan. plan.items ≡ log_plan count log.now) }
{
    let mut plan = Vec::from_slice(alloc, first_plan(log))?;
    let mut rest = later_records(log);
    for index in 1..count {
        join(&mut plan, first_plan(rest))?;
        rest = later_records(rest);
    }
    Ok(plan)
}

// Joins a plan with the next plan.
fn join<A: Allocator>(plan: &mut Vec<u8, A>, next: &[u8]) -> Result<(), AllocError>
    requires plan { 28 ≤ length plan.old.items }
    requires next { 28 ≤ length next.now }
    ensures { OnOk result (plan.new.items ≡ joined plan.old.items next.now) }
{
    write_head(plan, next);
    plan.extend_from_slice(&next[28..])?;
    Ok(())
}

// Overwrites the head of a plan with the head of the joined plan.
fn write_head<A: Allocator>(plan: &mut Vec<u8, A>, next: &[u8])
    requires plan { 28 ≤ length plan.old.items }
    requires next { 28 ≤ length next.now }
    ensures { plan.new.items ≡ written 8 (take 8 (drop 8 next.now)) (written 24 (spelled (count_of plan.old.items + count_of next.now)) plan.old.items) }
{
    join_heads(plan.as_mut_slice(), next);
}

/// Writes the new lengths and the number of changes of the joined plan into the first plan.
pub fn join_heads(plan: &mut [u8], next: &[u8])
    requires plan { 28 ≤ length plan.old }
    requires next { 28 ≤ length next.now }
    ensures { plan.new ≡ written 8 (take 8 (drop 8 next.now)) (written 24 (spelled (count_of plan.old + count_of next.now)) plan.old) }
{
    let count = number(plan, 24) + number(next, 24);
    write_in(plan, 24, &spelled(count));
    write_in(plan, 8, &next[8..16]);
}

/// Appends the record of a plan: its weight, its length, and the plan.
///
/// # Errors
///
/// `AllocError` if allocation fails.
pub fn push_record(bytes: &mut Vec<u8>, plan: &[u8]) -> Result<(), AllocError>
    requires { length plan.now < 4000000000 }
    ensures { OnOk result (bytes.new.items ≡ bytes.old.items ++ record_of plan.now) }
{
    let size = digits(plan.len());
    let count = nonzero(&size) + nonzero(plan);
    bytes.extend_from_slice(&digits(count))?;
    bytes.extend_from_slice(&size)?;
    bytes.extend_from_slice(plan)
}

// Returns a number as four nonzero bytes.
fn digits(number: usize) -> [u8; 4]
    ensures { result ≡ digits number }
{
    [
        (number % 255 + 1) as u8,
        (number / 255 % 255 + 1) as u8,
        (number / 65025 % 255 + 1) as u8,
        (number / 16581375 % 255 + 1) as u8,
    ]
}
