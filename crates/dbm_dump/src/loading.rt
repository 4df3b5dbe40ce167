//! Loads a dump into a database, line by line.
ghost use Rattle.std.specs.Prelude.{◌≡◌, ◌<◌, ◌==◌, cond, length, true, false, IfOk, IfErr, IfSome};
ghost use Rattle.dbm_script.specs.LineInput.{GivesNextLine, lines_left};
ghost use Rattle.dbm_dump.specs.Steps.{is_end};
ghost use Rattle.dbm_dump.specs.Loading.{GivesLine, IsLineFault, IsLoadFault, IsLoaded, IsLoadStepFault, IsStoreFault, StoresOne, TakesLine};

use crate::fault::DumpFault;
use crate::key_head::KeyHead;
use crate::stage::{Next, Stage, step};
use dbm_script::{Answer, LineFault, LineReader, answer_command};
use sdbm_addr::{Bytes, Mode};
use sdbm_files::Image;
use std::alloc::Global;
use std::io::Read;
use store_cmd::{Command, Reply};

/// The longest line, in bytes. The line of a pair has at most 16,018 bytes.
const LINE_LIMIT: usize = 16_384;

/// A database after loading a dump, and the number of pairs in the dump.
#[derive(Drop)]
pub struct Loaded {
    pub image: Image<Global>,
    pub count: u64,
}

// The state of loading: the database, the stage of reading, and the number of pairs so far.
#[derive(Drop)]
struct Loading {
    image: Image<Global>,
    stage: Stage,
    count: u64,
}

/// Stores the pairs of a dump in a database, in order. `mode` says whether a pair replaces an existing pair with the same key. A dump may
/// have any length, because it is read line by line.
///
/// # Errors
/// The first of these faults. The database is then dropped. An LF at the end of the dump does not begin another line.
/// - `Read` if the reader fails, and `NoMemory` if allocation fails.
/// - `BadDump` with the number of the first invalid line.
/// - `TooLarge` with the number of a line that has more than 16,384 bytes, or whose pair, key or value is over the size limit.
/// - `Crowded` with the number of a line whose pair does not fit in the database.
/// - `CutOff` if the dump is truncated.
pub fn load_pairs<R: Read>(
    alloc: Global,
    reader: &mut R,
    start: Stage,
    mode: Mode,
    image: Image<Global>,
) -> Result<Loaded, DumpFault>
    ensures ok { IfOk result (λ r. IfSome (R.remaining reader.old) (λ input. IsLoaded start mode image input r.count r.image)) }
    ensures kept { IfOk result (λ r. (r.image.kind ≡ image.kind) × (r.image.size ≡ image.size)) }
    ensures fault { IfErr result (λ fault. IfSome (R.remaining reader.old) (λ input. IsLoadFault start mode image input fault)) }
{
    let mut loading = Loading {
        image,
        stage: start,
        count: 0,
    };
    let mut lines = LineReader::new(alloc);
    let mut line = Vec::new(alloc);
    for number in 1..u64::MAX {
        if !next_line(&mut lines, reader, &mut line, number)? {
            return finish(loading);
        }
        loading = take_line(alloc, mode, loading, line.as_slice(), number)?;
    }
    Err(DumpFault::Read)
}

// Reads the line with this number. Returns `false` if no lines are left. An empty piece after the last LF is not a line. An empty text,
// however, has one empty line.
fn next_line<R: Read>(
    lines: &mut LineReader,
    reader: &mut R,
    line: &mut Vec<u8>,
    number: u64,
) -> Result<bool, DumpFault>
    requires { 0 < number }
    ensures given { IfOk result (λ found. GivesLine number (lines_left lines.old (R.remaining reader.old)) found line.new.items (lines_left lines.new (R.remaining reader.new))) }
    ensures fault { IfErr result (IsLineFault number (lines_left lines.old (R.remaining reader.old))) }
{
    if !next_piece(lines, reader, line, number)? {
        return Ok(false);
    }
    if number == 1 {
        return Ok(true);
    }
    Ok(!is_empty_end(lines, line.as_slice()))
}

// Returns `true` if a piece is empty and no piece follows it.
fn is_empty_end(lines: &LineReader, line: &[u8]) -> bool
    ensures { result ≡ cond lines.now.ended (length line.now == 0) false }
{
    if lines.has_ended() {
        return line.is_empty();
    }
    false
}

// Reads the piece up to the next LF or the end of the text. Returns `false` if no pieces are left. A fault names the line `number`.
fn next_piece<R: Read>(
    lines: &mut LineReader,
    reader: &mut R,
    line: &mut Vec<u8>,
    number: u64,
) -> Result<bool, DumpFault>
    ensures given { IfOk result (λ found. GivesNextLine (lines_left lines.old (R.remaining reader.old)) found line.new.items (lines_left lines.new (R.remaining reader.new))) }
    ensures fault { IfErr result (IsLineFault number (lines_left lines.old (R.remaining reader.old))) }
{
    match lines.next(reader, line, LINE_LIMIT) {
        Ok(found) => Ok(found),
        Err(LineFault::Read) => Err(DumpFault::Read),
        Err(LineFault::TooLong) => Err(DumpFault::TooLarge(number, None)),
        Err(LineFault::NoMemory) => Err(DumpFault::NoMemory),
    }
}

// Returns the loaded database. Fails with `CutOff` if the dump may not end at this stage.
fn finish(loading: Loading) -> Result<Loaded, DumpFault>
    ensures ok { IfOk result (λ r. (is_end loading.stage ≡ true) × ((r.image ≡ loading.image) × (r.count ≡ loading.count))) }
    ensures fault { IfErr result (λ fault. (is_end loading.stage ≡ false) × (fault ≡ DumpFault.CutOff)) }
{
    let Loading {
        image,
        stage,
        count,
    } = loading;
    if !stage.is_end() {
        return Err(DumpFault::CutOff);
    }
    Ok(Loaded { image, count })
}

// Reads the line with this number. If the line completes a pair, stores the pair.
fn take_line(
    alloc: Global,
    mode: Mode,
    loading: Loading,
    line: &[u8],
    number: u64,
) -> Result<Loading, DumpFault>
    requires { loading.count < number }
    ensures ok { IfOk result (λ after. TakesLine mode loading line.now after) }
    ensures fault { IfErr result (IsLoadStepFault mode loading line.now number) }
{
    let Loading {
        image,
        stage,
        count,
    } = loading;
    let Some(Next { stage, pair }) = step(alloc, stage, line)? else {
        return Err(DumpFault::BadDump(number));
    };
    if stage.open_len() > image.page_size().pair_limit() as u64 {
        return Err(DumpFault::TooLarge(number, stage.open_key()));
    }
    match pair {
        None => Ok(Loading {
            image,
            stage,
            count,
        }),
        Some((key, value)) => {
            let image = store_pair(alloc, mode, image, key, value, number)?;
            Ok(Loading {
                image,
                stage,
                count: count + 1,
            })
        }
    }
}

// Stores a pair. A fault names the line `number`.
pub(crate) fn store_pair(
    alloc: Global,
    mode: Mode,
    image: Image<Global>,
    key: Bytes<Global>,
    value: Bytes<Global>,
    number: u64,
) -> Result<Image<Global>, DumpFault>
    ensures ok { IfOk result (StoresOne mode image (key, value)) }
    ensures kept { IfOk result (λ after. (after.kind ≡ image.kind) × (after.size ≡ image.size)) }
    ensures fault { IfErr result (IsStoreFault mode image (key, value) number) }
{
    let head = KeyHead::of(key.as_slice());
    let mut image = image;
    let command = Command::Store { key, value, mode };
    match answer_command(alloc, &mut image, command)? {
        Answer::Replied(entry) => match entry.reply {
            Reply::Stored => Ok(image),
            Reply::Exists => Ok(image),
            Reply::Crowded => Err(DumpFault::Crowded(number, head)),
            _ => unreachable!(),
        },
        Answer::Refused(_) => Err(DumpFault::TooLarge(number, Some(head))),
    }
}
