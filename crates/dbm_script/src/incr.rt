//! Lines that add to a number, by the stock program `bounded_counter`.
ghost use Rattle.std.specs.Prelude.{◌≡◌, IfOk, OnOk};
ghost use Rattle.dbm_script.specs.Images.{ImageVerdict};
ghost use Rattle.dbm_script.specs.Incr as spec;
ghost use Rattle.dbm_script.specs.Script.{AddsBytes, AnswersIncr, stage};
ghost use Rattle.sdbm_addr.specs.Database.{Database};
ghost use Rattle.store_marks.specs.Noted.{Notes};

use crate::images::show_refusal;
use crate::notations::Notation;
use crate::running::{RunAsk, answer_run};
use byte_text::put_number;
use prog_registry::Registry;
use sdbm_addr::Bytes;
use sdbm_files::Image;
use std::alloc::{AllocError, Allocator};
use stock_names::Stock;
use store_marks::Changes;

/// The length of a number in bytes.
pub const NUMBER_LEN: usize = 8;

/// The addition that a line requests. The amount is in two's complement.
#[derive(Drop)]
pub struct IncrAsk<A: Allocator> {
    pub key: Bytes<A>,
    pub amount: u64,
}

/// Makes the argument of `bounded_counter`: the amount in two's complement, then the least and the greatest allowed number.
///
/// # Errors
/// `AllocError` if allocation fails.
pub fn counter_argument<A: Allocator>(
    alloc: A,
    amount: u64,
    least: u64,
    greatest: u64,
) -> Result<Bytes<A>, AllocError>
    ensures { IfOk result (λ argument. argument ≡ spec.counter_argument amount least greatest) }
{
    let mut bytes = Vec::new(alloc);
    put_number(amount, NUMBER_LEN, &mut bytes)?;
    put_number(least, NUMBER_LEN, &mut bytes)?;
    put_number(greatest, NUMBER_LEN, &mut bytes)?;
    Ok(Bytes::new(bytes))
}

/// Submits `bounded_counter` to a registry, and runs it on the record of a key as session 0. A missing key counts as 0. Appends the answer
/// to the run to `text`; if the program is refused, appends the reason instead.
///
/// # Errors
/// `AllocError` if allocation fails. On error, discard `text`: it may be partial.
pub fn answer_incr<A: Allocator + Copy>(
    alloc: A,
    notation: &Notation<A>,
    image: &mut Image<A>,
    changes: &mut Changes,
    registry: &mut Registry<A>,
    incr: IncrAsk<A>,
    text: &mut Vec<u8, A>,
) -> Result<(), AllocError>
    ensures answer { OnOk result (AddsBytes text.old.items text.new.items (λ added. (told : ImageVerdict) ×
        AnswersIncr A notation.now (stage image.old registry.old.programs) incr.key incr.amount told added (stage image.new registry.new.programs))) }
    ensures kept { OnOk result ((image.new.kind ≡ image.old.kind) × (image.new.size ≡ image.old.size)) }
    ensures notes { (base : Database) → Notes changes.old base image.old → Notes changes.new base image.new }
{
    let IncrAsk { key, amount } = incr;
    let arg = counter_argument(alloc, amount, 0, u64::MAX)?;
    let stock = Stock::BoundedCounter.image(alloc)?;
    match registry.submit(stock.as_slice()) {
        Ok(id) => {
            let run = RunAsk {
                key,
                prog: id.0,
                arg,
                blank: Some(NUMBER_LEN),
                now: 0,
            };
            answer_run(alloc, notation, image, changes, registry, run, text)
        }
        Err(fault) => show_refusal(alloc, fault, text),
    }
}
