//! Descriptions of the stock programs: their arguments and replies.

use std::alloc::{AllocError, Global};
use std::fmt::Write;
use stock_names::{ALL, Stock};

/// Lists the stock programs, one on each line.
///
/// # Errors
/// `AllocError` if allocation fails.
pub fn show_all(alloc: Global) -> Result<String, AllocError> {
    let mut text = String::new(alloc);
    for stock in &ALL {
        write_line(&mut text, *stock)?;
    }
    Ok(text)
}

/// Describes a stock program: its purpose, its record, its argument, its codes, its reply word, and an example.
///
/// # Errors
/// `AllocError` if allocation fails.
pub fn show_one(alloc: Global, stock: Stock) -> Result<String, AllocError> {
    let mut text = String::new(alloc);
    write_line(&mut text, stock)?;
    text.push('\n')?;
    text.push_str(table_of(stock))?;
    text.push_str(NOTES)?;
    Ok(text)
}

// Notes that apply to every program.
const NOTES: &str = "\n\
    Numbers have 8 bytes, the lowest first. What follows in a longer record or argument is left alone.\n\
    Code 4: the record or the argument has fewer bytes than that. Nothing changes, and the word is 0.\n\
    The last two words of the example are the length of a new record, and the time.\n";

// Writes the name and the purpose of a program.
fn write_line(text: &mut String, stock: Stock) -> Result<(), AllocError> {
    let (name, purpose) = (stock.name(), purpose_of(stock));
    writeln!(text, "@{name:<17}{purpose}")
}

fn purpose_of(stock: Stock) -> &'static str {
    match stock {
        Stock::Counter => "adds 1 to a number",
        Stock::BoundedAdd => "adds an amount to a number, up to a bound",
        Stock::BoundedCounter => "adds a signed amount, within a floor and a ceiling",
        Stock::CompareAndSet => "replaces a number if it is the expected one",
        Stock::Sequence => "takes a message if its number is greater than the last one's",
        Stock::Lease => "gives a key to one owner at a time, until an end",
        Stock::FencedLease => "a lease with a token that rises with each new owner",
        Stock::RateLimit => "admits a number of runs in each window of time",
        Stock::Semaphore => "takes and gives back permits, of which there is a number",
        Stock::TokenBucket => "takes a cost out of a bucket that fills as time goes by",
    }
}

fn table_of(stock: Stock) -> &'static str {
    match stock {
        Stock::Counter => {
            "record    8 bytes: the number\n\
            argument  none\n\
            code 1    counted\n\
            code 4    the record is too short\n\
            word      0\n\
            example   dbm run db hits @counter . 8 0 --text\n"
        }
        Stock::BoundedAdd => {
            "record    8 bytes: the number\n\
            argument  16 bytes: amount, bound\n\
            code 1    added\n\
            code 0    the sum would be above the bound\n\
            code 4    the record or the argument is too short\n\
            word      0\n\
            example   dbm run db seats @bounded_add u64:1,u64:100 8 0 --text\n"
        }
        Stock::BoundedCounter => {
            "record    8 bytes: the number, from 0 to 2^64 - 1\n\
            argument  24 bytes: amount (from 2^63 on it is negative: less 2^64), floor, ceiling\n\
            code 1    added\n\
            code 0    the sum would be outside floor and ceiling\n\
            code 4    the record or the argument is too short\n\
            word      the number after the run: with code 0 it is as it was\n\
            example   dbm run db stock @bounded_counter i64:5,u64:0,u64:100 8 0 --text\n"
        }
        Stock::CompareAndSet => {
            "record    8 bytes: the number\n\
            argument  16 bytes: expected number, new number\n\
            code 1    replaced\n\
            code 0    the number is another\n\
            code 4    the record or the argument is too short\n\
            word      the number before the run\n\
            example   dbm run db version @compare_and_set u64:0,u64:1 8 0 --text\n"
        }
        Stock::Sequence => {
            "record    24 bytes: number of the last message, its 16 bytes of text\n\
            argument  24 bytes: number and text of the message\n\
            code 1    taken\n\
            code 0    it is old: its number is not greater\n\
            code 4    the record or the argument is too short\n\
            word      the number in the record after the run\n\
            example   dbm run db feed @sequence u64:1,abcdefghijklmnop 24 0 --text\n"
        }
        Stock::Lease => {
            "record    16 bytes: owner, end\n\
            argument  16 bytes: who asks, for how long from now on (0 gives it back)\n\
            code 1    granted or renewed\n\
            code 2    given back, or it had ended: the pair is deleted\n\
            code 0    another owner has it\n\
            code 4    the record or the argument is too short\n\
            word      code 1: the end; code 0: the end of the other's lease; code 2: 0\n\
            example   dbm run db door @lease u64:7,u64:30 16 now --text\n"
        }
        Stock::FencedLease => {
            "record    24 bytes: owner, end, last token\n\
            argument  16 bytes: who asks, for how long from now on (0 gives it back)\n\
            code 1    granted, renewed or given back\n\
            code 0    another owner has it\n\
            code 3    all tokens are used up\n\
            code 4    the record or the argument is too short\n\
            word      code 1: the token, 0 if given back; code 0: the end of the other's lease; code 3: 0\n\
            example   dbm run db door @fenced_lease u64:7,u64:30 24 now --text\n"
        }
        Stock::RateLimit => {
            "record    16 bytes: begin of the window, number admitted\n\
            argument  16 bytes: length of a window, number that each admits\n\
            code 1    admitted\n\
            code 0    the window is full\n\
            code 4    the record or the argument is too short\n\
            word      code 1: how many more it admits; code 0: how long it still lasts\n\
            example   dbm run db ada @rate_limit u64:60,u64:100 16 now --text\n"
        }
        Stock::Semaphore => {
            "record    8 bytes: number of holders\n\
            argument  16 bytes: 1 takes a permit and 0 gives one back, number of permits\n\
            code 1    taken or given back\n\
            code 0    none is free, or nobody has one to give back\n\
            code 4    the record or the argument is too short\n\
            word      the number of holders after the run\n\
            example   dbm run db pool @semaphore u64:1,u64:4 8 0 --text\n"
        }
        Stock::TokenBucket => {
            "record    8 bytes: the time at which the bucket is full\n\
            argument  16 bytes: cost, capacity (as the time in which so much flows in)\n\
            code 1    taken\n\
            code 0    there is too little\n\
            code 4    the record or the argument is too short\n\
            word      code 1: how much is left; code 0: how long to wait, 2^64 - 1 if cost > capacity\n\
            example   dbm run db ada @token_bucket u64:5,u64:60 8 now --text\n"
        }
    }
}
