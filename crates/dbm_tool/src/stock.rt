//! Finds the stock program that a command line names.
ghost use Rattle.std.specs.Prelude.{◌≡◌, ◌⊎◌, IfOk, IfErr, option_map};
ghost use Rattle.dbm_command_line.specs.Wishes.{wish_file, head_of};
ghost use Rattle.dbm_messages.specs.declared.fault.ServeFault.TheVariants.{NoMemory, NoStock};
ghost use Rattle.stock_names.specs.declared.ProgramWord.TheVariants.{Unknown};
ghost use Rattle.dbm_tool.specs.Stock.{IsStockFile, file_in, word_in};

use crate::printing::print_lines;
use dbm_command_line::Wish;
use dbm_messages::ServeFault;
use dbm_programs::Programs;
use std::alloc::Global;
use std::fs::File;
use std::rt::Runtime;
use stock_names::{ProgramWord, read_word};

/// Returns the file that the argument for a program names, or `None` if there is no argument or it begins with `@`.
pub fn file_in<'a>(word: Option<&'a str>) -> Option<&'a str>
    ensures { option_map (λ text. text.now) result ≡ file_in (option_map (λ text. text.now) word.entry) }
{
    match read_word(word?.as_bytes()) {
        ProgramWord::File => word,
        _ => None,
    }
}

/// Returns the argument for a program, or `None` if the argument names a stock program.
pub fn file_or_unknown<'a>(word: Option<&'a str>) -> Option<&'a str> {
    match read_word(word?.as_bytes()) {
        ProgramWord::Stock(_) => None,
        _ => word,
    }
}

/// Checks the argument for a program, before the files of the request are taken.
///
/// # Errors
/// `NoStock` if the argument begins with `@` and no stock program has the name.
pub fn check_program(wish: &Wish<'_>) -> Result<(), ServeFault>
    ensures { IfErr result (λ fault. (fault ≡ NoStock) × (word_in (wish_file wish.now) ≡ Unknown)) }
{
    let Some(word) = wish.head().file else {
        return Ok(());
    };
    match read_word(word.as_bytes()) {
        ProgramWord::Unknown => Err(ServeFault::NoStock),
        ProgramWord::File | ProgramWord::Stock(_) => Ok(()),
    }
}

/// Returns the bytes of the stock program that a request names: the image if the request takes an image, otherwise the text. Returns `None`
/// if the request names a file or no program.
///
/// # Errors
/// `NoStock` if no stock program has the name, and `NoMemory` if allocation fails.
pub fn stock_file(alloc: Global, wish: &Wish<'_>) -> Result<Option<Vec<u8>>, ServeFault>
    ensures ok { IfOk result (λ file. IsStockFile (head_of wish.now).image (word_in (wish_file wish.now)) (option_map (λ bytes. bytes.items) file)) }
    ensures fault { IfErr result (λ fault. (fault ≡ NoMemory) ⊎ ((fault ≡ NoStock) × (word_in (wish_file wish.now) ≡ Unknown))) }
{
    let head = wish.head();
    let Some(word) = head.file else {
        return Ok(None);
    };
    match read_word(word.as_bytes()) {
        ProgramWord::File => Ok(None),
        ProgramWord::Unknown => Err(ServeFault::NoStock),
        ProgramWord::Stock(stock) => Ok(Some(stock.file(alloc, head.image)?)),
    }
}

/// Prints the stock programs, or one of them. Returns `false` if standard output is a pipe whose reader is gone.
///
/// # Errors
/// `NoStock` if no stock program has the name, `Write` if the text cannot be printed, and `NoMemory` if allocation fails.
pub fn print_programs<R: Runtime<File = File> + AllocGlobal>(
    rt: &R,
    programs: &Programs<'_>,
) -> Result<bool, ServeFault> {
    let Some(text) = programs.text(rt.alloc())? else {
        return Err(ServeFault::NoStock);
    };
    print_lines(rt, text.as_bytes())
}
