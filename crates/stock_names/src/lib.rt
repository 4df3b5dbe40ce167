//! The stock programs by name, as codes, images and texts. Their meaning is proved in `stock_programs`.
#![tactic(auto)]

ghost use Rattle.std.specs.Prelude.{◌≡◌, IfOk, Some, string_bytes};
ghost use Rattle.bpf_asm.specs.Denotes.{Denotes};
ghost use Rattle.bpf_insn.specs.Code.{IsImage};
ghost use Rattle.stock_names.specs.Names.{IsFileOf, code_of_stock, name_of_stock, stock_named, word_named};

use bpf_asm::disassemble;
use bpf_insn::{Code, encode};
use std::alloc::{AllocError, Allocator};
use stock_programs::{
    bounded_add_code, bounded_counter_code, compare_and_set_code, counter_code, fenced_lease_code,
    lease_code, rate_limit_code, semaphore_code, sequence_code, token_bucket_code,
};

/// A stock program.
#[derive(Clone, Copy, Debug, PartialEq, Eq)]
pub enum Stock {
    /// Adds 1 to a number.
    Counter,
    /// Adds an amount to a number, up to a bound.
    BoundedAdd,
    /// Adds a signed amount to a number, within a floor and a ceiling.
    BoundedCounter,
    /// Replaces a number if it is the expected one.
    CompareAndSet,
    /// Takes a message if its number is greater than the last one's.
    Sequence,
    /// Leases a key to one owner at a time, until an end time.
    Lease,
    /// A lease with a token that rises with each new owner.
    FencedLease,
    /// Admits a number of runs in each window of time.
    RateLimit,
    /// Takes and gives back permits.
    Semaphore,
    /// Takes a cost from a bucket that refills over time.
    TokenBucket,
}

/// All stock programs, in listing order.
pub const ALL: [Stock; 10] = [
    Stock::Counter,
    Stock::BoundedAdd,
    Stock::BoundedCounter,
    Stock::CompareAndSet,
    Stock::Sequence,
    Stock::Lease,
    Stock::FencedLease,
    Stock::RateLimit,
    Stock::Semaphore,
    Stock::TokenBucket,
];

/// The names of all stock programs, as an error message lists them.
pub const NAMES: &str =
    "counter, bounded_add, bounded_counter, compare_and_set, sequence, lease, fenced_lease, rate_limit, semaphore, token_bucket";

/// A program argument: a file, a stock program, or an unknown name.
#[derive(Clone, Copy, Debug, PartialEq, Eq)]
pub enum ProgramWord {
    /// A file: the word does not begin with `@`.
    File,
    /// A stock program: the word is its name after an `@`.
    Stock(Stock),
    /// No stock program has the name after the `@`.
    Unknown,
}

/// Reads a program argument: `@counter` is a stock program, `counter.s` and `./@counter` are files.
pub fn read_word(word: &[u8]) -> ProgramWord
    ensures { result ≡ word_named word.now }
{
    let Some((first, name)) = word.split_first() else {
        return ProgramWord::File;
    };
    if *first != b'@' {
        return ProgramWord::File;
    }
    match Stock::named(name) {
        Some(stock) => ProgramWord::Stock(stock),
        None => ProgramWord::Unknown,
    }
}

impl Stock {
    /// Returns the program's name, as in `examples/NAME.s`. `named` finds the program by it.
    pub fn name(self) -> &'static str
        ensures name { result.now ≡ name_of_stock self }
        ensures own { stock_named result.now ≡ Some self }
    {
        match self {
            Stock::Counter => "counter",
            Stock::BoundedAdd => "bounded_add",
            Stock::BoundedCounter => "bounded_counter",
            Stock::CompareAndSet => "compare_and_set",
            Stock::Sequence => "sequence",
            Stock::Lease => "lease",
            Stock::FencedLease => "fenced_lease",
            Stock::RateLimit => "rate_limit",
            Stock::Semaphore => "semaphore",
            Stock::TokenBucket => "token_bucket",
        }
    }

    /// Returns the program with this name, or `None` if no program has it.
    #[tactic(auto, unfolding(crate::specs::Names::stock_named))]
    pub fn named(name: &[u8]) -> Option<Stock>
        ensures { result ≡ stock_named name.now }
    {
        ALL.iter()
            .copied()
            .find(|stock| stock.name().as_bytes() == name)
    }

    /// Makes the code of the program.
    ///
    /// # Errors
    /// `AllocError` if an allocation fails.
    pub fn code<A: Allocator>(self, alloc: A) -> Result<Code<A>, AllocError>
        ensures { IfOk result (λ code. code ≡ code_of_stock self) }
    {
        match self {
            Stock::Counter => counter_code(alloc),
            Stock::BoundedAdd => bounded_add_code(alloc),
            Stock::BoundedCounter => bounded_counter_code(alloc),
            Stock::CompareAndSet => compare_and_set_code(alloc),
            Stock::Sequence => sequence_code(alloc),
            Stock::Lease => lease_code(alloc),
            Stock::FencedLease => fenced_lease_code(alloc),
            Stock::RateLimit => rate_limit_code(alloc),
            Stock::Semaphore => semaphore_code(alloc),
            Stock::TokenBucket => token_bucket_code(alloc),
        }
    }

    /// Makes the program image: the bytes of the code, 8 per unit (RFC 9669, section 3).
    ///
    /// # Errors
    /// `AllocError` if an allocation fails.
    pub fn image<A: Allocator + Copy>(self, alloc: A) -> Result<Vec<u8, A>, AllocError>
        ensures { IfOk result (λ image. IsImage (code_of_stock self) image.items) }
    {
        encode(alloc, &self.code(alloc)?)
    }

    /// Makes a text of the program, one instruction per line. The assembler turns it back into the same code.
    ///
    /// # Errors
    /// `AllocError` if an allocation fails.
    pub fn text<A: Allocator + Copy>(self, alloc: A) -> Result<String<A>, AllocError>
        ensures { IfOk result (λ text. Denotes (string_bytes text) (code_of_stock self)) }
    {
        disassemble(alloc, &self.code(alloc)?)
    }

    /// Makes a program file: the image if `is_image`, otherwise the text.
    ///
    /// # Errors
    /// `AllocError` if an allocation fails.
    pub fn file<A: Allocator + Copy>(
        self,
        alloc: A,
        is_image: bool,
    ) -> Result<Vec<u8, A>, AllocError>
        ensures { IfOk result (λ file. IsFileOf is_image (code_of_stock self) file.items) }
    {
        if is_image {
            return self.image(alloc);
        }
        Ok(self.text(alloc)?.into_bytes())
    }
}
