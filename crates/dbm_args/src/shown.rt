//! The arguments of a command line that a message may show.

use crate::options::Form;

/// An argument with its name in the help.
#[derive(Clone, Copy)]
pub struct Named<'a> {
    pub name: &'static str,
    pub word: &'a str,
}

/// The numeric arguments that were given.
#[derive(Clone, Copy)]
pub struct Numbers<'a> {
    pub timeout: Option<&'a str>,
    pub blank: Option<&'a str>,
    pub now: Option<&'a str>,
    pub expect: Option<&'a str>,
    pub amount: Option<&'a str>,
    pub min: Option<&'a str>,
    pub max: Option<&'a str>,
    pub workers: Option<&'a str>,
    pub max_output: Option<&'a str>,
    pub save_every: Option<&'a str>,
}

impl<'a> Numbers<'a> {
    /// No numeric arguments.
    pub fn none() -> Numbers<'static> {
        Numbers {
            timeout: None,
            blank: None,
            now: None,
            expect: None,
            amount: None,
            min: None,
            max: None,
            workers: None,
            max_output: None,
            save_every: None,
        }
    }
}

/// The subcommands for which some messages differ.
#[derive(Clone, Copy)]
pub enum Subject {
    /// `asm`.
    Asm,
    /// `disasm`.
    Disasm,
    /// `session`.
    Session,
    /// Any other subcommand.
    Other,
}

/// The arguments of a command line that a message may show.
#[derive(Clone, Copy)]
pub struct Words<'a> {
    pub subject: Subject,
    /// The database, if the subcommand has one.
    pub base: Option<&'a str>,
    /// The program's file, if the subcommand has one.
    pub file: Option<&'a str>,
    /// The file holds the image of a program to run or verify.
    pub image: bool,
    /// The hash treats the bytes of keys as unsigned.
    pub unsigned: bool,
    /// Pages have 8,192 bytes.
    pub wide: bool,
    /// The first argument that is read as bytes.
    pub first: Option<Named<'a>>,
    /// The second argument that is read as bytes.
    pub second: Option<Named<'a>>,
    /// The layout of printed values.
    pub layout: Option<&'a str>,
    pub numbers: Numbers<'a>,
}

impl<'a> Words<'a> {
    /// No arguments: the command line has no argument that a message may show, or could not be read.
    pub fn none() -> Words<'static> {
        Words {
            subject: Subject::Other,
            base: None,
            file: None,
            image: false,
            unsigned: false,
            wide: false,
            first: None,
            second: None,
            layout: None,
            numbers: Numbers::none(),
        }
    }

    /// The database of a command line and the format of its files, without other arguments.
    pub fn on(base: Option<&'a str>, form: Form) -> Words<'a> {
        Words {
            base,
            unsigned: form.unsigned,
            wide: form.wide,
            ..Words::none()
        }
    }
}
