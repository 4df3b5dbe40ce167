//! The values of options that several subcommands take.
ghost use Rattle.std.specs.Prelude.{◌≡◌};
ghost use Rattle.dbm_args.specs.Heads.{head_on};

/// The format of a database's files, from `--unsigned` and `--wide`.
#[derive(Clone, Copy, Debug)]
pub struct Form {
    /// The hash treats the bytes of keys as unsigned.
    pub unsigned: bool,
    /// Pages have 8,192 bytes.
    pub wide: bool,
}

/// The notation of bytes in arguments and lines, from `--text` and `--as`.
#[derive(Clone, Copy, Debug)]
pub struct NotationOptions<'a> {
    /// Bytes are text, not hex.
    pub text: bool,
    /// The layout of printed values. If it is given, all other bytes are text.
    pub layout: Option<&'a str>,
}

/// The head of a subcommand: its files, and the notation of the bytes in its arguments and lines.
#[derive(Clone, Copy)]
pub struct Head<'a> {
    /// The database whose files are read.
    pub base: Option<&'a str>,
    /// The program's file.
    pub file: Option<&'a str>,
    /// The program's file is a program image, not a text.
    pub image: bool,
    /// The subcommand may change the database, which is saved afterwards.
    pub writes: bool,
    pub notation: NotationOptions<'a>,
}

impl<'a> Head<'a> {
    /// The head of a subcommand that only reads: its database, if it has one, no program file, and the default notation.
    pub fn on(base: Option<&'a str>) -> Head<'a>
        ensures { result ≡ head_on base.entry }
    {
        Head {
            base,
            file: None,
            image: false,
            writes: false,
            notation: NotationOptions {
                text: false,
                layout: None,
            },
        }
    }
}

/// The options for opening a database's files: `--timeout`, `--must-exist`, `--quick`, `--verbose` and `--insist`.
#[derive(Clone, Copy)]
pub struct Access<'a> {
    /// The longest wait for the lock, in seconds. `None` waits without limit.
    pub timeout: Option<&'a str>,
    /// A missing database is an error instead of being created.
    pub must_exist: bool,
    /// Reads only the directory and the page of the key, if that is enough.
    pub quick: bool,
    /// Reports who holds the lock if the command has to wait for it.
    pub verbose: bool,
    /// Opens files as wide even if their pages look small.
    pub insist: bool,
}

/// The unit of the time of day, counted since the beginning of 1970 in UTC.
#[derive(Clone, Copy)]
pub enum TimeUnit {
    Seconds,
    Milliseconds,
}
