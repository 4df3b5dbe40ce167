//! Counts the lines of a script that are not commands.
ghost use Rattle.std.specs.Prelude.{◌≡◌, ◌+◌, ◌<◌, false, true};

/// The bad lines of a script: the lines that are not commands, and are answered `bad line`.
#[derive(Clone, Copy, Debug, PartialEq, Eq)]
pub struct BadLines {
    /// The line number, from 1 on, of the first bad line, or 0 if there is none.
    pub first: u64,
    pub count: u64,
}

impl BadLines {
    /// No bad lines.
    pub fn none() -> BadLines
        ensures { result ≡ record { first = 0; count = 0 } }
    {
        BadLines { first: 0, count: 0 }
    }
}

/// The number of lines of a script so far, and the bad ones among them.
#[derive(Clone, Copy, Debug)]
pub struct LineCount {
    lines: u64,
    bad: BadLines,
}

impl LineCount {
    /// No lines so far.
    pub fn new() -> LineCount
        ensures { result.bad ≡ record { first = 0; count = 0 } }
    {
        LineCount {
            lines: 0,
            bad: BadLines::none(),
        }
    }

    /// Counts the next line, which is bad if `is_command` is false.
    pub fn add(&mut self, is_command: bool)
        ensures command { is_command ≡ true → self.new.bad ≡ self.old.bad }
        ensures bad { is_command ≡ false → self.old.bad.count < 18446744073709551615 → self.new.bad.count ≡ self.old.bad.count + 1 }
    {
        self.lines = self.lines.saturating_add(1);
        if is_command {
            return;
        }
        if self.bad.count == 0 {
            self.bad.first = self.lines;
        }
        self.bad.count = self.bad.count.saturating_add(1);
    }

    /// Returns the bad lines so far.
    pub fn bad_lines(&self) -> BadLines
        ensures { result ≡ self.now.bad }
    {
        self.bad
    }
}
