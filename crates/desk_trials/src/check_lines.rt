//! The lines of a file, by their numbers in the file.
ghost use Rattle.std.specs.Prelude.{◌+◌, ◌≤◌, length};
ghost use Rattle.sheets.specs.Limits.{file_most};

use sheets::first_line;

/// A line of a file.
#[derive(Clone, Copy)]
pub struct FileLine<'a> {
    /// Its number in the file, from 1, counting blank lines.
    pub number: usize,
    /// Its bytes, without its LF and a CR before that.
    pub text: &'a [u8],
    /// The file from this line on.
    pub from: &'a [u8],
    /// What follows it.
    pub rest: &'a [u8],
    pub ghost few: { number + length rest.now ≤ file_most },
}

/// The lines of a file that are still to come.
#[derive(Drop)]
pub struct FileLines<'a> {
    /// How many came before them.
    pub passed: usize,
    /// Their text.
    pub rest: &'a [u8],
    pub ghost few: { passed + length rest.now ≤ file_most },
}

impl<'a> Iterator for FileLines<'a> {
    ghost use Rattle.std.specs.Iterator.{at_most};
    ghost use Rattle.desk_trials.specs.FileLines.{TakesFileLine};

    type Item = FileLine<'a>;

    ghost next_gives = { TakesFileLine };

    ghost remaining = { λ lines. at_most (length lines.rest.now) };

    fn next(&mut self) -> Option<FileLine<'a>> {
        self.take_line()
    }
}

impl<'a> FileLines<'a> {
    ghost use Rattle.std.specs.Prelude.{◌<◌, IfSome};
    ghost use Rattle.desk_trials.specs.FileLines.{TakesFileLine};

    /// Takes the next line and returns it; `None` if none is left.
    pub fn take_line(&mut self) -> Option<FileLine<'a>>
        ensures taken { TakesFileLine self.old result self.new }
        ensures shorter { IfSome result (λ _.
            length self.new.rest.now < length self.old.rest.now) }
    {
        let from = self.rest;
        let piece = first_line(from)?;
        self.passed += 1;
        self.rest = piece.rest;
        Some(FileLine {
            number: self.passed,
            text: piece.line,
            from,
            rest: piece.rest,
        })
    }
}
