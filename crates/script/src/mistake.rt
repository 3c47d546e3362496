// What can be wrong with a line of a script.
ghost use Rattle.std.specs.Prelude.{◌≡◌, Some};
ghost use Rattle.script.specs.declared.mistake.Mistake.TheVariants.{OutOfMemory};
ghost use Rattle.script.specs.Mistakes.{text_of};

use std::alloc::AllocFailed;
use std::fmt;

/// What is wrong with a line of a script.
#[derive(Clone, Copy, PartialEq, Eq, Debug)]
pub enum Mistake {
    /// The first word names no command.
    UnknownCommand,
    /// The command wants more words.
    MissingWord,
    /// The command wants fewer words.
    ExtraWord,
    /// The word where a turn rule is wanted names none.
    UnknownRule,
    /// The word where a number is wanted is not made of digits.
    NotANumber,
    /// The number is too large for what it stands for.
    NumberTooLarge,
    /// The word where a hop is wanted has no dot.
    NotAHop,
    /// The word where a measure is wanted names none.
    UnknownMeasure,
    /// The word for a beat names none.
    UnknownBeat,
    /// The word where bytes are wanted is not made of pairs of digits in base sixteen.
    NotBytes,
    /// The command wants a mesh, and none has been made.
    NoMesh,
    /// The command wants a grid, and none has been made.
    NoGrid,
    /// There is no memory for what the line says.
    OutOfMemory,
}

impl Mistake {
    /// What is wrong, in a few words.
    pub fn text(self) -> &'static str
        ensures { result.now ≡ text_of self }
    {
        match self {
            Mistake::UnknownCommand => "unknown command",
            Mistake::MissingWord => "a word is missing",
            Mistake::ExtraWord => "a word too many",
            Mistake::UnknownRule => "unknown rule",
            Mistake::NotANumber => "not a number",
            Mistake::NumberTooLarge => "number too large",
            Mistake::NotAHop => "not a hop",
            Mistake::UnknownMeasure => "unknown measure",
            Mistake::UnknownBeat => "unknown beat",
            Mistake::NotBytes => "not bytes",
            Mistake::NoMesh => "no mesh",
            Mistake::NoGrid => "no grid",
            Mistake::OutOfMemory => "out of memory",
        }
    }
}

/// What is wrong, in a few words.
impl fmt::Display for Mistake {
    ghost output = { λ mistake. Some (text_of mistake) };

    fn fmt<W: fmt::Write>(&self, f: &mut fmt::Formatter<W>) -> fmt::Result {
        f.write_str(self.text())
    }
}

/// There was no memory for a list of the line.
impl<T: Drop> From<AllocFailed<T>> for Mistake {
    ghost from_gives = { λ _ mistake. mistake ≡ OutOfMemory };

    fn from(_refused: AllocFailed<T>) -> Mistake {
        Mistake::OutOfMemory
    }
}
