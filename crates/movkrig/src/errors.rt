// Why a command has no result.
ghost use Rattle.std.specs.Prelude.{◌≡◌};
ghost use Rattle.movkrig.specs.declared.errors.Failure.TheVariants as failure;

use crate::lengths::MOST_LENGTH;
use crate::names::{ByteKindName, CommandName, KindName};
use crate::printable::Printable;
use codes::Refusal;
use std::alloc::AllocError;
use std::error::Error;
use std::fmt;

#[derive(Clone, Copy, Debug)]
pub enum Failure<'a> {
    // The program itself cannot make sense of the line.
    Command(CommandError<'a>),
    // The library refuses what the line asks for.
    Refused(Refusal),
    OutOfMemory(AllocError),
}

// By hand: the `From` of a derive has no contract, and `reply` needs what each gives.
impl<'a> From<CommandError<'a>> for Failure<'a> {
    ghost from_gives = { λ e f. f ≡ failure.Command e };

    fn from(error: CommandError<'a>) -> Failure<'a> {
        Failure::Command(error)
    }
}

impl From<Refusal> for Failure<'_> {
    ghost from_gives = { λ e f. f ≡ failure.Refused e };

    fn from(error: Refusal) -> Self {
        Failure::Refused(error)
    }
}

impl From<AllocError> for Failure<'_> {
    ghost from_gives = { λ e f. f ≡ failure.OutOfMemory e };

    fn from(error: AllocError) -> Self {
        Failure::OutOfMemory(error)
    }
}

// By hand: no derive calls `number`.
impl fmt::Display for Failure<'_> {
    fn fmt<W: fmt::Write>(&self, f: &mut fmt::Formatter<W>) -> fmt::Result {
        match self {
            Failure::Command(error) => write!(f, "error: {error}"),
            Failure::Refused(refusal) => {
                let number = refusal.number();
                write!(f, "refused {number}: {refusal}")
            }
            Failure::OutOfMemory(error) => write!(f, "{error}"),
        }
    }
}

impl Error for Failure<'_> {}

#[derive(Clone, Copy, Debug)]
pub enum CommandError<'a> {
    UnknownCommand {
        word: &'a [u8],
    },
    UnknownKind {
        word: &'a [u8],
    },
    // A command on bytes, at a kind whose payloads hold none.
    NoBytes {
        command: CommandName,
    },
    MissingWord {
        command: CommandName,
    },
    SurplusWord {
        command: CommandName,
        word: &'a [u8],
    },
    // A word with more characters than this.
    LongWord {
        most: usize,
    },
    NoHexadecimal {
        word: &'a [u8],
    },
    NoLength {
        word: &'a [u8],
    },
}

// By hand: words of the input go through `Printable`.
impl fmt::Display for CommandError<'_> {
    fn fmt<W: fmt::Write>(&self, f: &mut fmt::Formatter<W>) -> fmt::Result {
        match *self {
            CommandError::UnknownCommand { word } => {
                let word = Printable(word);
                let expected = CommandName::EXPECTED;
                write!(f, "unknown command '{word}': expected {expected}")
            }
            CommandError::UnknownKind { word } => {
                let word = Printable(word);
                let expected = KindName::EXPECTED;
                write!(f, "unknown kind '{word}': expected {expected}")
            }
            CommandError::NoBytes { command } => {
                let usage = command.usage();
                let kinds = ByteKindName::ALL;
                write!(f, "digits hold no bytes: {usage} is for {kinds}")
            }
            CommandError::MissingWord { command } => {
                let usage = command.usage();
                write!(f, "missing word: expected {usage}")
            }
            CommandError::SurplusWord { command, word } => {
                let word = Printable(word);
                let usage = command.usage();
                write!(f, "surplus word '{word}': expected {usage}")
            }
            CommandError::LongWord { most } => {
                write!(f, "long word: expected at most {most} characters")
            }
            CommandError::NoHexadecimal { word } => {
                let word = Printable(word);
                write!(f, "no bytes '{word}': expected pairs of hexadecimal digits")
            }
            CommandError::NoLength { word } => {
                let word = Printable(word);
                write!(
                    f,
                    "no length '{word}': expected a number up to {MOST_LENGTH}"
                )
            }
        }
    }
}
