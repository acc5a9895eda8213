// The words behind a command's name, each read as what the command takes it for.
ghost use Rattle.std.specs.Prelude.{[]};
ghost use Rattle.movkrig.specs.Commands.{take_word, take_kind, take_byte_kind, take_bounded, take_hexadecimal, take_length, take_end};
ghost use Rattle.movkrig.specs.Shown.{ahead, Reads, Step};

use crate::errors::CommandError;
use crate::hexadecimal::is_hexadecimal;
use crate::lengths::{USUAL_LENGTH, read_length};
use crate::names::{ByteKindName, CommandName, KindName};
use crate::words::Words;

// How many characters of symbols a word may have.
const MOST_SYMBOLS: usize = 1024;

// How many digits of bytes a word may have: two for each of as many bytes.
const MOST_HEXADECIMAL: usize = 2048;

// The command is there for what an error says of it.
#[derive(Clone, Copy)]
pub struct Operands<'a> {
    pub command: CommandName,
    pub words: Words<'a>,
}

impl<'a> Operands<'a> {
    // A word that may be anything.
    pub fn word(&mut self) -> Result<&'a [u8], CommandError<'a>>
        ensures { Step (λ x. x.now) take_word self.old self.new result }
    {
        self.words.next().ok_or(CommandError::MissingWord {
            command: self.command,
        })
    }

    pub fn kind(&mut self) -> Result<KindName, CommandError<'a>>
        ensures { Step (λ k. k) take_kind self.old self.new result }
    {
        KindName::try_from(self.word()?)
    }

    // A kind whose payloads hold bytes.
    pub fn byte_kind(&mut self) -> Result<ByteKindName, CommandError<'a>>
        ensures { Step (λ k. k) take_byte_kind self.old self.new result }
    {
        self.kind()?.with_bytes().ok_or(CommandError::NoBytes {
            command: self.command,
        })
    }

    // A word of at most so many characters.
    fn bounded(&mut self, most: usize) -> Result<&'a [u8], CommandError<'a>>
        ensures { Step (λ x. x.now) (λ c. take_bounded c most) self.old self.new result }
    {
        let word = self.word()?;
        if word.len() <= most {
            Ok(word)
        } else {
            Err(CommandError::LongWord { most })
        }
    }

    // Characters of symbols, or others.
    pub fn symbols(&mut self) -> Result<&'a [u8], CommandError<'a>>
        ensures { Step (λ x. x.now) (λ c. take_bounded c 1024) self.old self.new result }
    {
        self.bounded(MOST_SYMBOLS)
    }

    // Bytes in hexadecimal.
    pub fn hexadecimal(&mut self) -> Result<&'a [u8], CommandError<'a>>
        ensures { Step (λ x. x.now) take_hexadecimal self.old self.new result }
    {
        let word = self.bounded(MOST_HEXADECIMAL)?;
        if is_hexadecimal(word) {
            Ok(word)
        } else {
            Err(CommandError::NoHexadecimal { word })
        }
    }

    // The length of a buffer, which may be left out.
    pub fn length(&mut self) -> Result<usize, CommandError<'a>>
        ensures { Step (λ n. n) (λ _. take_length) self.old self.new result }
    {
        match self.words.next() {
            None => Ok(USUAL_LENGTH),
            Some(word) => read_length(word).ok_or(CommandError::NoLength { word }),
        }
    }

    // No word is left.
    pub fn end(mut self) -> Result<(), CommandError<'a>>
        ensures { Reads (λ u. u) result [] (take_end self.entry.command (ahead self.entry)) }
    {
        let command = self.command;
        match self.words.next() {
            None => Ok(()),
            Some(word) => Err(CommandError::SurplusWord { command, word }),
        }
    }
}
