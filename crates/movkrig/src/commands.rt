// The command language: one command a line, a name and the words that it takes.
ghost use Rattle.std.specs.Prelude.{◌≡◌, []};
ghost use Rattle.movkrig.specs.Commands.{take_check, take_lone, take_encode, take_decode, take_order, order_of};
ghost use Rattle.movkrig.specs.Shown.{ahead, shown_order, Reads, shown_reading};
ghost use Rattle.movkrig.specs.Words.{line_words};

use crate::errors::CommandError;
use crate::names::{ByteKindName, CommandName, KindName};
use crate::operands::Operands;
use crate::words::Words;

#[derive(Clone, Copy)]
pub enum Command<'a> {
    // What every kind can do.
    OfLines {
        kind: KindName,
        task: LineTask<'a>,
    },
    // What kinds can do whose payloads hold bytes.
    OfBytes {
        kind: ByteKindName,
        task: ByteTask<'a>,
    },
}

#[derive(Clone, Copy)]
pub enum LineTask<'a> {
    Check {
        text: &'a [u8],
    },
    Lone {
        identifier: &'a [u8],
        payload: &'a [u8],
        length: usize,
    },
}

#[derive(Clone, Copy)]
pub enum ByteTask<'a> {
    // The bytes in hexadecimal.
    Encode { bytes: &'a [u8], length: usize },
    Decode { payload: &'a [u8], length: usize },
}

impl<'a> Command<'a> {
    // The command of a line; none in an empty line or a comment.
    pub fn parse(line: &'a [u8]) -> Result<Option<Command<'a>>, CommandError<'a>>
        ensures { shown_reading result ≡ order_of (line_words line.now) }
    {
        let mut words = Words::of(line);
        match words.next() {
            None | Some([b'#', ..]) => Ok(None),
            Some(word) => {
                let command = CommandName::try_from(word)?;
                Ok(Some(Command::named(Operands { command, words })?))
            }
        }
    }

    // The command with this name and the words behind it. Four names and four lines: a table of functions is no plainer.
    fn named(operands: Operands<'a>) -> Result<Command<'a>, CommandError<'a>>
        ensures { Reads shown_order result [] (take_order operands.entry.command (ahead operands.entry)) }
    {
        match operands.command {
            CommandName::Check => Command::check(operands),
            CommandName::Lone => Command::lone(operands),
            CommandName::Encode => Command::encode(operands),
            CommandName::Decode => Command::decode(operands),
        }
    }

    // These four read much alike, yet no two read the same words: each is its own line of the grammar, and one function
    // for two would need a switch for each word that differs.
    fn check(mut operands: Operands<'a>) -> Result<Command<'a>, CommandError<'a>>
        ensures { Reads shown_order result [] (take_check operands.entry.command (ahead operands.entry)) }
    {
        let kind = operands.kind()?;
        let text = operands.word()?;
        operands.end()?;
        let task = LineTask::Check { text };
        Ok(Command::OfLines { kind, task })
    }

    fn lone(mut operands: Operands<'a>) -> Result<Command<'a>, CommandError<'a>>
        ensures { Reads shown_order result [] (take_lone operands.entry.command (ahead operands.entry)) }
    {
        let kind = operands.kind()?;
        let identifier = operands.symbols()?;
        let payload = operands.symbols()?;
        let length = operands.length()?;
        operands.end()?;
        let task = LineTask::Lone {
            identifier,
            payload,
            length,
        };
        Ok(Command::OfLines { kind, task })
    }

    fn encode(mut operands: Operands<'a>) -> Result<Command<'a>, CommandError<'a>>
        ensures { Reads shown_order result [] (take_encode operands.entry.command (ahead operands.entry)) }
    {
        let kind = operands.byte_kind()?;
        let bytes = operands.hexadecimal()?;
        let length = operands.length()?;
        operands.end()?;
        let task = ByteTask::Encode { bytes, length };
        Ok(Command::OfBytes { kind, task })
    }

    fn decode(mut operands: Operands<'a>) -> Result<Command<'a>, CommandError<'a>>
        ensures { Reads shown_order result [] (take_decode operands.entry.command (ahead operands.entry)) }
    {
        let kind = operands.byte_kind()?;
        let payload = operands.symbols()?;
        let length = operands.length()?;
        operands.end()?;
        let task = ByteTask::Decode { payload, length };
        Ok(Command::OfBytes { kind, task })
    }
}
