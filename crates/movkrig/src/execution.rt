// From a line of input to its answer: the command is read and carried out.
ghost use Rattle.movkrig.specs.Answers.{Executes, Replies, of_order, reply_to};
ghost use Rattle.movkrig.specs.Shown.{shown_order};

use crate::answers::Answer;
use crate::commands::Command;
use crate::errors::Failure;
use crate::names::{ByteKindName, KindName};
use crate::tasks::{of_bytes, of_lines};
use kinds::{Digits, LongLetters, ShortLetters};
use std::alloc::Global;

// The answer to a line; none to an empty line or a comment.
pub fn reply(heap: Global, line: &[u8]) -> Result<Option<Answer<'_>>, Failure<'_>>
    ensures { Replies result (reply_to line.now) }
{
    match Command::parse(line)? {
        Some(command) => Ok(Some(execute(heap, command)?)),
        None => Ok(None),
    }
}

// Each name stands for one code of the library: a code is a type, and no table holds types.
fn execute(heap: Global, command: Command<'_>) -> Result<Answer<'_>, Failure<'_>>
    ensures { Executes result (of_order (shown_order command.entry)) }
{
    match command {
        Command::OfLines { kind, task } => match kind {
            KindName::Short => of_lines::<ShortLetters>(heap, task),
            KindName::Long => of_lines::<LongLetters>(heap, task),
            KindName::Digits => of_lines::<Digits>(heap, task),
        },
        Command::OfBytes { kind, task } => match kind {
            ByteKindName::Short => of_bytes::<ShortLetters>(heap, task),
            ByteKindName::Long => of_bytes::<LongLetters>(heap, task),
        },
    }
}
