// What a command asks for, done under the code of its kind. The library has no heap: it writes into a buffer that is made
// here, of the length that was asked for, and says how much of it is the answer.
ghost use Rattle.std.specs.Prelude.{ℕ, List};
ghost use Rattle.std.specs.Fn.{FnOnceReturnsAtMut};
ghost use Rattle.codes.specs.Bytes.{decode_answer, encode_answer};
ghost use Rattle.codes.specs.Reading.{Answer as Outcome};
ghost use Rattle.codes.specs.Writing.{lone_answer};
ghost use Rattle.movkrig.specs.Answers.{EnoughMemory, Executes, Reply, Writes, bytes, line, of_byte_task, of_line_task, payload};
ghost use Rattle.movkrig.specs.Hexadecimal.{hex_bytes};
ghost use Rattle.movkrig.specs.Symbols.{characters_of, numbers_of};
ghost use Rattle.movkrig.specs.Writing.{AlwaysWrites};

use crate::answers::Answer;
use crate::commands::{ByteTask, LineTask};
use crate::errors::Failure;
use crate::hexadecimal::bytes_of;
use crate::symbols::{characters, numbers};
use codes::Refusal;
use kinds::{ByteKind, Kind};
use std::alloc::Global;

pub fn of_lines<K: Kind>(heap: Global, task: LineTask<'_>) -> Result<Answer<'_>, Failure<'_>>
    ensures executes { Executes result (of_line_task K.Symbol.Field.ops K.Kind.code task.entry) }
    ensures memory { EnoughMemory task.entry result }
{
    match task {
        LineTask::Check { text } => Ok(Answer::Line(codes::check::<K>(text)?)),
        LineTask::Lone {
            identifier,
            payload,
            length,
        } => Ok(Answer::Written(lone::<K>(heap, identifier, payload, length)?)),
    }
}

pub fn of_bytes<K: ByteKind>(heap: Global, task: ByteTask<'_>) -> Result<Answer<'_>, Failure<'_>>
    ensures { Executes result (of_byte_task K.Symbol.Field.ops K.Kind.code K.ByteKind.takes task.entry) }
{
    match task {
        ByteTask::Encode { bytes, length } => {
            let symbols = encode::<K>(heap, bytes, length)?;
            Ok(Answer::Payload(characters::<K>(heap, symbols.as_slice())?))
        }
        ByteTask::Decode { payload, length } => {
            Ok(Answer::Bytes(decode::<K>(heap, payload, length)?))
        }
    }
}

// What a call writes at the front of a buffer of a length; it answers how much that is. Heap and length stand beside other
// words in each caller: a struct of the two would be made to be taken apart.
fn buffered<'e, F: FnOnce(&mut [u8]) -> Result<usize, Refusal>>(
    heap: Global,
    length: usize,
    call: F,
) -> Result<Vec<u8>, Failure<'e>>
    requires { F.IsAlwaysCallable call }
    ensures { (show : List ℕ → Reply) (a : Outcome (List ℕ)) → AlwaysWrites (FnOnceReturnsAtMut F.FnOnce call) length a → Writes show result a }
{
    let mut out = vec![in heap; 0u8; length]?;
    let count = call(out.as_mut_slice())?;
    out.truncate(count);
    Ok(out)
}

// The line of a lone secret.
fn lone<K: Kind>(
    heap: Global,
    identifier: &[u8],
    payload: &[u8],
    length: usize,
) -> Result<Vec<u8>, Failure<'static>>
    ensures { Writes line result (lone_answer K.Symbol.Field.ops K.Kind.code (numbers_of K.Kind.code identifier.now) (numbers_of K.Kind.code payload.now) length) }
{
    let identifier = numbers::<K>(heap, identifier)?;
    let payload = numbers::<K>(heap, payload)?;
    buffered(heap, length, |out| {
        codes::write_lone::<K>(identifier.as_slice(), payload.as_slice(), out)
    })
}

// The symbols of the payload that holds bytes, which are given in hexadecimal.
fn encode<K: ByteKind>(
    heap: Global,
    bytes: &[u8],
    length: usize,
) -> Result<Vec<u8>, Failure<'static>>
    ensures { Writes (λ symbols. payload (characters_of K.Kind.code symbols)) result (encode_answer K.ByteKind.takes (hex_bytes bytes.now) length) }
{
    let bytes = bytes_of(heap, bytes)?;
    buffered(
        heap,
        length,
        |out| codes::encode::<K>(bytes.as_slice(), out),
    )
}

// The bytes that a payload holds.
fn decode<K: ByteKind>(
    heap: Global,
    payload: &[u8],
    length: usize,
) -> Result<Vec<u8>, Failure<'static>>
    ensures { Writes bytes result (decode_answer K.Symbol.Field.ops K.Kind.code (numbers_of K.Kind.code payload.now) length) }
{
    let payload = numbers::<K>(heap, payload)?;
    buffered(
        heap,
        length,
        |out| codes::decode::<K>(payload.as_slice(), out),
    )
}
