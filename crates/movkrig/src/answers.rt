// Answers, and how each is written on its line.
use crate::hexadecimal::Hexadecimal;
use crate::printable::Printable;
use codes::Line;
use std::fmt;

#[derive(Drop)]
pub enum Answer<'a> {
    // The parts of a line that was checked.
    Line(Line<'a>),
    // A line that was written.
    Written(Vec<u8>),
    Payload(Vec<u8>),
    Bytes(Vec<u8>),
}

impl fmt::Display for Answer<'_> {
    fn fmt<W: fmt::Write>(&self, f: &mut fmt::Formatter<W>) -> fmt::Result {
        match self {
            Answer::Line(line) => show_line(*line, f),
            Answer::Written(line) => {
                let line = Printable(line.as_slice());
                write!(f, "line {line}")
            }
            Answer::Payload(payload) => {
                let payload = Printable(payload.as_slice());
                write!(f, "payload {payload}")
            }
            Answer::Bytes(bytes) => {
                let bytes = Hexadecimal(bytes.as_slice());
                write!(f, "bytes {bytes}")
            }
        }
    }
}

// The parts of a line, as they were typed.
fn show_line<W: fmt::Write>(line: Line<'_>, f: &mut fmt::Formatter<W>) -> fmt::Result {
    match line {
        Line::Lone {
            identifier,
            payload,
        } => {
            let identifier = Printable(identifier.text);
            let payload = Printable(payload.text);
            write!(f, "lone identifier={identifier} payload={payload}")
        }
        Line::Share {
            threshold,
            identifier,
            index,
            payload,
        } => {
            let identifier = Printable(identifier.text);
            let index = Printable(index.text);
            let payload = Printable(payload.text);
            write!(
                f,
                "share threshold={threshold} identifier={identifier} index={index} payload={payload}"
            )
        }
    }
}
