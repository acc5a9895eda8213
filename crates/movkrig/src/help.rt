// What --help prints. The numbers and reasons of refusals are the library's own.
use codes::Refusal;
use std::fmt;

#[derive(Clone, Copy)]
pub struct Help;

impl fmt::Display for Help {
    fn fmt<W: fmt::Write>(&self, f: &mut fmt::Formatter<W>) -> fmt::Result {
        f.write_str(TEXT)?;
        for refusal in REFUSALS {
            let number = refusal.number();
            writeln!(f, "  {number}  {refusal}")?;
        }
        Ok(())
    }
}

// In the order in which they are tested.
const REFUSALS: [Refusal; 12] = [
    Refusal::Length,
    Refusal::Prefix,
    Refusal::Character,
    Refusal::MixedCase,
    Refusal::Checksum,
    Refusal::Threshold,
    Refusal::LoneIndex,
    Refusal::Identifier,
    Refusal::Payload,
    Refusal::Symbol,
    Refusal::Bytes,
    Refusal::Buffer,
];

const TEXT: &str = "\
movkrig: checks and writes lines of codex32 (BIP-93), and lines of digits

Usage: movkrig < COMMANDS
       movkrig --help

Standard input holds one command a line. Each is answered by one line on
standard output. Spaces and tabs separate words. Empty lines and lines that
begin with # are passed over. The exit status is 0 whatever was refused.

Commands:
  check KIND TEXT              is TEXT a line of this kind, and what is it
                               made of?
  lone KIND ID PAYLOAD [LEN]   write the line of a secret that is not shared
  encode KIND HEX [LEN]        bytes to payload, for short and long
  decode KIND CHARS [LEN]      payload to bytes, for short and long
ID, PAYLOAD and CHARS are characters of the kind's alphabet, small or capitals,
at most 1024; any other character is refused. HEX is pairs of hexadecimal
digits, small or capitals, for at most 1024 bytes. LEN is the length of the
buffer for the answer, in characters for lone and encode and in bytes for
decode: a number up to 1024, and 128 where it is left out.

Kinds:
  short    letters and digits after BIP-93; begins with MS1; 26 to 74 payload
           characters, 13 check characters
  long     the same alphabet; begins with MS1; 76 to 103 payload characters,
           15 check characters
  digits   the digits and X; begins with NP1; 4 to 40 payload characters, 14
           check characters
A line is its three characters in front, the threshold, an identifier of four
characters, the index, the payload and the check characters. A short or long
payload has as many characters as some number of whole bytes needs: 16 to 46
bytes for short, 47 to 64 for long. The letters of a line that is checked are
all small or all capitals.

Answers, with parts of a line exactly as they were typed:
  share threshold=2 identifier=NAME index=A payload=320Z..
           a share; as many as the threshold says give the secret back
  lone identifier=TEST payload=XX..
           the secret itself, not shared
  line MS10TESTSXX..
           the line that was written, in capitals
  payload XX..
           the characters of the payload, in capitals
  bytes 318c..
           the bytes in hexadecimal, in small letters
  refused N: REASON
           by the first rule below that is broken
  error: REASON
           the command makes no sense to the program; nothing has changed

Refusals, in the order in which they are tested:
";
