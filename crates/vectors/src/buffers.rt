// Calls that write into a buffer: where one is refused, the buffer is as it was.
use crate::tally::Tally;
use codes::Refusal;
use codes::Refusal::{Buffer, Bytes, Identifier, Payload, Symbol};
use kinds::{Digits, Kind, LongLetters, ShortLetters};

pub fn compare(tally: &mut Tally<'_>) -> anyhow::Result<()> {
    no_lines::<ShortLetters>(tally, &SHORT_LINES)?;
    no_lines::<LongLetters>(tally, &LONG_LINES)?;
    no_lines::<Digits>(tally, &DIGIT_LINES)?;
    coded(tally, &SHORT_SYMBOLS, codes::encode::<ShortLetters>)?;
    coded(tally, &LONG_SYMBOLS, codes::encode::<LongLetters>)?;
    coded(tally, &SHORT_BYTES, codes::decode::<ShortLetters>)?;
    coded(tally, &LONG_BYTES, codes::decode::<LongLetters>)
}

// An identifier and a payload that make no line, the room for one, and the refusal.
type NoLine = (&'static str, &'static [u8], &'static [u8], usize, Refusal);

const SHORT_LINES: [NoLine; 7] = [
    ("an identifier of three", &[0; 3], &[0; 26], 128, Identifier),
    ("an identifier of five", &[0; 5], &[0; 26], 128, Identifier),
    (
        "32 in an identifier",
        &[0, 0, 0, 32],
        &[0; 26],
        128,
        Identifier,
    ),
    ("27 payload letters", &[0; 4], &[0; 27], 128, Payload),
    ("75 payload letters", &[0; 4], &[0; 75], 128, Payload),
    ("32 in a payload", &[0; 4], &[32; 26], 128, Symbol),
    ("room for 47 of 48", &[0; 4], &[0; 26], 47, Buffer),
];

const LONG_LINES: [NoLine; 3] = [
    ("75 long payload letters", &[0; 4], &[0; 75], 128, Payload),
    ("104 payload letters", &[0; 4], &[0; 104], 128, Payload),
    ("room for 99 of 100", &[0; 4], &[0; 76], 99, Buffer),
];

const DIGIT_LINES: [NoLine; 5] = [
    (
        "11 in an identifier",
        &[11, 0, 0, 0],
        &[0; 4],
        128,
        Identifier,
    ),
    ("three payload digits", &[0; 4], &[0; 3], 128, Payload),
    ("11 in a payload", &[0; 4], &[0, 0, 0, 11], 128, Symbol),
    ("room for 26 of 27", &[0; 4], &[0; 4], 26, Buffer),
    ("no room", &[0; 4], &[0; 4], 0, Buffer),
];

fn no_lines<K: Kind>(tally: &mut Tally<'_>, calls: &[NoLine]) -> anyhow::Result<()> {
    for &(value, identifier, payload, room, refusal) in calls {
        tally.call(value, room, Err(refusal), |out| {
            codes::write_lone::<K>(identifier, payload, out)
        })?;
    }
    Ok(())
}

// What goes in, the room for what comes out, and what should come out: some answers fill their room, and some leave the
// rest of it as it was.
type Coded = (
    &'static str,
    &'static [u8],
    usize,
    Result<&'static [u8], Refusal>,
);

// 26 symbols that 16 bytes of ones become: the last has two bits to spare.
const ONES: [u8; 26] = [
    31, 31, 31, 31, 31, 31, 31, 31, 31, 31, 31, 31, 31, 31, 31, 31, 31, 31, 31, 31, 31, 31, 31, 31,
    31, 28,
];

const SHORT_SYMBOLS: [Coded; 7] = [
    ("15 bytes", &[1; 15], 128, Err(Bytes)),
    ("47 bytes, short", &[1; 47], 128, Err(Bytes)),
    ("no bytes", &[], 128, Err(Bytes)),
    ("room for 25 of 26 symbols", &[1; 16], 25, Err(Buffer)),
    ("16 bytes into 26", &[255; 16], 26, Ok(&ONES)),
    ("16 bytes into 27", &[255; 16], 27, Ok(&ONES)),
    ("16 bytes into 128", &[0; 16], 128, Ok(&[0; 26])),
];

const LONG_SYMBOLS: [Coded; 4] = [
    ("46 bytes, long", &[1; 46], 128, Err(Bytes)),
    ("65 bytes", &[1; 65], 128, Err(Bytes)),
    ("room for 102 of 103 symbols", &[1; 64], 102, Err(Buffer)),
    ("50 bytes into 80", &[255; 50], 80, Ok(&[31; 80])),
];

const SHORT_BYTES: [Coded; 6] = [
    ("27 symbols", &[1; 27], 128, Err(Payload)),
    ("76 symbols, short", &[1; 76], 128, Err(Payload)),
    ("the symbol 32", &[32; 26], 128, Err(Symbol)),
    ("room for 15 of 16 bytes", &[1; 26], 15, Err(Buffer)),
    ("26 symbols into 16", &[31; 26], 16, Ok(&[255; 16])),
    ("26 symbols into 17", &ONES, 17, Ok(&[255; 16])),
];

const LONG_BYTES: [Coded; 5] = [
    ("74 symbols, long", &[1; 74], 128, Err(Payload)),
    ("the symbol 255", &[255; 76], 128, Err(Symbol)),
    ("room for 63 of 64 bytes", &[1; 103], 63, Err(Buffer)),
    ("80 symbols into 50", &[31; 80], 50, Ok(&[255; 50])),
    ("103 symbols into 128", &[0; 103], 128, Ok(&[0; 64])),
];

fn coded<F: Fn(&[u8], &mut [u8]) -> Result<usize, Refusal>>(
    tally: &mut Tally<'_>,
    calls: &[Coded],
    code: F,
) -> anyhow::Result<()>
    requires { F.IsAlwaysCallable code }
{
    for &(value, input, room, expected) in calls {
        tally.call(value, room, expected, |out| code(input, out))?;
    }
    Ok(())
}
