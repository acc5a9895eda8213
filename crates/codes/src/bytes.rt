// Bytes to payload symbols and back, for kinds with five bits to a symbol.
ghost use Rattle.std.specs.Prelude.{◌≡◌, ◌+◌, ◌*◌, ◌<◌, ◌≤◌, ◌++◌, length, drop};
ghost use Rattle.codes.specs.Bytes.{WholeBytes, bytes_in, decode_answer, encode_answer};
ghost use Rattle.kinds.specs.Bytes.{symbols_for};
ghost use Rattle.codes.specs.Shown.{shown_count};
ghost use Rattle.codes.specs.Writing.{Wrote};

use crate::bits::Bits;
use crate::refusals::Refusal;
use crate::writing::are_numbers;
use kinds::{ByteKind, Kind};

// How many symbols hold the bits of some bytes.
fn symbols_for(bytes: usize) -> usize
    requires { bytes ≤ 64 }
    ensures { result ≡ symbols_for bytes }
{
    (8 * bytes).div_ceil(5)
}

// How many whole bytes some symbols hold.
fn bytes_in(symbols: usize) -> usize
    requires { symbols ≤ 103 }
    ensures { result ≡ bytes_in symbols }
{
    5 * symbols / 8
}

// Bytes to the numbers of payload symbols, the first byte's highest bit first; answers how many symbols there are.
pub fn encode<K: ByteKind>(bytes: &[u8], out: &mut [u8]) -> Result<usize, Refusal>
    ensures wrote { Wrote (encode_answer K.ByteKind.takes bytes.now (length out.old)) out.old (shown_count result) out.new }
    ensures laws { WholeBytes K.Symbol.Field.ops K.Kind.code K.ByteKind.takes }
{
    if !K::takes_bytes(bytes.len()) {
        return Err(Refusal::Bytes);
    }
    let count = symbols_for(bytes.len());
    if out.len() < count {
        return Err(Refusal::Buffer);
    }
    Bits::<8>::of(bytes).fill(5, &mut out[..count]);
    Ok(count)
}

// The numbers of payload symbols to bytes; answers how many bytes there are.
pub fn decode<K: ByteKind>(symbols: &[u8], out: &mut [u8]) -> Result<usize, Refusal>
    ensures { Wrote (decode_answer K.Symbol.Field.ops K.Kind.code symbols.now (length out.old)) out.old (shown_count result) out.new }
{
    if !K::allows(symbols.len()) {
        return Err(Refusal::Payload);
    }
    if !are_numbers::<K>(symbols) {
        return Err(Refusal::Symbol);
    }
    let count = bytes_in(symbols.len());
    if out.len() < count {
        return Err(Refusal::Buffer);
    }
    Bits::<5>::of(symbols).fill(8, &mut out[..count]);
    Ok(count)
}
