// Refusals, each with the number by which documents and programs name it.
use codes::Refusal;

const NUMBERS: [(Refusal, u8); 12] = [
    (Refusal::Length, 11),
    (Refusal::Prefix, 12),
    (Refusal::Character, 13),
    (Refusal::MixedCase, 14),
    (Refusal::Checksum, 21),
    (Refusal::Threshold, 31),
    (Refusal::LoneIndex, 32),
    (Refusal::Identifier, 42),
    (Refusal::Payload, 43),
    (Refusal::Symbol, 53),
    (Refusal::Buffer, 81),
    (Refusal::Bytes, 91),
];

// Whether a call was refused for this reason, and the reason has its number.
pub fn is_refused<T: Drop>(answer: Result<T, Refusal>, expected: Refusal) -> bool {
    answer.err() == Some(expected) && NUMBERS.contains(&(expected, expected.number()))
}
