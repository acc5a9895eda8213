// Kinds of shares: alphabet, fields, checksum code and allowed lengths behind one trait, with the laws of each kind proved.
#![tactic(auto)]

pub mod bytes;
pub mod digits;
pub mod embedding;
pub mod kind;
pub mod known;
pub mod letters;
pub mod long;
pub mod parts;
pub mod short;

pub use crate::bytes::ByteKind;
pub use crate::digits::Digits;
pub use crate::kind::Kind;
pub use crate::long::LongLetters;
pub use crate::short::ShortLetters;
