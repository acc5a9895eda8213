// Lines of shares of any kind: reading, checking and writing them.
#![tactic(auto)]

mod bits;
pub mod bytes;
pub mod checking;
mod division;
pub mod known;
pub mod lone;
pub mod parts;
mod reading;
pub mod refusals;
pub mod texts;
mod writing;

pub use crate::bytes::{decode, encode};
pub use crate::checking::check;
pub use crate::lone::write_lone;
pub use crate::parts::{Line, Part};
pub use crate::refusals::Refusal;
pub use crate::texts::{symbol_character, symbol_number};
