// Finite fields of at most 1,024 elements, with their laws proved.
#![tactic(auto)]

pub mod arithmetic;
pub mod below;
pub mod elements;
pub mod field;
pub mod gf11;
pub mod gf32;
pub mod pair;
pub mod quadratic;

pub use crate::elements::numbered;
pub use crate::field::Field;
pub use crate::gf11::Gf11;
pub use crate::gf32::Gf32;
pub use crate::pair::{Gf121, Gf1024, Pair};
pub use crate::quadratic::Quadratic;
