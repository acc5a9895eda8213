// Elements from numbers that are known to be small enough, as those of a table.
ghost use Rattle.std.specs.Prelude.{◌≡◌};
ghost use Rattle.fields.specs.Numbered.{numbered};

use crate::field::Field;

// The element with this number; zero where there is none.
// Zero and no `None`: it could never fail, and a caller would have a branch for what does not come.
pub fn numbered<F: Field>(number: u16) -> F
    ensures { result ≡ numbered F.Field.ops number }
{
    F::element(number).unwrap_or(F::zero())
}
