// Symbols as elements of the pairs over their field: the pairs whose second part is zero.
ghost use Rattle.std.specs.Prelude.{◌≡◌};
ghost use Rattle.kinds.specs.Embedding.{embedded};

use fields::{Field, Pair};

// No `From`, which would have to stand beside `Pair` in `fields`, apart from the laws of this map.
pub fn embedded<F: Field>(symbol: F) -> Pair<F>
    ensures { result ≡ embedded F.Field.ops symbol }
{
    Pair {
        lo: symbol,
        hi: F::zero(),
    }
}
