// The numbers below Q as a field. Two such fields differ in the number that is a sum, an opposite, a product or a reciprocal;
// the element is its remainder.
ghost use Rattle.std.specs.Prelude.{◌≡◌};
ghost use Rattle.fields.specs.Field.{FieldLaws};
ghost use Rattle.fields.specs.Below.{Rules, below, residue};

use crate::below::Below;
use crate::field::Field;

pub trait Arithmetic<const Q: u8> {
    ghost rules: { Rules Q };

    // What each `impl` must prove.
    ghost lawful: { FieldLaws (below rules) };

    fn sum(x: Below<Q>, y: Below<Q>) -> u8
        ensures { result ≡ rules.sum x.entry y.entry };

    fn opposite(x: Below<Q>) -> u8
        ensures { result ≡ rules.opposite x.entry };

    fn product(x: Below<Q>, y: Below<Q>) -> u8
        ensures { result ≡ rules.product x.entry y.entry };

    // Any number at zero.
    fn reciprocal(x: Below<Q>) -> u8
        ensures { result ≡ rules.reciprocal x.entry };
}

// The remainder of a number.
fn remainder<const Q: u8>(n: u8) -> Below<Q>
where
    Below<Q>: Arithmetic<Q>,
    ensures { result ≡ residue ⟦<Below<Q> as Arithmetic<Q>>⟧.rules.positive n }
{
    Below { n: n % Q }
}

impl<const Q: u8> Field for Below<Q>
where
    Below<Q>: Arithmetic<Q>,
{
    ghost ops = { below ⟦<Below<Q> as Arithmetic<Q>>⟧.rules };

    ghost lawful = { ⟦<Below<Q> as Arithmetic<Q>>⟧.lawful };

    fn order() -> u16 {
        Q as u16
    }

    // No `then`: its closure would have a result that names Q, which the borrow checker does not cover.
    fn element(number: u16) -> Option<Below<Q>> {
        if number < Q as u16 {
            Some(remainder(number as u8))
        } else {
            None
        }
    }

    fn number(self) -> u16 {
        self.n as u16
    }

    fn zero() -> Below<Q> {
        remainder(0)
    }

    fn one() -> Below<Q> {
        remainder(1)
    }

    fn add(self, other: Below<Q>) -> Below<Q> {
        remainder(Self::sum(self, other))
    }

    fn neg(self) -> Below<Q> {
        remainder(Self::opposite(self))
    }

    fn mul(self, other: Below<Q>) -> Below<Q> {
        remainder(Self::product(self, other))
    }

    fn inverse(self) -> Option<Below<Q>> {
        (self.n != 0).then_some(remainder(Self::reciprocal(self)))
    }
}
