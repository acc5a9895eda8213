// The pairs over a field, as elements lo + hi × t with t × t = u × t + v.
ghost use Rattle.std.specs.Prelude.{◌≡◌};
ghost use Rattle.fields.specs.Pairs.{pairs};
ghost use Rattle.fields.specs.PairsLemmas.{pair_laws};

use crate::field::Field;
use crate::gf11::Gf11;
use crate::gf32::Gf32;
use crate::quadratic::Quadratic;

#[derive(Clone, Copy)]
pub struct Pair<F> {
    pub lo: F,
    pub hi: F,
}

// The 1,024 pairs over GF(32).
pub type Gf1024 = Pair<Gf32>;

// The 121 pairs over GF(11).
pub type Gf121 = Pair<Gf11>;

impl<F: Quadratic> Field for Pair<F> {
    ghost ops = { pairs F.Field.ops F.Quadratic.u F.Quadratic.v };

    ghost lawful = { pair_laws F.Field.ops F.Field.lawful F.Quadratic.u F.Quadratic.v F.Quadratic.irreducible F.Quadratic.small };

    fn order() -> u16 {
        F::order() * F::order()
    }

    fn element(number: u16) -> Option<Pair<F>> {
        let q = F::order();
        let lo = F::element(number % q)?;
        let hi = F::element(number / q)?;
        Some(Pair { lo, hi })
    }

    fn number(self) -> u16 {
        self.lo.number() + F::order() * self.hi.number()
    }

    fn zero() -> Pair<F> {
        Pair {
            lo: F::zero(),
            hi: F::zero(),
        }
    }

    fn one() -> Pair<F> {
        Pair {
            lo: F::one(),
            hi: F::zero(),
        }
    }

    fn add(self, other: Pair<F>) -> Pair<F> {
        Pair {
            lo: self.lo.add(other.lo),
            hi: self.hi.add(other.hi),
        }
    }

    fn neg(self) -> Pair<F> {
        Pair {
            lo: self.lo.neg(),
            hi: self.hi.neg(),
        }
    }

    fn mul(self, other: Pair<F>) -> Pair<F> {
        let high = self.hi.mul(other.hi);
        Pair {
            lo: self.lo.mul(other.lo).add(F::v().mul(high)),
            hi: self
                .lo
                .mul(other.hi)
                .add(self.hi.mul(other.lo))
                .add(F::u().mul(high)),
        }
    }

    // The conjugate divided by the norm.
    fn inverse(self) -> Option<Pair<F>> {
        let cross = F::u().mul(self.lo.mul(self.hi));
        let tail = F::v().mul(self.hi.mul(self.hi));
        let norm = self.lo.mul(self.lo).add(cross).add(tail.neg());
        let scale = norm.inverse()?;
        Some(Pair {
            lo: self.lo.add(F::u().mul(self.hi)).mul(scale),
            hi: self.hi.neg().mul(scale),
        })
    }
}
