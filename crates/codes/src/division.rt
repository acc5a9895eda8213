// Long division by a kind's generator, one symbol at a time.
ghost use Rattle.std.specs.Prelude.{◌≡◌, true, List, map, take, replicate};
ghost use Rattle.codes.specs.Division.{divided, lessened, remainder, shifted};
ghost use Rattle.codes.specs.Texts.{same_numbers};
ghost use Rattle.codes.specs.Writing.{all_numbers};
ghost use Rattle.fields.specs.Field.{minus};
ghost use Rattle.fields.specs.Numbered.{numbered};
ghost use Rattle.kinds.specs.Words.{numbers};

use fields::{Field, numbered};
use kinds::Kind;
use std::marker::{Model, PhantomData};

// The remainder of what came in: a word of as many symbols as there are check symbols. The entries are the numbers of its symbols;
// the one behind them takes the symbol that comes in. Fixed memory, as the library has no heap.
#[derive(Drop)]
pub(crate) struct Register<K: Kind> {
    entries: [u8; 16],
    kind: PhantomData<K>,
}

impl<K: Kind> Model for Register<K> {
    ghost Value = { List K.Symbol };

    ghost view = { λ r. map (numbered K.Symbol.Field.ops) (take K.Kind.code.checks r.entries) };

    ghost invariant = { λ r. all_numbers K.Symbol.Field.ops K.Kind.code (take K.Kind.code.checks r.entries) ≡ true };
}

// One element less another.
fn minus<F: Field>(x: F, y: F) -> F
    ensures { result ≡ minus F.Field.ops x y }
{
    x.add(y.neg())
}

impl<K: Kind> Register<K> {
    // The register after the start word.
    pub(crate) fn started() -> Register<K>
        ensures { result ≡ remainder K.Symbol.Field.ops K.Kind.code.generator K.Kind.code.start }
    {
        let mut register = Register {
            entries: [0; 16],
            kind: PhantomData,
        };
        register.shift_all(K::start());
        register
    }

    // One step: a symbol comes in.
    pub(crate) fn shift(&mut self, symbol: K::Symbol)
        ensures { self.new ≡ shifted K.Symbol.Field.ops K.Kind.code.generator self.old symbol }
    {
        let generator = K::generator();
        let top: K::Symbol = numbered(u16::from(self.entries[0]));
        self.entries[generator.len()] = symbol.number() as u8;
        // By index: behind `iter_mut` and `zip` a proof knows no entry.
        for (j, g) in generator.iter().enumerate() {
            let next: K::Symbol = numbered(u16::from(self.entries[j + 1]));
            let multiple = top.mul(numbered(u16::from(*g)));
            self.entries[j] = minus(next, multiple).number() as u8;
        }
    }

    // Symbols come in, given by their numbers.
    pub(crate) fn shift_all(&mut self, numbers: &[u8])
        ensures { self.new ≡ divided K.Symbol.Field.ops K.Kind.code.generator self.old (map (numbered K.Symbol.Field.ops) numbers.now) }
    {
        for n in numbers {
            self.shift(numbered(u16::from(*n)));
        }
    }

    // Zeros come in, as many as there are check symbols.
    pub(crate) fn shift_zeros(&mut self)
        ensures { self.new ≡ divided K.Symbol.Field.ops K.Kind.code.generator self.old (replicate K.Kind.code.checks K.Symbol.Field.ops.zero) }
    {
        let zeros = [0; 16];
        self.shift_all(&zeros[..K::check_symbols()]);
    }

    // Whether the register holds the target.
    pub(crate) fn is_target(&self) -> bool
        ensures { result ≡ same_numbers (numbers K.Symbol.Field.ops self.now) (numbers K.Symbol.Field.ops K.Kind.code.target) }
    {
        self.numbers() == K::target()
    }

    // The target less the register: the symbols that make the data in front of them a codeword, where as many zeros came in last.
    pub(crate) fn complete(&mut self)
        ensures { self.new ≡ lessened K.Symbol.Field.ops K.Kind.code.target self.old }
    {
        // By index: behind `iter_mut` and `zip` a proof knows no entry.
        for (j, t) in K::target().iter().enumerate() {
            let target: K::Symbol = numbered(u16::from(*t));
            self.entries[j] = minus(target, numbered(u16::from(self.entries[j]))).number() as u8;
        }
    }

    // The numbers of its symbols.
    pub(crate) fn numbers(&self) -> &[u8]
        ensures { result.now ≡ numbers K.Symbol.Field.ops self.now }
    {
        &self.entries[..K::check_symbols()]
    }
}
