// Kinds whose payloads can hold whole bytes.
ghost use Rattle.std.specs.Prelude.{◌≡◌, ℕ, Bool};
ghost use Rattle.kinds.specs.Bytes.{Bytes};

use crate::kind::Kind;

pub trait ByteKind: Kind {
    ghost takes: { ℕ → Bool };

    // Whether a payload may hold m bytes.
    fn takes_bytes(m: usize) -> bool
        ensures { result ≡ takes m };

    ghost whole: { Bytes Self.Symbol.Field.ops Self.Kind.code takes };
}
