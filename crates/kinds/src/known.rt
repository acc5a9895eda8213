// A fact that stands on a function, so that the check asks for its proof.
ghost use Rattle.kinds.specs.Roots.{Generators};

// Each generator is the product of X − β^e over its exponents.
pub fn generators()
    ensures { Generators }
{}
