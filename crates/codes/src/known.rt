// A fact that stands on a function, so that the check asks for its proof.
ghost use Rattle.codes.specs.Known.{Known};

// Worked values of the four fields, of a generator and of a line.
pub fn known_values()
    ensures { Known }
{}
