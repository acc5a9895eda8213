// The elements of a field of Q elements, by their numbers.
ghost use Rattle.std.specs.Prelude.{◌<◌};

// The ghost field says that there is no element with a larger number.
#[derive(Clone, Copy)]
pub struct Below<const Q: u8> {
    pub(crate) n: u8,
    ghost bound: { n < Q },
}
