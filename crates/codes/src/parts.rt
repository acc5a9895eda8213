// What a line of text is made of, as parts of the text that was typed.

// A part of a text, and the place where it begins.
#[derive(Clone, Copy, PartialEq, Eq, Debug)]
pub struct Part<'a> {
    pub place: usize,
    pub text: &'a [u8],
}

// A secret as it is, or one share of it.
#[derive(Clone, Copy, PartialEq, Eq, Debug)]
pub enum Line<'a> {
    Lone {
        identifier: Part<'a>,
        payload: Part<'a>,
    },
    Share {
        threshold: u8,
        identifier: Part<'a>,
        index: Part<'a>,
        payload: Part<'a>,
    },
}
