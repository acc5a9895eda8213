// Why a call is refused.
ghost use Rattle.std.specs.Prelude.{◌≡◌};
ghost use Rattle.codes.specs.Refusals.{number_of};

use thiserror::Error;

#[derive(Clone, Copy, PartialEq, Eq, Debug, Error)]
pub enum Refusal {
    #[error("no line of this kind has this length")]
    Length = 11,
    #[error("the line does not begin with the prefix of this kind")]
    Prefix = 12,
    #[error("a character is not in the alphabet of this kind")]
    Character = 13,
    #[error("small letters and capitals are mixed")]
    MixedCase = 14,
    #[error("the checksum is wrong")]
    Checksum = 21,
    #[error("the threshold is not 0 or 2 to 9")]
    Threshold = 31,
    #[error("the threshold is 0, but the index is not the secret's")]
    LoneIndex = 32,
    #[error("the identifier is not four symbols of this kind")]
    Identifier = 42,
    #[error("no payload of this kind has this many symbols")]
    Payload = 43,
    #[error("a symbol is not of this kind")]
    Symbol = 53,
    #[error("the buffer is too short")]
    Buffer = 81,
    #[error("no payload of this kind holds this many bytes")]
    Bytes = 91,
}

impl Refusal {
    // The number by which documents and programs name it.
    pub fn number(self) -> u8
        ensures { result ≡ number_of self }
    {
        self as u8
    }
}
