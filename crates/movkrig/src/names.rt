// The names that words of the command language stand for: commands and kinds of lines.
ghost use Rattle.std.specs.Prelude.{◌≡◌};
ghost use Rattle.movkrig.specs.Names.{byte_kind};
ghost use Rattle.movkrig.specs.Shown.{NamesCommand, NamesKind};

use crate::errors::CommandError;

#[derive(Clone, Copy, PartialEq, Eq, Debug)]
pub enum CommandName {
    Check,
    Lone,
    Encode,
    Decode,
}

impl CommandName {
    // What an error says was expected in the place of a name.
    pub const EXPECTED: &'static str = "check, lone, encode or decode";

    // The name and the words that it takes.
    pub fn usage(self) -> &'static str {
        match self {
            CommandName::Check => "check KIND TEXT",
            CommandName::Lone => "lone KIND ID PAYLOAD [LEN]",
            CommandName::Encode => "encode KIND HEX [LEN]",
            CommandName::Decode => "decode KIND CHARS [LEN]",
        }
    }
}

impl<'a> TryFrom<&'a [u8]> for CommandName {
    type Error = CommandError<'a>;

    ghost try_from_gives = { NamesCommand };

    fn try_from(word: &'a [u8]) -> Result<CommandName, CommandError<'a>> {
        match word {
            b"check" => Ok(CommandName::Check),
            b"lone" => Ok(CommandName::Lone),
            b"encode" => Ok(CommandName::Encode),
            b"decode" => Ok(CommandName::Decode),
            _ => Err(CommandError::UnknownCommand { word }),
        }
    }
}

#[derive(Clone, Copy, PartialEq, Eq, Debug)]
pub enum KindName {
    Short,
    Long,
    Digits,
}

impl KindName {
    // What an error says was expected in the place of a kind.
    pub const EXPECTED: &'static str = "short, long or digits";

    // The same as a kind whose payloads hold bytes; digits hold none. The error of a `TryFrom` would say no more than `None`.
    pub fn with_bytes(self) -> Option<ByteKindName>
        ensures { result ≡ byte_kind self }
    {
        match self {
            KindName::Short => Some(ByteKindName::Short),
            KindName::Long => Some(ByteKindName::Long),
            KindName::Digits => None,
        }
    }
}

impl<'a> TryFrom<&'a [u8]> for KindName {
    type Error = CommandError<'a>;

    ghost try_from_gives = { NamesKind };

    fn try_from(word: &'a [u8]) -> Result<KindName, CommandError<'a>> {
        match word {
            b"short" => Ok(KindName::Short),
            b"long" => Ok(KindName::Long),
            b"digits" => Ok(KindName::Digits),
            _ => Err(CommandError::UnknownKind { word }),
        }
    }
}

// The kinds whose payloads hold bytes.
#[derive(Clone, Copy, PartialEq, Eq, Debug)]
pub enum ByteKindName {
    Short,
    Long,
}

impl ByteKindName {
    // What an error says a command on bytes is for.
    pub const ALL: &'static str = "short and long";
}
