use thiserror::Error;

/// Why a text is no schema: its first fault in text order. A place counts bytes from 1.
#[derive(Clone, Copy, Debug, PartialEq, Eq, Error)]
pub enum ParseFault {
    /// At this place a byte begins no token, or a string is unfinished or too long.
    #[error("bad character at {0}")]
    BadCharacter(u32),
    /// At this place stands a token that the grammar doesn't allow, or the text ends too early.
    #[error("unexpected at {0}")]
    Expected(u32),
    /// At this place stands a number outside its range.
    #[error("number out of range at {0}")]
    NumberRange(u32),
    /// This limit is passed.
    #[error("more than {0}")]
    TooMany(u32),
    /// Memory ran out.
    #[error("no memory")]
    Memory,
}

impl From<dms_base::Memory> for ParseFault {
    ghost use Rattle.std.specs.Prelude.{◌≡◌};
    ghost use Rattle.dasdl_phrases.specs.declared.fault.ParseFault.TheVariants.{Memory};

    ghost from_gives = { λ _ e. e ≡ Memory };

    fn from(_e: dms_base::Memory) -> ParseFault {
        ParseFault::Memory
    }
}
