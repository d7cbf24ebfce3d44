use dms_base::Name;
use thiserror::Error;

/// Why a schema has no description: its first fault in text order.
#[derive(Clone, Copy, Debug, PartialEq, Eq, Error)]
pub enum CompileFault {
    /// Two structures, or two items or groups of a data set, have this name, or this is a second restart data set.
    #[error("name used twice")]
    Twice(Name),
    /// No such data set, item or group is declared.
    #[error("name not declared")]
    Unknown(Name),
    /// An item that can't stand in a key, or a set whose key is missing or has too many parts.
    #[error("bad key")]
    KeyItem(Name),
    /// A literal that isn't for this item, a link in a condition, or a condition on this set.
    #[error("bad condition")]
    CondKind(Name),
    /// A record would have so many bytes, more than 480.
    #[error("record of {0} bytes")]
    RecordLong(u32),
    /// A key would have so many bytes, more than 96.
    #[error("key of {0} bytes")]
    KeyLong(u32),
    /// No data set is the restart data set.
    #[error("no restart data set")]
    NoRestart,
    /// A structure or link that can't stand where it stands.
    #[error("bad place")]
    Embedding(Name),
    /// The description would have so many bytes, more than 65,535.
    #[error("description of {0} bytes")]
    DescriptionLong(u32),
    /// Memory ran out.
    #[error("no memory")]
    Memory,
}

impl From<dms_base::Memory> for CompileFault {
    ghost use Rattle.std.specs.Prelude.{◌≡◌};
    ghost use Rattle.dasdl_compile.specs.declared.fault.CompileFault.TheVariants.{Memory};

    ghost from_gives = { λ _ e. e ≡ Memory };

    fn from(_e: dms_base::Memory) -> CompileFault {
        CompileFault::Memory
    }
}
