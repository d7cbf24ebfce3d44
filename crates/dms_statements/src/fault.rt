use thiserror::Error;

/// Why a text is no statement.
#[derive(Clone, Copy, Debug, PartialEq, Eq, Error)]
pub enum StatementFault {
    /// Its first bad place, counted in bytes from 1; 10,001 where the text is longer than 10,000 bytes.
    #[error("bad statement at {0}")]
    Bad(u32),
    /// Memory ran out.
    #[error("no memory")]
    Memory,
}

impl From<dms_base::Memory> for StatementFault {
    ghost use Rattle.std.specs.Prelude.{◌≡◌};
    ghost use Rattle.dms_statements.specs.declared.fault.StatementFault.TheVariants.{Memory};

    ghost from_gives = { λ _ e. e ≡ Memory };

    fn from(_e: dms_base::Memory) -> StatementFault {
        StatementFault::Memory
    }
}
