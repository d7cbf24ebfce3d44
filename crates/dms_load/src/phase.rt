ghost use Rattle.std.specs.Prelude.{◌≡◌};
ghost use Rattle.dms_load.specs.Script.{phase_after};

/// The lines of a program's transaction, in their order. Behind the last one it begins the next transaction.
#[derive(Clone, Copy, Debug, PartialEq, Eq)]
pub enum Phase {
    Begin,
    /// A record is made, or one is looked for.
    Choose,
    Put,
    Store,
    End,
}

impl Phase {
    /// The phase of the program's next line.
    pub fn next(self) -> Phase
        ensures { result ≡ phase_after self }
    {
        match self {
            Phase::Begin => Phase::Choose,
            Phase::Choose => Phase::Put,
            Phase::Put => Phase::Store,
            Phase::Store => Phase::End,
            Phase::End => Phase::Begin,
        }
    }
}
