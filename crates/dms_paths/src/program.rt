use crate::Paths;
use dms_base::Name;
use dms_locks::Locks;
use dms_model::Mode;
use std::marker::Model;

/// An open program.
#[derive(Debug, Drop)]
pub struct Program {
    pub name: Name,
    /// For what it opened the database.
    pub mode: Mode,
    /// Whether it is in transaction state.
    pub in_transaction: bool,
    /// Whether its next verb is answered ABORT.
    pub owes_abort: bool,
    /// Whether a verb of it was carried out since the last quiet point.
    pub active: bool,
    /// What it has at hand of each structure.
    pub paths: Paths,
    /// The records that it holds locked.
    pub locks: Locks,
}

impl Model for Program {
    ghost use Rattle.std.specs.Coded.{codes};
    ghost use Rattle.dms_locks.specs.Locks.{locks_code};
    ghost use Rattle.dms_model.specs.Programs.{Program as ProgramSeen};

    ghost Value = { ProgramSeen };

    ghost coded = { Prim.hlevel (codes, locks_code) };

    ghost view = { λ p. record { name = p.name; mode = p.mode; in_transaction = p.in_transaction; owes_abort = p.owes_abort; active = p.active; works = p.paths; locks = p.locks } };
}
