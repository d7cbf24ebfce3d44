/// Why a verb is refused. A reply prints it by its name in capitals.
#[derive(Clone, Copy, Debug, PartialEq, Eq)]
pub enum Category {
    NotFound,
    Duplicates,
    Deadlock,
    DataError,
    NotLocked,
    ReadOnly,
    LimitError,
    OpenError,
    NoRecord,
    InUse,
    AuditError,
    Abort,
}
