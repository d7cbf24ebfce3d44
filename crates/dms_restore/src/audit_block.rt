ghost use Rattle.std.specs.Prelude.{◌≡◌};
ghost use Rattle.dms_restore.specs.TailTables.{last_block};

use dms_audfile::AuditEnd;

/// A block of the audit.
#[derive(Clone, Copy)]
pub struct AuditBlock {
    /// Its file, by its number as a file.
    pub file: u32,
    /// Its number; 1 is the first of a file.
    pub block: u32,
}

impl AuditBlock {
    /// The last block of a trail that is sealed.
    pub fn last_of(end: &AuditEnd) -> AuditBlock
        ensures { result ≡ last_block end.now }
    {
        if end.count == 0 {
            AuditBlock {
                file: end.file - 1,
                block: end.total,
            }
        } else {
            AuditBlock {
                file: end.file,
                block: end.count,
            }
        }
    }
}
