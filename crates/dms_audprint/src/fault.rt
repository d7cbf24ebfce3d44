use dms_audfile::AudFault;

/// Why the audit isn't printed, or not to its end.
#[derive(Clone, Copy, Debug, PartialEq, Eq)]
pub enum PrintFault {
    /// The audit can't be read.
    Audit(AudFault),
    /// Printing failed.
    Say,
}
