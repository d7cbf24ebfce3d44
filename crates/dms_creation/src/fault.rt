/// Why no database is made.
#[derive(Clone, Copy, Debug, PartialEq, Eq)]
pub enum CreationFault {
    /// The description file is no sealed description.
    NoDescription,
    /// There is a database already: the gate of the database is open.
    Exists,
    /// A call on the files failed.
    Disk,
    /// Memory was refused. No file was changed.
    Memory,
}
