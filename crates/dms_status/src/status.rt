use dasdl_compile::CompileFault;
use dasdl_phrases::ParseFault;
use dms_base::Name;

/// Why a schema is refused: its first fault in text order.
#[derive(Clone, Copy, Debug, PartialEq, Eq)]
pub enum SchemaFault {
    /// The text isn't in the schema language, or passes one of its limits.
    Parse(ParseFault),
    /// A check of the compiler fails.
    Compile(CompileFault),
}

/// A limit that an input passes, or that its database has reached.
#[derive(Clone, Copy, Debug, PartialEq, Eq)]
pub enum LimitKind {
    /// The audit may go on up to this file, numbered from 1, and has no room there.
    AuditFile(u32),
    /// The script has more than 1,000,000 lines.
    Lines,
    /// The script has more than 2,147,483,648 bytes.
    Bytes,
    /// A line would be the 10,001st that is held.
    Held,
}

/// What a command needs and doesn't find. Audit files are named by their numbers from 1.
#[derive(Clone, Copy, Debug, PartialEq, Eq)]
pub enum NeedFault {
    /// The description file is no sealed description.
    NoDescription,
    /// An audit file is missing.
    AuditMissing(u32),
    /// A gate of an audit file isn't open, and the file two behind it is present.
    AuditUnsealed(u32),
    /// An audit file is one of another database.
    AuditForeign(u32),
    /// The point of a restore or of its dump isn't below the next number.
    NoSuchPoint(u64),
    /// The point of a restore was taken back.
    Voided(u64),
    /// The file of that dump isn't present.
    DumpMissing(u16),
    /// The gate of that dump isn't open.
    DumpUnsealed(u16),
    /// That dump is one of another database.
    DumpForeign(u16),
    /// That dump is at this point, which is above the point of the restore.
    DumpLater(u16, u64),
    /// No structure has that name, or it has no such row.
    NoSuchRow(Name, u32),
}

/// Why a database isn't reorganized under a further description.
#[derive(Clone, Copy, Debug, PartialEq, Eq)]
pub enum ReorgFault {
    /// BLOCKS or FILES of the audit trail differ.
    AuditTrail,
    /// The structure of that name isn't there under the same number with the same fields, further items and groups and a greater
    /// POPULATION aside.
    Changed(Name),
    /// A further item of that name is REQUIRED and has no initial value.
    Required(Name),
    /// Two records of one owner have equal keys in that new structure, which has no DUPLICATES.
    Duplicate(Name),
}

/// The first thing that keeps a database from standing for a state.
#[derive(Clone, Copy, Debug, PartialEq, Eq)]
pub enum Flaw {
    /// In that audit file and block, the entry of that number from 1 breaks a rule of the trail.
    Entry(u32, u32, u32),
    /// The Schema of the point is no description.
    Description,
    /// That block of that file is missing, disagrees with the trail, or isn't in its format.
    Block(u32, u32),
    /// The blocks of the structure of that name aren't together.
    Shape(Name),
    /// The record of that number, of the data set of that name, breaks a rule of its description.
    Record(Name, u64),
    /// At that place from 1 the list of the structure of that name differs from its definition.
    Member(Name, u64),
}

/// How a command ends.
#[derive(Clone, Copy, Debug, PartialEq, Eq)]
pub enum Status {
    /// The command did its work, and its input was read to its end.
    Ok,
    /// The words are no command.
    BadWords,
    SchemaRefused(SchemaFault),
    /// There is no database.
    NoDatabase,
    Needed(NeedFault),
    /// Taking from the input failed.
    InputFault,
    /// Memory was refused.
    Memory,
    Limit(LimitKind),
    /// A block of a file isn't in its grammar; block 0 of an audit file is its header.
    Damaged(u32, u32),
    /// Printing failed.
    SayFault,
    /// A call on a file failed.
    DiskFault,
    /// What is to be made is there already.
    Exists,
    /// The text of a statement is none; this is its first bad place, counted in bytes from 1.
    BadStatement(u32),
    Reorganization(ReorgFault),
    /// The input is no stream of an audit trail; this is its first bad place, counted in bytes from 1.
    BadStream(u64),
    /// The stream isn't of this database, or goes another way from that block of that file on; block 0 of file 1 is the database itself.
    Diverged(u32, u32),
    /// The database stands for no state.
    Flaw(Flaw),
}
