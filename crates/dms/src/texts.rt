ghost use Rattle.std.specs.Prelude.{◌≡◌, Some};
ghost use Rattle.dms.specs.Lines.{parse_words, compile_words, flaw_words, later_words, place_words, row_words, need_words, reorg_words, lines_of};
ghost use Rattle.dms.specs.Numbers.{number_of};

use dasdl_compile::CompileFault;
use dasdl_phrases::ParseFault;
use dms_base::Name;
use dms_top::{Flaw, LimitKind, NeedFault, ReorgFault, SchemaFault, Status};
use std::fmt;

/// How the program ends.
#[derive(Clone, Copy, Debug, PartialEq, Eq)]
pub enum Ending {
    /// As its command does.
    Command(Status),
    /// Another program holds the folder; nothing was begun.
    InUse,
}

/// The number of an ending.
pub fn code_of(ending: &Ending) -> u8
    ensures { result ≡ number_of ending.now }
{
    match *ending {
        Ending::InUse => 5,
        Ending::Command(Status::Ok) => 0,
        Ending::Command(Status::BadWords) => 1,
        Ending::Command(Status::SchemaRefused(_)) => 2,
        Ending::Command(Status::NoDatabase) => 3,
        Ending::Command(Status::Needed(_)) => 4,
        Ending::Command(Status::DiskFault) => 5,
        Ending::Command(Status::InputFault) => 6,
        Ending::Command(Status::Memory) => 7,
        Ending::Command(Status::Limit(_)) => 8,
        Ending::Command(Status::Damaged(_, _)) => 9,
        Ending::Command(Status::SayFault) => 10,
        Ending::Command(Status::Exists) => 11,
        Ending::Command(Status::BadStatement(_)) => 12,
        Ending::Command(Status::Reorganization(_)) => 13,
        Ending::Command(Status::BadStream(_)) => 14,
        Ending::Command(Status::Diverged(_, _)) => 15,
        Ending::Command(Status::Flaw(_)) => 16,
    }
}

/// A name as text.
#[derive(Drop)]
struct NameText(Name);

impl fmt::Display for NameText {
    ghost output = { λ n. Some n.0 };

    fn fmt<W: fmt::Write>(&self, f: &mut fmt::Formatter<W>) -> fmt::Result {
        match str::from_utf8(self.0.bytes()) {
            Ok(text) => f.write_str(text),
            Err(_) => Err(fmt::Error),
        }
    }
}

/// What is said of a text that isn't in the schema language.
#[derive(Drop)]
struct ParseText(ParseFault);

impl fmt::Display for ParseText {
    ghost output = { λ t. Some (parse_words t.0) };

    fn fmt<W: fmt::Write>(&self, f: &mut fmt::Formatter<W>) -> fmt::Result {
        match self.0 {
            ParseFault::BadCharacter(place) => write!(f, "bad character at {place}"),
            ParseFault::Expected(place) => write!(f, "unexpected at {place}"),
            ParseFault::NumberRange(place) => write!(f, "number out of range at {place}"),
            ParseFault::TooMany(limit) => write!(f, "more than {limit}"),
            ParseFault::Memory => f.write_str("no memory"),
        }
    }
}

/// What is said of a check of the compiler that fails.
#[derive(Drop)]
struct CompileText(CompileFault);

impl fmt::Display for CompileText {
    ghost output = { λ t. Some (compile_words t.0) };

    fn fmt<W: fmt::Write>(&self, f: &mut fmt::Formatter<W>) -> fmt::Result {
        match self.0 {
            CompileFault::Twice(name) => write!(f, "twice {}", NameText(name)),
            CompileFault::Unknown(name) => write!(f, "unknown {}", NameText(name)),
            CompileFault::KeyItem(name) => write!(f, "bad key {}", NameText(name)),
            CompileFault::CondKind(name) => write!(f, "bad condition {}", NameText(name)),
            CompileFault::RecordLong(bytes) => write!(f, "record of {bytes} bytes"),
            CompileFault::KeyLong(bytes) => write!(f, "key of {bytes} bytes"),
            CompileFault::NoRestart => f.write_str("no restart data set"),
            CompileFault::Embedding(name) => write!(f, "bad place {}", NameText(name)),
            CompileFault::DescriptionLong(bytes) => write!(f, "description of {bytes} bytes"),
            CompileFault::Memory => f.write_str("no memory"),
        }
    }
}

/// What is said of a dump whose point is above that of a restore.
#[derive(Drop)]
struct LaterText(u16, u64);

impl fmt::Display for LaterText {
    ghost output = { λ t. Some (later_words t.0 t.1) };

    fn fmt<W: fmt::Write>(&self, f: &mut fmt::Formatter<W>) -> fmt::Result {
        let (dump, point) = (self.0, self.1);
        write!(f, "dump {dump} is at point {point}")
    }
}

/// What is said of a row that isn't there.
#[derive(Drop)]
struct RowText(Name, u32);

impl fmt::Display for RowText {
    ghost output = { λ t. Some (row_words t.0 t.1) };

    fn fmt<W: fmt::Write>(&self, f: &mut fmt::Formatter<W>) -> fmt::Result {
        let (name, row) = (self.0, self.1);
        write!(f, "no row {row} in {}", NameText(name))
    }
}

/// What is said of what a command needs and doesn't find.
#[derive(Drop)]
struct NeedText(NeedFault);

impl fmt::Display for NeedText {
    ghost output = { λ t. Some (need_words t.0) };

    fn fmt<W: fmt::Write>(&self, f: &mut fmt::Formatter<W>) -> fmt::Result {
        match self.0 {
            NeedFault::NoDescription => f.write_str("no description"),
            NeedFault::AuditMissing(number) => write!(f, "audit file {number} missing"),
            NeedFault::AuditUnsealed(number) => write!(f, "audit file {number} unsealed"),
            NeedFault::AuditForeign(number) => {
                write!(f, "audit file {number} of another database")
            }
            NeedFault::NoSuchPoint(point) => write!(f, "no such point {point}"),
            NeedFault::Voided(point) => write!(f, "point {point} voided"),
            NeedFault::DumpMissing(dump) => write!(f, "dump {dump} missing"),
            NeedFault::DumpUnsealed(dump) => write!(f, "dump {dump} unsealed"),
            NeedFault::DumpForeign(dump) => write!(f, "dump {dump} of another database"),
            NeedFault::DumpLater(dump, point) => LaterText(dump, point).fmt(f),
            NeedFault::NoSuchRow(name, row) => RowText(name, row).fmt(f),
        }
    }
}

/// What is said where a database isn't reorganized.
#[derive(Drop)]
struct ReorgText(ReorgFault);

impl fmt::Display for ReorgText {
    ghost output = { λ t. Some (reorg_words t.0) };

    fn fmt<W: fmt::Write>(&self, f: &mut fmt::Formatter<W>) -> fmt::Result {
        match self.0 {
            ReorgFault::AuditTrail => f.write_str("audit trail changed"),
            ReorgFault::Changed(name) => write!(f, "structure {} changed", NameText(name)),
            ReorgFault::Required(name) => write!(f, "item {} needs a value", NameText(name)),
            ReorgFault::Duplicate(name) => write!(f, "equal keys in {}", NameText(name)),
        }
    }
}

/// A block of a file.
#[derive(Drop)]
struct PlaceText(u32, u32);

impl fmt::Display for PlaceText {
    ghost output = { λ t. Some (place_words t.0 t.1) };

    fn fmt<W: fmt::Write>(&self, f: &mut fmt::Formatter<W>) -> fmt::Result {
        let (file, block) = (self.0, self.1);
        write!(f, "file {file} block {block}")
    }
}

/// What is said of what keeps a database from standing for a state.
#[derive(Drop)]
struct FlawText(Flaw);

impl fmt::Display for FlawText {
    ghost output = { λ t. Some (flaw_words t.0) };

    fn fmt<W: fmt::Write>(&self, f: &mut fmt::Formatter<W>) -> fmt::Result {
        match self.0 {
            Flaw::Entry(file, block, entry) => {
                write!(
                    f,
                    "audit entry {entry} of {} disagrees",
                    PlaceText(file, block)
                )
            }
            Flaw::Description => f.write_str("description disagrees"),
            Flaw::Block(file, block) => write!(f, "{} disagrees", PlaceText(file, block)),
            Flaw::Shape(name) => write!(f, "structure {} has a bad shape", NameText(name)),
            Flaw::Record(name, number) => {
                write!(f, "record {number} of {} disagrees", NameText(name))
            }
            Flaw::Member(name, place) => write!(f, "entry {place} of {} disagrees", NameText(name)),
        }
    }
}

/// What is said of an ending, nothing where all went well. It is written as it is made, and needs no memory.
impl fmt::Display for Ending {
    ghost output = { λ e. Some (lines_of e) };

    fn fmt<W: fmt::Write>(&self, f: &mut fmt::Formatter<W>) -> fmt::Result {
        match *self {
            Ending::InUse => f.write_str("dms: the folder is in use\n"),
            Ending::Command(Status::Ok) => Ok(()),
            Ending::Command(Status::BadWords) => {
                f.write_str("dms: bad words\ndms: see dms --help\n")
            }
            Ending::Command(Status::SchemaRefused(SchemaFault::Parse(fault))) => {
                writeln!(f, "dms: schema: {}", ParseText(fault))
            }
            Ending::Command(Status::SchemaRefused(SchemaFault::Compile(fault))) => {
                writeln!(f, "dms: schema: {}", CompileText(fault))
            }
            Ending::Command(Status::NoDatabase) => f.write_str("dms: no database\n"),
            Ending::Command(Status::Needed(need)) => writeln!(f, "dms: {}", NeedText(need)),
            Ending::Command(Status::DiskFault) => f.write_str("dms: disk fault\n"),
            Ending::Command(Status::InputFault) => f.write_str("dms: input fault\n"),
            Ending::Command(Status::Memory) => f.write_str("dms: no memory\n"),
            Ending::Command(Status::Limit(LimitKind::AuditFile(number))) => {
                writeln!(f, "dms: audit file {number} full")
            }
            Ending::Command(Status::Limit(LimitKind::Lines)) => {
                f.write_str("dms: too many lines\n")
            }
            Ending::Command(Status::Limit(LimitKind::Bytes)) => {
                f.write_str("dms: too many bytes\n")
            }
            Ending::Command(Status::Limit(LimitKind::Held)) => {
                f.write_str("dms: too many held lines\n")
            }
            Ending::Command(Status::Damaged(file, block)) => {
                writeln!(f, "dms: {} damaged", PlaceText(file, block))
            }
            Ending::Command(Status::SayFault) => f.write_str("dms: output fault\n"),
            Ending::Command(Status::Exists) => f.write_str("dms: exists already\n"),
            Ending::Command(Status::BadStatement(place)) => {
                writeln!(f, "dms: bad statement at {place}")
            }
            Ending::Command(Status::Reorganization(fault)) => {
                writeln!(f, "dms: {}", ReorgText(fault))
            }
            Ending::Command(Status::BadStream(place)) => writeln!(f, "dms: bad stream at {place}"),
            Ending::Command(Status::Diverged(file, block)) => {
                writeln!(f, "dms: diverged at {}", PlaceText(file, block))
            }
            Ending::Command(Status::Flaw(flaw)) => writeln!(f, "dms: {}", FlawText(flaw)),
        }
    }
}
