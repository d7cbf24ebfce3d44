use crate::texts::Ending;
use crate::words::{Request, Topic};
use dasdl_compile::CompileFault;
use dasdl_phrases::ParseFault;
use dms_base::Name;
use dms_descfile::read_description;
use dms_folder::FolderSite;
use dms_host::{Access, Host};
use dms_top::{LimitKind, NeedFault, SchemaFault, Status};
use std::{fmt, fs};

/// Who named the point or the dump that a command goes to.
#[derive(Clone, Copy, Debug, PartialEq, Eq)]
enum Namer {
    /// The operator, in a statement.
    Statement,
    /// The files: the last point, or what a restore that was stopped goes to.
    Files,
}

/// What the operator can do about an ending, where that is known. No contract speaks of it.
#[derive(Drop)]
pub struct Advice {
    pub ending: Ending,
    /// The command that ended so, where the words name one.
    pub request: Option<Request>,
    pub seen: Seen,
}

/// What a walk over the current folder has seen of its database files.
#[derive(Clone, Copy, Debug, PartialEq, Eq)]
pub struct Seen {
    /// Whether an audit file isn't empty.
    audit: bool,
    /// Whether a dump or a structure file isn't empty.
    blocks: bool,
    /// How long the file is that the ending names, 0 where it isn't there.
    named: u64,
    /// How long the file before that one is.
    before: u64,
    /// A link that leads to no file.
    astray: Option<u32>,
    /// The structure whose file the ending names, where the description in the folder has it.
    structure: Option<Name>,
}

/// The greatest number that FILES may have.
const MOST_FILES: u32 = 9_999;
/// So many bytes a block of a structure file has.
const BLOCK: u64 = 1_024;
/// The number of the file of structure 1.
const FIRST_STRUCTURE: u32 = 30_001;
/// So many blocks a row has.
const ROW: u32 = 16;

impl Seen {
    /// Nothing was looked at, or there is nothing.
    pub fn new() -> Seen {
        Seen {
            audit: false,
            blocks: false,
            named: 0,
            before: 0,
            astray: None,
            structure: None,
        }
    }

    /// Notes a database file of this number and length. `named` is the number of the file that the ending names.
    fn note(&mut self, number: u32, length: u64, named: u32) {
        match number {
            10_001..=20_000 if length > 0 => self.audit = true,
            20_001..=30_200 if length > 0 => self.blocks = true,
            _ => {}
        }
        if number == named {
            self.named = length;
        }
        if number == named.saturating_sub(1) {
            self.before = length;
        }
    }
}

/// The number of the database file of this name.
fn number_of(name: &str) -> Option<u32> {
    let digits = match name.strip_prefix('F') {
        None => None,
        Some(rest) => rest.strip_suffix(".DMS"),
    };
    match digits {
        Some(digits) if digits.len() == 5 => digits.parse::<u32>().ok(),
        _ => None,
    }
}

/// The name of the structure of this file, as the description in the current folder has it.
fn structure_of(rt: &HostRuntime, file: u32) -> Option<Name> {
    let number = file.checked_sub(FIRST_STRUCTURE)?;
    let host = Host::new(*rt, Access::Reading, None);
    let Ok(mut site) = FolderSite::new(host, rt.alloc()) else {
        return None;
    };
    match read_description(rt.alloc(), &mut site) {
        Ok(Some(desc)) => match desc.structures.as_slice().get(number as usize) {
            Some(structure) => Some(structure.name),
            None => None,
        },
        _ => None,
    }
}

/// What the current folder shows behind this ending. Where it can't be read, as much as was seen.
pub fn seen_at(rt: &HostRuntime, ending: Ending) -> Seen {
    let named = match ending {
        Ending::Command(Status::Damaged(file, _)) => file,
        Ending::Command(Status::NoDatabase | Status::DiskFault) => 0,
        _ => return Seen::new(),
    };
    let mut seen = Seen::new();
    seen.structure = structure_of(rt, named);
    let Ok(entries) = fs::read_dir(rt, ".") else {
        return seen;
    };
    for entry in entries {
        let Ok(entry) = entry else {
            break;
        };
        if let Some(number) = number_of(entry.file_name()) {
            match fs::metadata(rt, entry.file_name()) {
                Ok(found) => seen.note(number, found.len(), named),
                Err(_) => seen.astray = Some(number),
            }
        }
    }
    seen
}

/// The command that the first of the words names.
pub fn topic_named(words: &[String]) -> Option<Topic> {
    let [first, ..] = words else {
        return None;
    };
    match first.as_str() {
        "try" => Some(Topic::Try),
        "compile" => Some(Topic::Compile),
        "initialize" => Some(Topic::Initialize),
        "run" => Some(Topic::Run),
        "utility" => Some(Topic::Utility),
        "print" => Some(Topic::PrintAudit),
        "load" => Some(Topic::Load),
        "ship" => Some(Topic::Ship),
        _ => None,
    }
}

/// What is waited for where a person at a terminal is to give the input.
pub fn asked_of(request: Request) -> Option<&'static str> {
    match request {
        Request::Try => Some("a schema, a line SCRIPT, and lines of a script"),
        Request::Compile => Some("the text of a schema"),
        Request::Run => Some("lines of a script"),
        Request::Utility => Some("a statement"),
        _ => None,
    }
}

/// Whether the line from this place of a text on is SCRIPT but for small letters and blanks, which `try` doesn't take for it.
pub fn is_like_script(text: &[u8], place: u32) -> bool {
    let count = (place as usize).saturating_sub(1).min(text.len());
    let rest = &text[count..];
    let line = match rest.iter().position(|byte| *byte == b'\n') {
        None => rest,
        Some(at) => &rest[..at],
    };
    match str::from_utf8(line) {
        Ok(line) => line.trim().eq_ignore_ascii_case("SCRIPT"),
        Err(_) => false,
    }
}

/// The word that must stand behind this text of a statement, where only one can.
pub fn wanted_behind(text: &[u8]) -> Option<&'static str> {
    let Ok(text) = str::from_utf8(text) else {
        return None;
    };
    let text = text.trim();
    if text.eq_ignore_ascii_case("DUMP") || text.eq_ignore_ascii_case("ROLLBACK") {
        Some("TO")
    } else if text.eq_ignore_ascii_case("REBUILD") {
        Some("FROM")
    } else {
        None
    }
}

/// What to do about what a command needs and doesn't find.
fn write_need<W: fmt::Write>(
    need: NeedFault,
    namer: Namer,
    f: &mut fmt::Formatter<W>,
) -> fmt::Result {
    match need {
        NeedFault::NoDescription => f.write_str("dms: run dms compile in this folder first\n"),
        NeedFault::AuditMissing(number) => { write_back(number.saturating_add(10_000), f) }
        NeedFault::AuditUnsealed(_) | NeedFault::AuditForeign(_) => {
            f.write_str("dms: put back all files of one copy of the database\n")
        }
        NeedFault::DumpMissing(number) | NeedFault::DumpForeign(number) => match namer {
            Namer::Files => write_back(20_000 + u32::from(number), f),
            Namer::Statement => {
                let file = 20_000 + u32::from(number);
                write!(
                    f,
                    "dms: put F{file:05}.DMS back, as it was, or name another dump\n"
                )
            }
        },
        NeedFault::DumpUnsealed(number) => match namer {
            Namer::Files => write_back(20_000 + u32::from(number), f),
            Namer::Statement => {
                let file = 20_000 + u32::from(number);
                write!(
                    f,
                    "dms: the dump wasn't finished: name another, or remove F{file:05}.DMS\n"
                )
            }
        },
        NeedFault::DumpLater(number, point) => match namer {
            Namer::Files => write_back(20_000 + u32::from(number), f),
            Namer::Statement => {
                write!(f, "dms: name a point from {point} on, or another dump\n")
            }
        },
        NeedFault::NoSuchPoint(_) | NeedFault::Voided(_) => match namer {
            Namer::Statement => f.write_str(
                "dms: name another point or dump; dms print audit lists the points\n",
            ),
            Namer::Files => f.write_str("dms: put back a copy of the whole database\n"),
        },
        NeedFault::NoSuchRow(_, _) => f.write_str(
            "dms: name a structure of the schema, and a row below its blocks divided by 16\n",
        ),
    }
}

/// To put back a file of this number.
fn write_back<W: fmt::Write>(file: u32, f: &mut fmt::Formatter<W>) -> fmt::Result {
    write!(f, "dms: put F{file:05}.DMS back, as it was\n")
}

/// What to do where there is no database.
fn write_none<W: fmt::Write>(seen: &Seen, f: &mut fmt::Formatter<W>) -> fmt::Result {
    if seen.audit {
        f.write_str(
            "dms: F00001.DMS isn't the description of the database whose files are here: put it back; initialize would empty them\n",
        )
    } else if seen.blocks {
        f.write_str(
            "dms: the audit of the database is gone: put back a copy of the whole database\n",
        )
    } else {
        f.write_str(
            "dms: go to the folder of a database, or make one by dms compile and dms initialize\n",
        )
    }
}

/// What to do about a block of an audit file that can't be read. One behind a gap may be there by mistake.
fn write_audit_damaged<W: fmt::Write>(
    file: u32,
    block: u32,
    seen: &Seen,
    f: &mut fmt::Formatter<W>,
) -> fmt::Result {
    f.write_str("dms: put back a copy of the whole database")?;
    if block == 0 && file > 10_001 && seen.before == 0 {
        write!(
            f,
            ", or take F{file:05}.DMS out, if it isn't this database's"
        )?;
    }
    f.write_str("\n")
}

/// Of which structure, where that is known.
fn write_of<W: fmt::Write>(structure: Option<Name>, f: &mut fmt::Formatter<W>) -> fmt::Result {
    match structure {
        None => Ok(()),
        Some(name) => match str::from_utf8(name.bytes()) {
            Ok(text) => write!(f, " of {text}"),
            Err(_) => Ok(()),
        },
    }
}

/// What to do about a block of a structure file that isn't there or can't be read.
fn write_block_damaged<W: fmt::Write>(
    file: u32,
    block: u32,
    seen: &Seen,
    f: &mut fmt::Formatter<W>,
) -> fmt::Result {
    if seen.named < BLOCK.saturating_mul(u64::from(block).saturating_add(1)) {
        write!(f, "dms: F{file:05}.DMS")?;
        write_of(seen.structure, f)?;
        f.write_str(" is missing or too short: rebuild from a dump, or put the file back\n")
    } else {
        let row = block / ROW;
        write!(f, "dms: reconstruct row {row}")?;
        write_of(seen.structure, f)?;
        f.write_str(", or rebuild, from a dump, or put back a copy of the whole database\n")
    }
}

/// What to do about a block of a file that can't be read: of the audit, of a dump, or of a structure.
fn write_damaged<W: fmt::Write>(
    file: u32,
    block: u32,
    seen: &Seen,
    f: &mut fmt::Formatter<W>,
) -> fmt::Result {
    match file {
        0..=20_000 => write_audit_damaged(file, block, seen, f),
        20_001..=30_000 => write_back(file, f),
        _ => write_block_damaged(file, block, seen, f),
    }
}

/// What to do about a limit.
fn write_limit<W: fmt::Write>(kind: LimitKind, f: &mut fmt::Formatter<W>) -> fmt::Result {
    match kind {
        LimitKind::AuditFile(number) if number >= MOST_FILES => {
            f.write_str("dms: no run opens this database any more; docs/GUIDE.md, A full audit\n")
        }
        LimitKind::AuditFile(_) => f.write_str(
            "dms: bring its records over to a new database; docs/GUIDE.md, A full audit\n",
        ),
        LimitKind::Lines | LimitKind::Bytes | LimitKind::Held => {
            f.write_str("dms: look what was carried out, and divide the rest of the script\n")
        }
    }
}

/// What is in the way of a command that makes something new.
fn exists_text(request: Option<Request>) -> &'static str {
    match request {
        Some(Request::Compile | Request::Load) => {
            "dms: F00001.DMS is a description; take another folder\n"
        }
        Some(Request::Initialize) => "dms: the folder has a database; take another folder\n",
        _ => "dms: that dump is there; name another number, or remove its file first\n",
    }
}

/// What has at most so many.
fn most_text(limit: u32) -> &'static str {
    match limit {
        3 => "dms: data sets stand within one another at most 3 levels deep\n",
        16 => "dms: a key has at most 16 items\n",
        30 => "dms: a name has at most 30 characters\n",
        60 => "dms: a data set has at most 60 items and links\n",
        100 => "dms: a condition has at most 100 comparisons and words NOT, AND and OR\n",
        200 => "dms: a schema has at most 200 structures\n",
        4_000 => "dms: a schema has at most 4000 links that are COUNTED\n",
        _ => "dms: a schema has at most 1000000 bytes\n",
    }
}

/// What helps with a schema that is refused for no one place of its text.
fn schema_text(fault: SchemaFault) -> &'static str {
    match fault {
        SchemaFault::Parse(ParseFault::TooMany(limit)) => most_text(limit),
        SchemaFault::Compile(CompileFault::RecordLong(_)) => {
            "dms: a record has at most 480 bytes; docs/GUIDE.md, The schema\n"
        }
        SchemaFault::Compile(CompileFault::KeyLong(_)) => {
            "dms: a key has at most 96 bytes; docs/GUIDE.md, The schema\n"
        }
        SchemaFault::Compile(CompileFault::DescriptionLong(_)) => {
            "dms: a description has at most 65535 bytes\n"
        }
        SchemaFault::Compile(CompileFault::NoRestart) => {
            "dms: a schema has one, as RDS RESTART DATA SET (STEP NUMBER(6););\n"
        }
        _ => "",
    }
}

impl Advice {
    /// Who named the point or the dump that the command went to.
    fn namer(&self) -> Namer {
        match self.request {
            Some(Request::Utility) => Namer::Statement,
            _ => Namer::Files,
        }
    }
}

/// What to do where memory was refused.
fn memory_text(request: Option<Request>) -> &'static str {
    match request {
        Some(Request::Run | Request::Utility) => "dms: give it more memory\n",
        _ => "",
    }
}

/// What to do where a call on a file failed, behind what the system said.
fn write_astray<W: fmt::Write>(seen: &Seen, f: &mut fmt::Formatter<W>) -> fmt::Result {
    match seen.astray {
        None => Ok(()),
        Some(file) => write!(f, "dms: F{file:05}.DMS is a link that leads to no file\n"),
    }
}

impl fmt::Display for Advice {
    fn fmt<W: fmt::Write>(&self, f: &mut fmt::Formatter<W>) -> fmt::Result {
        match self.ending {
            Ending::InUse => {
                f.write_str("dms: wait until the other command in this folder has ended\n")
            }
            Ending::Command(Status::NoDatabase) => write_none(&self.seen, f),
            Ending::Command(Status::Needed(need)) => write_need(need, self.namer(), f),
            Ending::Command(Status::Limit(kind)) => write_limit(kind, f),
            Ending::Command(Status::Damaged(file, block)) => {
                write_damaged(file, block, &self.seen, f)
            }
            Ending::Command(Status::SchemaRefused(fault)) => f.write_str(schema_text(fault)),
            Ending::Command(Status::DiskFault) => write_astray(&self.seen, f),
            Ending::Command(Status::Memory) => f.write_str(memory_text(self.request)),
            Ending::Command(Status::SayFault) => f.write_str(
                "dms: standard output is a file of a database; print to another place\n",
            ),
            Ending::Command(Status::Exists) => f.write_str(exists_text(self.request)),
            Ending::Command(Status::BadStatement(_)) => {
                f.write_str("dms: the statements are in dms utility --help\n")
            }
            Ending::Command(_) => Ok(()),
        }
    }
}
