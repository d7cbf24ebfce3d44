ghost use Rattle.std.specs.Prelude.{◌≡◌, ◌/◌, Some, IfOk, length};
ghost use Rattle.dms_audrec.specs.Reading.{rows_at};
ghost use Rattle.dms_audrec.specs.Seen.{how_seen, entry_seen};
ghost use Rattle.dms_audprint.specs.Lines.{kind_words, entry_words, entry_line};

use dms_audrec::{BeginHow, Entry};
use dms_base::{Bytes, Memory};
use std::alloc::Global;
use std::fmt;

/// How many rows these bytes name.
#[tactic(auto, using(dms_audrec::proofs::Callers::rows_many))]
fn row_count(rows: &[u8]) -> usize
    ensures { result ≡ length (rows_at (length rows.now / 8) rows.now) }
{
    rows.len() / 8
}

/// How a restore goes, in words.
#[derive(Drop)]
struct HowText<'a>(BeginHow<'a>);

impl fmt::Display for HowText<'_> {
    ghost output = { λ h. Some (kind_words (how_seen h.0)) };

    fn fmt<W: fmt::Write>(&self, f: &mut fmt::Formatter<W>) -> fmt::Result {
        match self.0 {
            BeginHow::HaltLoad => f.write_str("HALTLOAD"),
            BeginHow::BackOut => f.write_str("BACKOUT"),
            BeginHow::Rollback => f.write_str("ROLLBACK"),
            BeginHow::Rebuild(dump) => write!(f, "REBUILD {dump}"),
            BeginHow::Reconstruct(dump, rows) => {
                let count = row_count(rows);
                write!(f, "RECONSTRUCT {dump} ROWS {count}")
            }
        }
    }
}

/// An entry in words.
#[derive(Drop)]
struct EntryText<'a>(Entry<'a>);

impl fmt::Display for EntryText<'_> {
    ghost output = { λ e. Some (entry_words (entry_seen e.0)) };

    fn fmt<W: fmt::Write>(&self, f: &mut fmt::Formatter<W>) -> fmt::Result {
        match self.0 {
            Entry::Schema(part, parts, bytes) => {
                let length = bytes.len();
                write!(f, "SCHEMA {part} OF {parts} LENGTH {length}")
            }
            Entry::Image(file, block, None, _) => write!(f, "IMAGE {file} {block} NEW"),
            Entry::Image(file, block, Some(_), _) => write!(f, "IMAGE {file} {block} CHANGED"),
            Entry::Range(file, block, place, bytes) => {
                let length = bytes.len();
                write!(f, "RANGE {file} {block} AT {place} LENGTH {length}")
            }
            Entry::Quiet(n) => write!(f, "QUIET {n}"),
            Entry::Control(n, next, _) => write!(f, "CONTROL {n} NEXT {next}"),
            Entry::Begin(n, how) => write!(f, "BEGIN {n} {}", HowText(how)),
        }
    }
}

/// The line of an entry, with a line feed at its end.
#[derive(Drop)]
pub struct EntryLine<'a> {
    /// The number of its audit file, from 1.
    pub audit: u32,
    /// The number of its block in that file, from 1.
    pub block: u32,
    pub entry: Entry<'a>,
}

impl fmt::Display for EntryLine<'_> {
    ghost output = { λ l. Some (entry_line l.audit l.block (entry_seen l.entry)) };

    fn fmt<W: fmt::Write>(&self, f: &mut fmt::Formatter<W>) -> fmt::Result {
        let audit = self.audit;
        let block = self.block;
        writeln!(f, "{audit} {block} {}", EntryText(self.entry))
    }
}

/// The line of an entry as text. Answers Err where memory is refused.
pub fn line_text(alloc: Global, line: &EntryLine<'_>) -> Result<Bytes, Memory>
    ensures { IfOk result (λ text. text ≡ entry_line line.now.audit line.now.block (entry_seen line.now.entry)) }
{
    let written = format!(in alloc; "{line}")?;
    Bytes::copy_of(alloc, written.as_str().as_bytes())
}
