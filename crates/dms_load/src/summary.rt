//! The schema, and what is told of a load.

ghost use Rattle.std.specs.Prelude.{◌≡◌, ◌++◌, IfOk, OnOk};
ghost use Rattle.dms_load.specs.Summary.{load_schema, summary_line, summary_text, times};

use dms_base::{Bytes, Memory};
use std::alloc::Global;

/// The schema of the script.
const SCHEMA: &[u8] = b"RDS RESTART DATA SET (PID ALPHA(10););
ACCOUNT DATA SET (ANO NUMBER(8) REQUIRED; BAL NUMBER(S9,2) INITIALVALUE = 0;);
ACCT-SET SET OF ACCOUNT KEY IS ANO;
RICH SUBSET OF ACCOUNT WHERE (BAL > 100) KEY IS BAL, DUPLICATES;
";

/// The schema of the script.
#[tactic(auto, unfolding(crate::specs::Summary::load_schema))]
pub fn schema_text() -> &'static [u8]
    ensures { result.now ≡ load_schema }
{
    SCHEMA
}

/// What is told of a load.
#[derive(Clone, Copy, Debug, PartialEq, Eq)]
pub struct Summary {
    /// How many lines the script has.
    pub lines: u32,
    /// How many of them were done, ended with an exception, were printed as waiting, and weren't answered.
    pub done: u64,
    pub exceptions: u64,
    pub held: u64,
    pub unanswered: u64,
    /// How many quiet points were made.
    pub quiets: u64,
    /// How many records the data set ACCOUNT has in the last of them.
    pub records: u64,
}

/// How often a word stands in a text.
pub fn times(word: &[u8], text: &[u8]) -> u64
    ensures { result ≡ times word.now text.now }
{
    let mut count = 0;
    for place in 0..text.len() {
        if text[place..].starts_with(word) {
            count += 1;
        }
    }
    count
}

/// A line of the summary.
#[tactic(auto, unfolding(crate::specs::Summary::summary_line))]
fn add_line(text: &mut Bytes, alloc: Global, name: &[u8], number: u64) -> Result<(), Memory>
    ensures { OnOk result (text.new ≡ text.old ++ summary_line name.now number) }
{
    let digits = format!(in alloc; "{number}")?;
    text.extend(name)?;
    text.extend(b" ")?;
    text.extend(digits.as_str().as_bytes())?;
    text.push(b'\n')?;
    Ok(())
}

/// The summary, in seven lines.
#[tactic(auto, unfolding(crate::specs::Summary::summary_text))]
pub fn summary_text(alloc: Global, summary: &Summary) -> Result<Bytes, Memory>
    ensures { IfOk result (λ text. text ≡ summary_text summary.now) }
{
    let mut text = Bytes::new(alloc);
    add_line(&mut text, alloc, b"LINES", u64::from(summary.lines))?;
    add_line(&mut text, alloc, b"DONE", summary.done)?;
    add_line(&mut text, alloc, b"EXCEPTIONS", summary.exceptions)?;
    add_line(&mut text, alloc, b"HELD", summary.held)?;
    add_line(&mut text, alloc, b"UNANSWERED", summary.unanswered)?;
    add_line(&mut text, alloc, b"QUIET POINTS", summary.quiets)?;
    add_line(&mut text, alloc, b"RECORDS", summary.records)?;
    Ok(text)
}
