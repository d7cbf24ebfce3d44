//! The texts of lines. They take no memory.

ghost use Rattle.std.specs.Prelude.{◌≡◌, ◌≤◌, ◌<◌, ◌+◌, ◌++◌, decimal};
ghost use Rattle.arrayvec.specs.ArrayString.{array_string_len};
ghost use Rattle.dms_load.specs.Script.{head_text, hundredths, open_text, phase_text, verb_text};

use crate::phase::Phase;
use arrayvec::ArrayString;
use itoa::Buffer;

/// No line has so many bytes.
const LONGEST: usize = 128;

/// A line of the script, with its line feed.
pub type LoadLine = ArrayString<LONGEST>;

/// Adds the digits of a number.
fn add_number(line: &mut LoadLine, number: u32)
    requires room { array_string_len line.old + 10 ≤ 128 }
    ensures bytes { line.new.bytes ≡ line.old.bytes ++ decimal number }
    ensures len { array_string_len line.new ≤ array_string_len line.old + 10 }
{
    let mut buffer = Buffer::new();
    line.push_str(buffer.format(number));
}

/// Adds an amount of so many hundredths, with two decimals.
#[tactic(auto, unfolding(crate::specs::Script::hundredths))]
fn add_hundredths(line: &mut LoadLine, amount: u32)
    requires room { array_string_len line.old + 31 ≤ 128 }
    ensures bytes { line.new.bytes ≡ line.old.bytes ++ hundredths amount }
    ensures len { array_string_len line.new ≤ array_string_len line.old + 31 }
{
    add_number(line, amount / 100);
    line.push_str(".");
    add_number(line, amount / 10 % 10);
    add_number(line, amount % 10);
}

/// Adds the verb of a phase, with this key and by this draw.
#[tactic(auto, unfolding(crate::specs::Script::verb_text))]
fn add_verb(line: &mut LoadLine, phase: Phase, key: u32, draw: u32)
    requires room { array_string_len line.old + 67 ≤ 128 }
    ensures bytes { line.new.bytes ≡ line.old.bytes ++ verb_text phase key draw }
    ensures len { array_string_len line.new ≤ array_string_len line.old + 67 }
{
    match phase {
        Phase::Begin => line.push_str("BEGIN-TRANSACTION NO-AUDIT RDS"),
        Phase::Choose => {
            if draw % 2 == 0 {
                line.push_str("CREATE ACCOUNT");
            } else {
                line.push_str("LOCK ACCT-SET AT ANO = ");
                add_number(line, key);
            }
        }
        Phase::Put => {
            line.push_str("PUT ACCOUNT ANO = ");
            add_number(line, key);
            line.push_str(", BAL = ");
            add_hundredths(line, draw % 20_001);
        }
        Phase::Store => line.push_str("STORE ACCOUNT"),
        Phase::End => line.push_str("END-TRANSACTION NO-AUDIT RDS"),
    }
}

/// A line up to its verb.
#[tactic(auto, unfolding(crate::specs::Script::head_text))]
fn line_head(program: u32) -> LoadLine
    ensures bytes { result.bytes ≡ head_text program }
    ensures len { array_string_len result ≤ 13 }
{
    let mut line = ArrayString::new();
    line.push_str("P");
    add_number(&mut line, program);
    line.push_str(": ");
    line
}

/// The line in which a program opens the database.
#[tactic(auto, unfolding(crate::specs::Script::open_text))]
pub fn open_line(program: u32) -> LoadLine
    ensures bytes { result.bytes ≡ open_text program }
    ensures some { 0 < array_string_len result }
{
    let mut line = line_head(program);
    line.push_str("OPEN UPDATE\n");
    line
}

/// The line of a program in a phase, with this key and by this draw.
#[tactic(auto, unfolding(crate::specs::Script::phase_text))]
pub fn phase_line(program: u32, phase: Phase, key: u32, draw: u32) -> LoadLine
    ensures bytes { result.bytes ≡ phase_text program phase key draw }
    ensures some { 0 < array_string_len result }
{
    let mut line = line_head(program);
    add_verb(&mut line, phase, key, draw);
    line.push_str("\n");
    line
}
