ghost use Rattle.dasdl_phrases.specs.Reads.{Takes};
ghost use Rattle.dasdl_phrases.specs.Cursors.{until_close};
ghost use Rattle.dasdl_phrases.specs.Keys.{direction_at, part_at, next_part_at, parts_at, key_at};

use crate::expect::{expect_sign, expect_word, fault, read_name, starts_free};
use crate::fault::ParseFault;
use crate::key_parts::{KeyDecl, PartDecl, PartDecls};
use crate::turns::{Turns, read_turns};
use dms_tokens::Cursor;

/// The parts that a key may have.
pub const PARTS: usize = 16;

/// `[ASCENDING | DESCENDING]`: whether it is DESCENDING.
#[tactic(auto, unfolding(crate::specs::Keys::direction_at))]
fn direction(cursor: &mut Cursor<'_>) -> Result<bool, ParseFault>
    ensures { Takes result cursor.new (direction_at cursor.old) }
{
    if cursor.starts_word(b"ASCENDING") {
        expect_word(cursor, b"ASCENDING")?;
        return Ok(false);
    }
    if cursor.starts_word(b"DESCENDING") {
        expect_word(cursor, b"DESCENDING")?;
        return Ok(true);
    }
    Ok(false)
}

/// One more part of a key.
#[tactic(auto, unfolding(crate::specs::Keys::part_at))]
fn part(mut parts: PartDecls, cursor: &mut Cursor<'_>) -> Result<PartDecls, ParseFault>
    ensures { Takes result cursor.new (part_at parts cursor.old) }
{
    if !starts_free(cursor) {
        return Err(fault(cursor));
    }
    if parts.as_slice().len() >= PARTS {
        return Err(ParseFault::TooMany(16));
    }
    let name = read_name(cursor)?;
    let descending = direction(cursor)?;
    parts.push(PartDecl { name, descending })?;
    Ok(parts)
}

impl Turns for PartDecls {
    ghost done_at = { until_close };

    ghost turn_at = { next_part_at };

    fn is_done(&self, cursor: &Cursor<'_>) -> bool {
        cursor.starts_sign(b')')
    }

    #[tactic(auto, unfolding(crate::specs::Keys::next_part_at))]
    fn turn(self, cursor: &mut Cursor<'_>) -> Result<PartDecls, ParseFault> {
        expect_sign(cursor, b',')?;
        part(self, cursor)
    }
}

/// `part | ( part {, part} )`.
#[tactic(auto, unfolding(crate::specs::Keys::parts_at))]
fn parts(cursor: &mut Cursor<'_>) -> Result<PartDecls, ParseFault>
    ensures { Takes result cursor.new (parts_at cursor.old) }
{
    let nothing = PartDecls::new(cursor.alloc());
    if !cursor.starts_sign(b'(') {
        return part(nothing, cursor);
    }
    expect_sign(cursor, b'(')?;
    let first = part(nothing, cursor)?;
    let all = read_turns(first, cursor)?;
    expect_sign(cursor, b')')?;
    Ok(all)
}

/// `KEY IS parts`, where a 17th part is TooMany with 16. Answers BadCharacter or Expected at the first token that isn't
/// allowed, TooMany with 30 at a name that is too long, and Memory.
#[tactic(auto, unfolding(crate::specs::Keys::key_at))]
pub fn key(cursor: &mut Cursor<'_>) -> Result<KeyDecl, ParseFault>
    ensures { Takes result cursor.new (key_at cursor.old) }
{
    let place = cursor.place();
    expect_word(cursor, b"KEY")?;
    expect_word(cursor, b"IS")?;
    let parts = parts(cursor)?;
    Ok(KeyDecl { place, parts })
}
