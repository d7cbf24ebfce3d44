//! Reading a statement.

ghost use Rattle.std.specs.Prelude.{IfOk};
ghost use Rattle.dms_statements.specs.Statements.{Gives, IsFit, IsDumpNumber, dump_from, rollback_from, rebuild_to, rebuild_from, reconstruct_from, statement_from, statement_of};

use crate::parts::{ended, number, point, word};
use crate::rows::rows;
use crate::{Statement, StatementFault};
use dms_tokens::{Cursor, tokens};
use std::alloc::Global;

/// A text of more bytes is no statement.
const STATEMENT_BYTES: usize = 10_000;

fn dump_from(cursor: &mut Cursor<'_>) -> Result<Statement, StatementFault>
    ensures gives { Gives result (dump_from cursor.old) }
    ensures fit { IfOk result IsFit }
{
    word(cursor, b"TO")?;
    let dump = number(cursor, 1, 9999)?;
    ended(cursor, Statement::Dump(dump as u16))
}

fn rollback_from(cursor: &mut Cursor<'_>, text: &[u8]) -> Result<Statement, StatementFault>
    ensures gives { Gives result (rollback_from text.now cursor.old) }
    ensures fit { IfOk result IsFit }
{
    word(cursor, b"TO")?;
    let number = point(cursor, text)?;
    ended(cursor, Statement::Rollback(number))
}

fn rebuild_to(cursor: &mut Cursor<'_>, text: &[u8], dump: u16) -> Result<Statement, StatementFault>
    requires { IsDumpNumber dump }
    ensures gives { Gives result (rebuild_to text.now dump cursor.old) }
    ensures fit { IfOk result IsFit }
{
    if cursor.starts_word(b"TO") {
        cursor.skip();
        let number = point(cursor, text)?;
        ended(cursor, Statement::Rebuild(dump, Some(number)))
    } else {
        ended(cursor, Statement::Rebuild(dump, None))
    }
}

fn rebuild_from(cursor: &mut Cursor<'_>, text: &[u8]) -> Result<Statement, StatementFault>
    ensures gives { Gives result (rebuild_from text.now cursor.old) }
    ensures fit { IfOk result IsFit }
{
    word(cursor, b"FROM")?;
    let dump = number(cursor, 1, 9999)?;
    rebuild_to(cursor, text, dump as u16)
}

fn reconstruct_from(cursor: &mut Cursor<'_>) -> Result<Statement, StatementFault>
    ensures gives { Gives result (reconstruct_from cursor.old) }
    ensures fit { IfOk result IsFit }
{
    let rows = rows(cursor)?;
    word(cursor, b"FROM")?;
    let dump = number(cursor, 1, 9999)?;
    ended(cursor, Statement::Reconstruct(dump as u16, rows))
}

fn statement_from(cursor: &mut Cursor<'_>, text: &[u8]) -> Result<Statement, StatementFault>
    ensures gives { Gives result (statement_from text.now cursor.old) }
    ensures fit { IfOk result IsFit }
{
    if cursor.starts_word(b"DUMP") {
        cursor.skip();
        return dump_from(cursor);
    }
    if cursor.starts_word(b"ROLLBACK") {
        cursor.skip();
        return rollback_from(cursor, text);
    }
    if cursor.starts_word(b"REBUILD") {
        cursor.skip();
        return rebuild_from(cursor, text);
    }
    if cursor.starts_word(b"RECONSTRUCT") {
        cursor.skip();
        return reconstruct_from(cursor);
    }
    Err(StatementFault::Bad(cursor.place()))
}

/// The statement that a text is, or its first bad place. The numbers of dumps are from 1 to 9,999, and at most 100 rows are named.
#[tactic(auto, unfolding(crate::specs::Statements::statement_of))]
pub fn read_statement(alloc: Global, text: &[u8]) -> Result<Statement, StatementFault>
    ensures gives { Gives result (statement_of text.now) }
    ensures fit { IfOk result IsFit }
{
    if text.len() > STATEMENT_BYTES {
        return Err(StatementFault::Bad(10_001));
    }
    let lexemes = tokens(alloc, text)?;
    let mut cursor = Cursor::new(alloc, lexemes.as_slice());
    statement_from(&mut cursor, text)
}
