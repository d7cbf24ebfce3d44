//! The rows that a statement names.

ghost use Rattle.dms_statements.specs.Statements.{AreFewRows, Takes, row_at, rows_at};
ghost use Rattle.std.specs.Prelude.{◌≡◌, ◌+◌, [], length, IfOk};

use crate::StatementFault;
use crate::parts::{name, number, word};
use crate::statement::{NamedRow, NamedRows};
use dms_tokens::Cursor;

/// A statement that names more rows is bad.
const ROWS: u32 = 100;

/// One more row, which isn't among those before it.
#[tactic(auto, unfolding(crate::specs::Statements::row_at))]
fn row(mut rows: NamedRows, cursor: &mut Cursor<'_>) -> Result<NamedRows, StatementFault>
    ensures takes { Takes result cursor.new (row_at rows cursor.old) }
    ensures one { IfOk result (λ more. length more ≡ length rows + 1) }
{
    let place = cursor.place();
    let name = name(cursor)?;
    word(cursor, b"ROW")?;
    let row = number(cursor, 0, 4_294_967_295)? as u32;
    if rows.has(&name, row) {
        return Err(StatementFault::Bad(place));
    }
    rows.push(NamedRow { name, row })?;
    Ok(rows)
}

/// Rows with commas between them.
pub(crate) fn rows(cursor: &mut Cursor<'_>) -> Result<NamedRows, StatementFault>
    ensures takes { Takes result cursor.new (rows_at 100 [] cursor.old) }
    ensures few { IfOk result AreFewRows }
{
    let mut rows = NamedRows::new(cursor.alloc());
    for _turn in 0..ROWS {
        rows = row(rows, cursor)?;
        if !cursor.comma() {
            return Ok(rows);
        }
    }
    Err(StatementFault::Bad(cursor.place()))
}
