//! The parts of which statements consist.

ghost use Rattle.std.specs.Prelude.{◌≡◌, ◌≤◌, IfOk};
ghost use Rattle.dms_statements.specs.Statements.{Passes, Takes, Gives, word_left, name_at, number_at, point_at, ended};

use crate::digits::long_value;
use crate::{Statement, StatementFault};
use dms_base::Name;
use dms_tokens::{Cursor, Token};

/// Leaves a word behind.
pub(crate) fn word(cursor: &mut Cursor<'_>, word: &[u8]) -> Result<(), StatementFault>
    ensures { Passes result cursor.new (word_left word.now cursor.old) }
{
    if cursor.starts_word(word) {
        cursor.skip();
        Ok(())
    } else {
        Err(StatementFault::Bad(cursor.place()))
    }
}

/// The name of a structure.
pub(crate) fn name(cursor: &mut Cursor<'_>) -> Result<Name, StatementFault>
    ensures { Takes result cursor.new (name_at cursor.old) }
{
    let first = match cursor.rest() {
        [] => return Err(StatementFault::Bad(0)),
        [first, ..] => first,
    };
    match &first.token {
        Token::Word(bytes) => match Name::read(bytes.as_slice()) {
            Some(name) => {
                cursor.skip();
                Ok(name)
            }
            None => Err(StatementFault::Bad(first.place)),
        },
        _ => Err(StatementFault::Bad(first.place)),
    }
}

/// A number from `least` to `most`.
pub(crate) fn number(cursor: &mut Cursor<'_>, least: u64, most: u64) -> Result<u64, StatementFault>
    ensures gives { Takes result cursor.new (number_at least most cursor.old) }
    ensures within { IfOk result (λ n. (least ≤ n) × (n ≤ most)) }
{
    let first = match cursor.rest() {
        [] => return Err(StatementFault::Bad(0)),
        [first, ..] => first,
    };
    match &first.token {
        Token::Number(value) => {
            if least <= *value && *value <= most {
                cursor.skip();
                Ok(*value)
            } else {
                Err(StatementFault::Bad(first.place))
            }
        }
        _ => Err(StatementFault::Bad(first.place)),
    }
}

/// The number of a point.
pub(crate) fn point(cursor: &mut Cursor<'_>, text: &[u8]) -> Result<u64, StatementFault>
    ensures { Takes result cursor.new (point_at text.now cursor.old) }
{
    let first = match cursor.rest() {
        [] => return Err(StatementFault::Bad(0)),
        [first, ..] => first,
    };
    match &first.token {
        Token::Number(value) => {
            cursor.skip();
            Ok(*value)
        }
        Token::Long => {
            let at = (first.place.saturating_sub(1) as usize).min(text.len());
            match long_value(&text[at..]) {
                Some(value) => {
                    cursor.skip();
                    Ok(value)
                }
                None => Err(StatementFault::Bad(first.place)),
            }
        }
        _ => Err(StatementFault::Bad(first.place)),
    }
}

/// The end of a statement.
pub(crate) fn ended(
    cursor: &mut Cursor<'_>,
    statement: Statement,
) -> Result<Statement, StatementFault>
    ensures gives { Gives result (ended statement cursor.old) }
    ensures same { IfOk result (λ s. s ≡ statement) }
{
    if cursor.starts_sign(59) {
        cursor.skip();
    }
    if cursor.starts_end() {
        Ok(statement)
    } else {
        Err(StatementFault::Bad(cursor.place()))
    }
}
