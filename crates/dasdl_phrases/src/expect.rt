ghost use Rattle.std.specs.Prelude.{◌≡◌, ◌≤◌, IfOk};
ghost use Rattle.dms_tokens.specs.Cursors.{starts};
ghost use Rattle.dasdl_phrases.specs.Reads.{Takes, Passes};
ghost use Rattle.dasdl_phrases.specs.Cursors.{fault_at, is_free, word_at, sign_at, equal_at, name_at, number_at};

use crate::fault::ParseFault;
use dms_base::{NAME_BYTES, Name, is_reserved};
use dms_tokens::{Cursor, Token};

/// The fault of the next token where it isn't allowed: its place counts bytes from 1, and is 0 where none is left.
pub fn fault(cursor: &Cursor<'_>) -> ParseFault
    ensures { result ≡ fault_at cursor.now }
{
    match cursor.rest() {
        [] => ParseFault::Expected(0),
        [first, ..] => match &first.token {
            Token::Bad => ParseFault::BadCharacter(first.place),
            _ => ParseFault::Expected(first.place),
        },
    }
}

/// Whether a word follows that isn't reserved.
pub fn starts_free(cursor: &Cursor<'_>) -> bool
    ensures { result ≡ starts is_free cursor.now }
{
    match cursor.rest() {
        [] => false,
        [first, ..] => match &first.token {
            Token::Word(bytes) => !is_reserved(bytes.as_slice()),
            _ => false,
        },
    }
}

/// This word, or the fault of the token that stands there.
#[tactic(auto, unfolding(crate::specs::Cursors::word_at))]
pub fn expect_word(cursor: &mut Cursor<'_>, word: &[u8]) -> Result<(), ParseFault>
    ensures { Passes result cursor.new (word_at word.now cursor.old) }
{
    if !cursor.starts_word(word) {
        return Err(fault(cursor));
    }
    cursor.skip();
    Ok(())
}

/// This sign, or the fault of the token that stands there.
#[tactic(auto, unfolding(crate::specs::Cursors::sign_at))]
pub fn expect_sign(cursor: &mut Cursor<'_>, sign: u8) -> Result<(), ParseFault>
    ensures { Passes result cursor.new (sign_at sign cursor.old) }
{
    if !cursor.starts_sign(sign) {
        return Err(fault(cursor));
    }
    cursor.skip();
    Ok(())
}

/// The sign `=`, or the fault of the token that stands there.
#[tactic(auto, unfolding(crate::specs::Cursors::equal_at))]
pub fn expect_equal(cursor: &mut Cursor<'_>) -> Result<(), ParseFault>
    ensures { Passes result cursor.new (equal_at cursor.old) }
{
    if !cursor.starts_equal() {
        return Err(fault(cursor));
    }
    cursor.skip();
    Ok(())
}

/// A name: a word of at most 30 bytes that isn't reserved. A longer one is TooMany with 30. Any other token is
/// BadCharacter or Expected with its place; where no token is left, the fault is Expected with 0.
#[tactic(auto, unfolding(crate::specs::Cursors::name_at))]
pub fn read_name(cursor: &mut Cursor<'_>) -> Result<Name, ParseFault>
    ensures { Takes result cursor.new (name_at cursor.old) }
{
    let [first, ..] = cursor.rest() else {
        return Err(ParseFault::Expected(0));
    };
    let Token::Word(word) = &first.token else {
        return Err(fault(cursor));
    };
    let bytes = word.as_slice();
    if is_reserved(bytes) {
        return Err(ParseFault::Expected(first.place));
    }
    if bytes.len() > NAME_BYTES {
        return Err(ParseFault::TooMany(30));
    }
    match Name::read(bytes) {
        None => Err(ParseFault::Expected(first.place)),
        Some(name) => {
            cursor.skip();
            Ok(name)
        }
    }
}

/// A number in this range, its ends included; one outside it is NumberRange with its place. Any other token is
/// BadCharacter or Expected with its place; where no token is left, the fault is Expected with 0.
#[tactic(auto, unfolding(crate::specs::Cursors::number_at))]
pub fn read_number(cursor: &mut Cursor<'_>, low: u64, high: u64) -> Result<u64, ParseFault>
    ensures gives { Takes result cursor.new (number_at low high cursor.old) }
    ensures within { IfOk result (λ n. n ≤ high) }
{
    let [first, ..] = cursor.rest() else {
        return Err(ParseFault::Expected(0));
    };
    match &first.token {
        Token::Number(n) => {
            if *n < low || high < *n {
                return Err(ParseFault::NumberRange(first.place));
            }
            cursor.skip();
            Ok(*n)
        }
        Token::Long => Err(ParseFault::NumberRange(first.place)),
        _ => Err(fault(cursor)),
    }
}
