ghost use Rattle.std.specs.Prelude.{◌≡◌, ◌<◌, Bool};
ghost use Rattle.dasdl_phrases.specs.Reads.{Takes};
ghost use Rattle.dms_tokens.specs.Cursors.{starts};
ghost use Rattle.dasdl_phrases.specs.Kinds.{literal_at, digits_from, joined_number, signed_width_at, is_any_word, width_at, size_at, places_at, alpha_at, field_at, decimal_at, truth_at, kind_at, starts_kind};

use crate::expect::{expect_sign, expect_word, fault, read_number};
use crate::fault::ParseFault;
use dms_base::{ItemKind, Literal, Text};
use dms_tokens::{Cursor, Token, constant, is_digit, with_digit};

/// A literal. Answers BadCharacter or Expected where none stands there, NumberRange at a number that is too long, and
/// Memory.
#[tactic(auto, unfolding(crate::specs::Kinds::literal_at))]
pub fn literal(cursor: &mut Cursor<'_>) -> Result<Literal, ParseFault>
    ensures { Takes result cursor.new (literal_at cursor.old) }
{
    let [first, ..] = cursor.rest() else {
        return Err(ParseFault::Expected(0));
    };
    let literal = match &first.token {
        Token::Quoted(bytes) => match Text::read(cursor.alloc(), bytes.as_slice())? {
            None => return Err(ParseFault::BadCharacter(first.place)),
            Some(text) => Literal::Text(text),
        },
        Token::Number(digits) => Literal::Number(false, *digits, 0),
        Token::Decimal(minus, digits, places) => Literal::Number(*minus, *digits, *places),
        Token::Long => return Err(ParseFault::NumberRange(first.place)),
        Token::Word(word) => match constant(word.as_slice()) {
            None => return Err(ParseFault::Expected(first.place)),
            Some(literal) => literal,
        },
        _ => return Err(fault(cursor)),
    };
    cursor.skip();
    Ok(literal)
}

/// The number that digits spell.
fn digits_value(digits: &[u8]) -> Option<u64>
    ensures { result ≡ digits_from 0 digits.now }
{
    let mut value = 0u64;
    for digit in digits {
        if !is_digit(*digit) {
            return None;
        }
        value = with_digit(value, *digit);
    }
    Some(value)
}

/// The number in a word that is an S joined to digits.
#[tactic(auto, unfolding(crate::specs::Kinds::joined_number))]
fn joined_number(word: &[u8]) -> Option<u64>
    ensures { result ≡ joined_number word.now }
{
    let [first, digits @ ..] = word else {
        return None;
    };
    if digits.is_empty() || *first != b'S' {
        return None;
    }
    match digits_value(digits) {
        None => None,
        Some(_) if digits.len() > 18 => Some(1_000_000_000_000_000_000),
        Some(value) => Some(value),
    }
}

/// `S number`, where the S may be joined to the digits, 1 to 18.
#[tactic(auto, unfolding(crate::specs::Kinds::signed_width_at))]
fn signed_width(cursor: &mut Cursor<'_>) -> Result<(bool, u8), ParseFault>
    ensures { Takes result cursor.new (signed_width_at cursor.old) }
{
    let [first, ..] = cursor.rest() else {
        return Err(ParseFault::Expected(0));
    };
    let Token::Word(word) = &first.token else {
        return Err(fault(cursor));
    };
    if word.as_slice() == b"S".as_slice() {
        cursor.skip();
        let digits = read_number(cursor, 1, 18)?;
        return Ok((true, digits as u8));
    }
    match joined_number(word.as_slice()) {
        None => Err(ParseFault::Expected(first.place)),
        Some(digits) => {
            if digits < 1 || 18 < digits {
                return Err(ParseFault::NumberRange(first.place.saturating_add(1)));
            }
            cursor.skip();
            Ok((true, digits as u8))
        }
    }
}

fn starts_any_word(cursor: &Cursor<'_>) -> bool
    ensures { result ≡ starts is_any_word cursor.now }
{
    match cursor.rest() {
        [] => false,
        [first, ..] => match &first.token {
            Token::Word(_) => true,
            _ => false,
        },
    }
}

/// `[S] number`: whether S is said, and the number, 1 to 18.
#[tactic(auto, unfolding(crate::specs::Kinds::width_at))]
fn width(cursor: &mut Cursor<'_>) -> Result<(bool, u8), ParseFault>
    ensures { Takes result cursor.new (width_at cursor.old) }
{
    if starts_any_word(cursor) {
        return signed_width(cursor);
    }
    let digits = read_number(cursor, 1, 18)?;
    Ok((false, digits as u8))
}

/// `( number )`.
#[tactic(auto, unfolding(crate::specs::Kinds::size_at))]
fn size(cursor: &mut Cursor<'_>, high: u8) -> Result<u8, ParseFault>
    ensures { Takes result cursor.new (size_at high cursor.old) }
{
    expect_sign(cursor, b'(')?;
    let number = read_number(cursor, 1, u64::from(high))?;
    expect_sign(cursor, b')')?;
    Ok(number as u8)
}

/// `[, number]`.
#[tactic(auto, unfolding(crate::specs::Kinds::places_at))]
fn places(cursor: &mut Cursor<'_>, high: u8) -> Result<u8, ParseFault>
    ensures { Takes result cursor.new (places_at high cursor.old) }
{
    if !cursor.starts_sign(b',') {
        return Ok(0);
    }
    expect_sign(cursor, b',')?;
    let number = read_number(cursor, 0, u64::from(high))?;
    Ok(number as u8)
}

#[tactic(auto, unfolding(crate::specs::Kinds::alpha_at))]
fn alpha(cursor: &mut Cursor<'_>) -> Result<ItemKind, ParseFault>
    ensures { Takes result cursor.new (alpha_at cursor.old) }
{
    expect_word(cursor, b"ALPHA")?;
    let characters = size(cursor, 200)?;
    Ok(ItemKind::Alpha(characters))
}

#[tactic(auto, unfolding(crate::specs::Kinds::field_at))]
fn field(cursor: &mut Cursor<'_>) -> Result<ItemKind, ParseFault>
    ensures { Takes result cursor.new (field_at cursor.old) }
{
    expect_word(cursor, b"FIELD")?;
    let bits = size(cursor, 48)?;
    Ok(ItemKind::Field(bits))
}

#[tactic(auto, unfolding(crate::specs::Kinds::decimal_at))]
fn decimal(cursor: &mut Cursor<'_>) -> Result<ItemKind, ParseFault>
    ensures { Takes result cursor.new (decimal_at cursor.old) }
{
    expect_word(cursor, b"NUMBER")?;
    expect_sign(cursor, b'(')?;
    let (signed, digits) = width(cursor)?;
    let behind_point = places(cursor, digits)?;
    expect_sign(cursor, b')')?;
    Ok(ItemKind::Number(digits, behind_point, signed))
}

#[tactic(auto, unfolding(crate::specs::Kinds::truth_at))]
fn truth(cursor: &mut Cursor<'_>) -> Result<ItemKind, ParseFault>
    ensures { Takes result cursor.new (truth_at cursor.old) }
{
    expect_word(cursor, b"BOOLEAN")?;
    Ok(ItemKind::Bool)
}

/// Whether an item's type follows.
pub fn starts_kind(cursor: &Cursor<'_>) -> bool
    ensures { result ≡ starts_kind cursor.now }
{
    cursor.starts_word(b"ALPHA")
        || cursor.starts_word(b"NUMBER")
        || cursor.starts_word(b"BOOLEAN")
        || cursor.starts_word(b"FIELD")
}

/// An item's type. Answers BadCharacter or Expected at the first token that isn't allowed, and NumberRange at a number
/// outside its range.
#[tactic(auto, unfolding(crate::specs::Kinds::kind_at))]
pub fn kind(cursor: &mut Cursor<'_>) -> Result<ItemKind, ParseFault>
    ensures { Takes result cursor.new (kind_at cursor.old) }
{
    if cursor.starts_word(b"ALPHA") {
        return alpha(cursor);
    }
    if cursor.starts_word(b"NUMBER") {
        return decimal(cursor);
    }
    if cursor.starts_word(b"BOOLEAN") {
        return truth(cursor);
    }
    field(cursor)
}
