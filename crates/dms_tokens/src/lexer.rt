ghost use Rattle.std.specs.Prelude.{◌≡◌, ◌++◌, ◌≤◌, ◌+◌, length, IfOk, ◌∷◌, [], true};
ghost use Rattle.dms_tokens.specs.Tokens.{first_digit, whole_digit, point_digit, number_token, character, fresh_byte, comment_byte, word_byte, dashes_byte, signed_byte, whole_byte, point_byte, fraction_byte, quoted_byte, quote_byte, less_byte, greater_byte, byte_turn, end_turn, then_end, then_bad, tokens_from, tokens_of, lexeme};
ghost use Rattle.dms_tokens.specs.declared.reading.Reading.TheVariants.{Between, Stopped};
ghost use Rattle.dms_tokens.specs.declared.token.Token.TheVariants.{Bad};
ghost use Rattle.dms_base.specs.Words.{is_digit};

use crate::bytes::{
    counted_on, is_blank, is_digit, is_letter, is_plain, is_printable, is_sign, upper, with_digit,
};
use crate::reading::{Digits, Reading};
use crate::token::{Lexeme, Lexemes, Token};
use dms_base::{Bytes, Memory, Op};
use std::alloc::Global;

fn first_digit(signed: bool, minus: bool, b: u8) -> Digits
    requires { is_digit b ≡ true }
    ensures { result ≡ first_digit signed minus b }
{
    Digits {
        signed,
        minus,
        value: u64::from(b - b'0'),
        count: 1,
        places: 0,
    }
}

fn whole_digit(digits: Digits, b: u8) -> Digits
    requires { is_digit b ≡ true }
    ensures { result ≡ whole_digit digits b }
{
    Digits {
        signed: digits.signed,
        minus: digits.minus,
        value: with_digit(digits.value, b),
        count: counted_on(digits.count),
        places: digits.places,
    }
}

fn point_digit(digits: Digits, b: u8) -> Digits
    requires { is_digit b ≡ true }
    ensures { result ≡ point_digit digits b }
{
    Digits {
        signed: digits.signed,
        minus: digits.minus,
        value: with_digit(digits.value, b),
        count: counted_on(digits.count),
        places: counted_on(digits.places),
    }
}

fn number_token(digits: Digits) -> Token
    ensures { result ≡ number_token digits }
{
    if digits.count > 18 {
        return Token::Long;
    }
    if digits.signed || digits.places > 0 {
        return Token::Decimal(digits.minus, digits.value, digits.places);
    }
    Token::Number(digits.value)
}

fn emit(out: &mut Lexemes, token: Token, place: u32) -> Result<(), Memory>
    ensures { IfOk result (λ _. out.new ≡ out.old ++ lexeme token place ∷ []) }
{
    out.push(Lexeme { token, place })
}

fn bad(out: &mut Lexemes, place: u32) -> Result<Reading, Memory>
    ensures reading { IfOk result (λ r. r ≡ Stopped) }
    ensures given { IfOk result (λ _. out.new ≡ out.old ++ lexeme Bad place ∷ []) }
{
    emit(out, Token::Bad, place)?;
    Ok(Reading::Stopped)
}

/// Takes a byte between tokens.
#[tactic(auto, unfolding(crate::specs::Tokens::fresh_byte))]
fn fresh_byte(alloc: Global, place: u32, b: u8, out: &mut Lexemes) -> Result<Reading, Memory>
    ensures reading { IfOk result (λ r. r ≡ (fresh_byte place b).1) }
    ensures given { IfOk result (λ r. out.new ≡ out.old ++ (fresh_byte place b).0) }
{
    if is_blank(b) {
        return Ok(Reading::Between);
    }
    if b == b'%' {
        return Ok(Reading::Comment);
    }
    if is_letter(b) {
        return Ok(Reading::Word(place, Bytes::copy_of(alloc, &[upper(b)])?));
    }
    if is_digit(b) {
        return Ok(Reading::Whole(place, first_digit(false, false, b)));
    }
    if b == b'+' || b == b'-' {
        return Ok(Reading::Signed(place, b == b'-'));
    }
    if b == b'"' {
        return Ok(Reading::Quoted(place, Bytes::new(alloc)));
    }
    if is_sign(b) {
        emit(out, Token::Sign(b), place)?;
        return Ok(Reading::Between);
    }
    if b == b'=' {
        emit(out, Token::Compare(Op::Equal), place)?;
        return Ok(Reading::Between);
    }
    if b == b'<' {
        return Ok(Reading::Less(place));
    }
    if b == b'>' {
        return Ok(Reading::Greater(place));
    }
    bad(out, place)
}

/// Takes a byte of a comment.
#[tactic(auto, unfolding(crate::specs::Tokens::comment_byte))]
fn comment_byte(place: u32, b: u8, out: &mut Lexemes) -> Result<Reading, Memory>
    ensures reading { IfOk result (λ r. r ≡ (comment_byte place b).1) }
    ensures given { IfOk result (λ r. out.new ≡ out.old ++ (comment_byte place b).0) }
{
    if b == b'\n' {
        return Ok(Reading::Between);
    }
    if is_plain(b) {
        return Ok(Reading::Comment);
    }
    bad(out, place)
}

/// Takes a byte behind a word.
#[tactic(auto, unfolding(crate::specs::Tokens::word_byte))]
fn word_byte(
    alloc: Global,
    start: u32,
    mut word: Bytes,
    place: u32,
    b: u8,
    out: &mut Lexemes,
) -> Result<Reading, Memory>
    ensures reading { IfOk result (λ r. r ≡ (word_byte start word place b).1) }
    ensures given { IfOk result (λ r. out.new ≡ out.old ++ (word_byte start word place b).0) }
{
    if is_letter(b) || is_digit(b) {
        word.push(upper(b))?;
        return Ok(Reading::Word(start, word));
    }
    if b == b'-' {
        return Ok(Reading::Dashes(start, word, place, Bytes::copy_of(alloc, &[b'-'])?));
    }
    emit(out, Token::Word(word), start)?;
    fresh_byte(alloc, place, b, out)
}

/// Takes a byte behind a word and `-`.
#[tactic(auto, unfolding(crate::specs::Tokens::dashes_byte))]
fn dashes_byte(
    start: u32,
    mut word: Bytes,
    at: u32,
    mut dashes: Bytes,
    b: u8,
    out: &mut Lexemes,
) -> Result<Reading, Memory>
    ensures reading { IfOk result (λ r. r ≡ (dashes_byte start word at dashes b).1) }
    ensures given { IfOk result (λ r. out.new ≡ out.old ++ (dashes_byte start word at dashes b).0) }
{
    if is_letter(b) || is_digit(b) {
        word.extend(dashes.as_slice())?;
        word.push(upper(b))?;
        return Ok(Reading::Word(start, word));
    }
    if b == b'-' {
        dashes.push(b'-')?;
        return Ok(Reading::Dashes(start, word, at, dashes));
    }
    emit(out, Token::Word(word), start)?;
    bad(out, at)
}

/// Takes a byte behind a sign.
#[tactic(auto, unfolding(crate::specs::Tokens::signed_byte))]
fn signed_byte(start: u32, minus: bool, b: u8, out: &mut Lexemes) -> Result<Reading, Memory>
    ensures reading { IfOk result (λ r. r ≡ (signed_byte start minus b).1) }
    ensures given { IfOk result (λ r. out.new ≡ out.old ++ (signed_byte start minus b).0) }
{
    if is_digit(b) {
        return Ok(Reading::Whole(start, first_digit(true, minus, b)));
    }
    bad(out, start)
}

/// Takes a byte behind digits.
#[tactic(auto, unfolding(crate::specs::Tokens::whole_byte))]
fn whole_byte(
    alloc: Global,
    start: u32,
    digits: Digits,
    place: u32,
    b: u8,
    out: &mut Lexemes,
) -> Result<Reading, Memory>
    ensures reading { IfOk result (λ r. r ≡ (whole_byte start digits place b).1) }
    ensures given { IfOk result (λ r. out.new ≡ out.old ++ (whole_byte start digits place b).0) }
{
    if is_digit(b) {
        return Ok(Reading::Whole(start, whole_digit(digits, b)));
    }
    if b == b'.' {
        return Ok(Reading::Point(start, digits, place));
    }
    emit(out, number_token(digits), start)?;
    fresh_byte(alloc, place, b, out)
}

/// Takes a byte behind a point.
#[tactic(auto, unfolding(crate::specs::Tokens::point_byte))]
fn point_byte(
    start: u32,
    digits: Digits,
    at: u32,
    b: u8,
    out: &mut Lexemes,
) -> Result<Reading, Memory>
    ensures reading { IfOk result (λ r. r ≡ (point_byte start digits at b).1) }
    ensures given { IfOk result (λ r. out.new ≡ out.old ++ (point_byte start digits at b).0) }
{
    if is_digit(b) {
        return Ok(Reading::Fraction(start, point_digit(digits, b)));
    }
    emit(out, number_token(digits), start)?;
    bad(out, at)
}

/// Takes a byte behind digits that follow a point.
#[tactic(auto, unfolding(crate::specs::Tokens::fraction_byte))]
fn fraction_byte(
    alloc: Global,
    start: u32,
    digits: Digits,
    place: u32,
    b: u8,
    out: &mut Lexemes,
) -> Result<Reading, Memory>
    ensures reading { IfOk result (λ r. r ≡ (fraction_byte start digits place b).1) }
    ensures given { IfOk result (λ r. out.new ≡ out.old ++ (fraction_byte start digits place b).0) }
{
    if is_digit(b) {
        return Ok(Reading::Fraction(start, point_digit(digits, b)));
    }
    emit(out, number_token(digits), start)?;
    fresh_byte(alloc, place, b, out)
}

/// Takes a character of a string.
#[tactic(auto, unfolding(crate::specs::Tokens::character))]
fn character(start: u32, mut text: Bytes, b: u8, out: &mut Lexemes) -> Result<Reading, Memory>
    ensures reading { IfOk result (λ r. r ≡ (character start text b).1) }
    ensures given { IfOk result (λ r. out.new ≡ out.old ++ (character start text b).0) }
{
    if text.as_slice().len() < 200 {
        text.push(b)?;
        return Ok(Reading::Quoted(start, text));
    }
    bad(out, start)
}

/// Takes a byte of a string.
#[tactic(auto, unfolding(crate::specs::Tokens::quoted_byte))]
fn quoted_byte(start: u32, text: Bytes, b: u8, out: &mut Lexemes) -> Result<Reading, Memory>
    ensures reading { IfOk result (λ r. r ≡ (quoted_byte start text b).1) }
    ensures given { IfOk result (λ r. out.new ≡ out.old ++ (quoted_byte start text b).0) }
{
    if b == b'"' {
        return Ok(Reading::Quote(start, text));
    }
    if is_printable(b) {
        return character(start, text, b, out);
    }
    bad(out, start)
}

/// Takes a byte behind a quote within a string.
#[tactic(auto, unfolding(crate::specs::Tokens::quote_byte))]
fn quote_byte(
    alloc: Global,
    start: u32,
    text: Bytes,
    place: u32,
    b: u8,
    out: &mut Lexemes,
) -> Result<Reading, Memory>
    ensures reading { IfOk result (λ r. r ≡ (quote_byte start text place b).1) }
    ensures given { IfOk result (λ r. out.new ≡ out.old ++ (quote_byte start text place b).0) }
{
    if b == b'"' {
        return character(start, text, b, out);
    }
    emit(out, Token::Quoted(text), start)?;
    fresh_byte(alloc, place, b, out)
}

/// Takes a byte behind `<`.
#[tactic(auto, unfolding(crate::specs::Tokens::less_byte))]
fn less_byte(
    alloc: Global,
    start: u32,
    place: u32,
    b: u8,
    out: &mut Lexemes,
) -> Result<Reading, Memory>
    ensures reading { IfOk result (λ r. r ≡ (less_byte start place b).1) }
    ensures given { IfOk result (λ r. out.new ≡ out.old ++ (less_byte start place b).0) }
{
    if b == b'=' {
        emit(out, Token::Compare(Op::LessEqual), start)?;
        return Ok(Reading::Between);
    }
    if b == b'>' {
        emit(out, Token::Compare(Op::NotEqual), start)?;
        return Ok(Reading::Between);
    }
    emit(out, Token::Compare(Op::Less), start)?;
    fresh_byte(alloc, place, b, out)
}

/// Takes a byte behind `>`.
#[tactic(auto, unfolding(crate::specs::Tokens::greater_byte))]
fn greater_byte(
    alloc: Global,
    start: u32,
    place: u32,
    b: u8,
    out: &mut Lexemes,
) -> Result<Reading, Memory>
    ensures reading { IfOk result (λ r. r ≡ (greater_byte start place b).1) }
    ensures given { IfOk result (λ r. out.new ≡ out.old ++ (greater_byte start place b).0) }
{
    if b == b'=' {
        emit(out, Token::Compare(Op::GreaterEqual), start)?;
        return Ok(Reading::Between);
    }
    emit(out, Token::Compare(Op::Greater), start)?;
    fresh_byte(alloc, place, b, out)
}

/// Takes a byte.
#[tactic(auto, unfolding(crate::specs::Tokens::byte_turn))]
fn byte_turn(
    alloc: Global,
    reading: Reading,
    place: u32,
    b: u8,
    out: &mut Lexemes,
) -> Result<Reading, Memory>
    ensures reading { IfOk result (λ r. r ≡ (byte_turn reading place b).1) }
    ensures given { IfOk result (λ r. out.new ≡ out.old ++ (byte_turn reading place b).0) }
{
    match reading {
        Reading::Between => fresh_byte(alloc, place, b, out),
        Reading::Comment => comment_byte(place, b, out),
        Reading::Word(start, word) => word_byte(alloc, start, word, place, b, out),
        Reading::Dashes(start, word, at, dashes) => dashes_byte(start, word, at, dashes, b, out),
        Reading::Signed(start, minus) => signed_byte(start, minus, b, out),
        Reading::Whole(start, digits) => whole_byte(alloc, start, digits, place, b, out),
        Reading::Point(start, digits, at) => point_byte(start, digits, at, b, out),
        Reading::Fraction(start, digits) => fraction_byte(alloc, start, digits, place, b, out),
        Reading::Quoted(start, text) => quoted_byte(start, text, b, out),
        Reading::Quote(start, text) => quote_byte(alloc, start, text, place, b, out),
        Reading::Less(start) => less_byte(alloc, start, place, b, out),
        Reading::Greater(start) => greater_byte(alloc, start, place, b, out),
        Reading::Stopped => Ok(Reading::Stopped),
    }
}

/// Takes the end of a text.
#[tactic(auto, unfolding(crate::specs::Tokens::end_turn))]
fn end_turn(reading: Reading, place: u32, out: &mut Lexemes) -> Result<(), Memory>
    ensures { IfOk result (λ _. out.new ≡ out.old ++ end_turn reading place) }
{
    match reading {
        Reading::Between | Reading::Comment => emit(out, Token::End, place),
        Reading::Word(start, word) => then_end(Token::Word(word), start, place, out),
        Reading::Dashes(start, word, at, _) => then_bad(Token::Word(word), start, at, out),
        Reading::Signed(start, _) => emit(out, Token::Bad, start),
        Reading::Whole(start, digits) => then_end(number_token(digits), start, place, out),
        Reading::Point(start, digits, at) => then_bad(number_token(digits), start, at, out),
        Reading::Fraction(start, digits) => then_end(number_token(digits), start, place, out),
        Reading::Quoted(start, _) => emit(out, Token::Bad, start),
        Reading::Quote(start, text) => then_end(Token::Quoted(text), start, place, out),
        Reading::Less(start) => then_end(Token::Compare(Op::Less), start, place, out),
        Reading::Greater(start) => then_end(Token::Compare(Op::Greater), start, place, out),
        Reading::Stopped => Ok(()),
    }
}

fn then_end(token: Token, start: u32, place: u32, out: &mut Lexemes) -> Result<(), Memory>
    ensures { IfOk result (λ _. out.new ≡ out.old ++ then_end token start place) }
{
    emit(out, token, start)?;
    emit(out, Token::End, place)
}

fn then_bad(token: Token, start: u32, at: u32, out: &mut Lexemes) -> Result<(), Memory>
    ensures { IfOk result (λ _. out.new ≡ out.old ++ then_bad token start at) }
{
    emit(out, token, start)?;
    emit(out, Token::Bad, at)
}

/// The tokens of a text. Answers Err where memory is refused.
pub fn tokens(alloc: Global, text: &[u8]) -> Result<Lexemes, Memory>
    requires { length text.now ≤ 1000000 }
    ensures { IfOk result (λ out. out ≡ tokens_of text.now) }
{
    tokens_from(alloc, 1, text)
}

/// The tokens of what follows in a text, its first byte at this place. Answers Err where memory is refused.
pub fn tokens_from(alloc: Global, first: u32, text: &[u8]) -> Result<Lexemes, Memory>
    requires { first + length text.now ≤ 1000001 }
    ensures { IfOk result (λ out. out ≡ tokens_from Between first text.now) }
{
    let mut out = Lexemes::new(alloc);
    let mut reading = Reading::Between;
    let mut place = first;
    for b in text {
        reading = byte_turn(alloc, reading, place, *b, &mut out)?;
        if let Reading::Stopped = reading {
            return Ok(out);
        }
        place += 1;
    }
    end_turn(reading, place, &mut out)?;
    Ok(out)
}
