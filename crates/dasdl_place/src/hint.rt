use dms_base::Op;
use dms_tokens::{Lexeme, Token, tokens};
use std::alloc::Global;

/// A schema has so many bytes at most.
const MOST_BYTES: usize = 1_000_000;

/// A token of a schema by its text, as far as it decides what stands behind it.
#[derive(Clone, Copy)]
enum Mark<'a> {
    Word(&'a str),
    Sign(u8),
    Equal,
    Number,
    Other,
}

fn mark_of(lexeme: &Lexeme) -> Mark<'_> {
    match &lexeme.token {
        Token::Word(bytes) => match str::from_utf8(bytes.as_slice()) {
            Ok(word) => Mark::Word(word),
            Err(_) => Mark::Other,
        },
        Token::Sign(sign) => Mark::Sign(*sign),
        Token::Compare(Op::Equal) => Mark::Equal,
        Token::Number(_) => Mark::Number,
        _ => Mark::Other,
    }
}

/// The token so far from the end of these: 0 is the last one.
fn mark_back(before: &[Lexeme], back: usize) -> Mark<'_> {
    match before.iter().rev().nth(back) {
        None => Mark::Other,
        Some(lexeme) => mark_of(lexeme),
    }
}

/// What must stand behind a word of the language that isn't SET.
fn behind_word(word: &str) -> Option<&'static str> {
    match word {
        "RESTART" => Some("DATA"),
        "DATA" => Some("SET"),
        "SUBSET" => Some("OF"),
        "KEY" => Some("IS"),
        "LINK" => Some("TO"),
        "AUDIT" => Some("TRAIL"),
        "NO" => Some("DUPLICATES"),
        "INDEX" => Some("SEQUENTIAL"),
        "ORDERED" => Some("LIST"),
        "INITIALVALUE" | "POPULATION" => Some("="),
        "OF" | "TO" => Some("a name"),
        "PARAMETERS" | "TRAIL" | "GROUP" | "ALPHA" | "NUMBER" | "FIELD" => Some("("),
        _ => None,
    }
}

/// The unit of a number of PARAMETERS.
fn unit(word: &str) -> Option<&'static str> {
    match word {
        "SYNCPOINT" => Some("TRANSACTIONS"),
        "CONTROLPOINT" => Some("SYNCPOINTS"),
        "BUFFERS" => Some("BLOCKS"),
        _ => None,
    }
}

/// What must stand behind a number: the unit in PARAMETERS, a bracket behind the size of a text or a field.
fn behind_number(before: &[Lexeme]) -> Option<&'static str> {
    match (
        mark_back(before, 1),
        mark_back(before, 2),
        mark_back(before, 3),
        mark_back(before, 4),
    ) {
        (Mark::Sign(b'('), Mark::Word("ALPHA" | "FIELD"), _, _) => Some(")"),
        (Mark::Equal, Mark::Word(word), Mark::Sign(b'('), Mark::Word("PARAMETERS")) => unit(word),
        (Mark::Equal, Mark::Word(word), Mark::Sign(b','), _) => unit(word),
        _ => None,
    }
}

/// What must stand behind these tokens of a schema, where only one word or sign can.
fn behind(before: &[Lexeme]) -> Option<&'static str> {
    match (mark_back(before, 0), mark_back(before, 1)) {
        (Mark::Word("SET"), Mark::Word("DATA")) => Some("("),
        (Mark::Word("SET"), _) => Some("OF"),
        (Mark::Word(word), _) => behind_word(word),
        (Mark::Sign(b'('), Mark::Word("ALPHA" | "FIELD")) => Some("a number"),
        (Mark::Equal, Mark::Word("POPULATION")) => Some("a number"),
        (Mark::Number, _) => behind_number(before),
        _ => None,
    }
}

/// What must stand at a place of the text of a schema, counted in bytes from 1, where the token that stands there is the first
/// that isn't allowed. None where more than one word or sign can stand there, and where memory is refused.
pub fn wanted(alloc: Global, text: &[u8], place: u32) -> Option<&'static str> {
    let count = (place as usize).saturating_sub(1);
    if count > text.len() || count > MOST_BYTES {
        return None;
    }
    let Ok(all) = tokens(alloc, &text[..count]) else {
        return None;
    };
    match all.as_slice() {
        [] => None,
        [before @ .., _end] => behind(before),
    }
}
