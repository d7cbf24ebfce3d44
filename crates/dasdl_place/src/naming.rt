use dms_base::Name;
use dms_tokens::{Lexeme, Token, tokens};
use std::alloc::Global;

/// A schema has so many bytes at most.
const MOST_BYTES: usize = 1_000_000;

/// Whether a token is this name.
fn is_named(lexeme: &Lexeme, name: &[u8]) -> bool {
    match &lexeme.token {
        Token::Word(bytes) => bytes.as_slice() == name,
        _ => false,
    }
}

/// The place at which a name stands in the text of a schema, counted in bytes from 1: its first one, or the one behind so many. None where it
/// stands there less often, and where memory is refused.
pub fn named(alloc: Global, text: &[u8], name: &Name, behind: usize) -> Option<u32> {
    if text.len() > MOST_BYTES {
        return None;
    }
    let Ok(all) = tokens(alloc, text) else {
        return None;
    };
    let name = name.bytes();
    let mut passed = 0usize;
    for lexeme in all.as_slice() {
        if is_named(lexeme, name) {
            if passed >= behind {
                return Some(lexeme.place);
            }
            passed = passed.saturating_add(1);
        }
    }
    None
}
