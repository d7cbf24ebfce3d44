//! Cuts a text into tokens, and goes from one token to the next.
#![tactic(auto)]

mod bytes;
mod constants;
mod cursor;
mod laws;
mod lexer;
mod reading;
mod token;

pub use bytes::{is_digit, with_digit};
pub use constants::constant;
pub use cursor::Cursor;
pub use laws::tokens_law;
pub use lexer::{tokens, tokens_from};
pub use token::{Lexeme, Lexemes, Token};
