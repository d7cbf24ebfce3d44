ghost use Rattle.std.specs.Prelude.{◌≡◌, ◌++◌, ◌∷◌, [], OnErr, OnOk};

use dms_base::{Bytes, Memory, Op};
use std::alloc::Global;
use std::marker::Model;

/// A token of a text, or how the text ends.
#[derive(Drop)]
pub enum Token {
    /// A word in upper case.
    Word(Bytes),
    /// A number of 1 to 18 digits.
    Number(u64),
    /// A number with a sign or a point: whether it is negative, its digits, and how many of them
    /// stand behind the point.
    Decimal(bool, u64, u8),
    /// A number of more than 18 digits, with or without a sign and a point.
    Long,
    /// What a string has between its quotes, 200 characters at most.
    Quoted(Bytes),
    /// A bracket, a comma or a semicolon.
    Sign(u8),
    /// A comparison; `=` stands behind words, too.
    Compare(Op),
    /// A byte that begins no token, or a string that isn't one. No token follows it.
    Bad,
    /// The text's end. No token follows it.
    End,
}

/// A token, and the place of its first byte.
#[derive(Drop)]
pub struct Lexeme {
    pub token: Token,
    /// Counts bytes from 1. The end of a text stands at its length + 1.
    pub place: u32,
}

/// The tokens of a text.
#[derive(Drop)]
pub struct Lexemes {
    kept: Vec<Lexeme>,
}

impl Model for Lexemes {
    ghost use Rattle.std.specs.Prelude.{List};
    ghost use Rattle.dms_tokens.specs.declared.token.Lexeme.{Lexeme};

    ghost Value = { List Lexeme };

    ghost view = { λ v. v.kept.items };
}

impl Lexemes {
    /// The empty list.
    pub fn new(alloc: Global) -> Lexemes
        ensures { result ≡ [] }
    {
        Lexemes {
            kept: Vec::new(alloc),
        }
    }

    /// Adds one at the end. Answers Err where memory is refused; the list is unchanged then.
    pub fn push(&mut self, lexeme: Lexeme) -> Result<(), Memory>
        ensures ok { OnOk result (self.new ≡ self.old ++ lexeme ∷ []) }
        ensures err { OnErr result (self.new ≡ self.old) }
    {
        self.kept.push(lexeme)?;
        Ok(())
    }

    /// The list.
    pub fn as_slice(&self) -> &[Lexeme]
        ensures { result.now ≡ self.now }
    {
        self.kept.as_slice()
    }
}
