ghost use Rattle.std.specs.Prelude.{◌≡◌, drop};
ghost use Rattle.dms_tokens.specs.Cursors.{place_at, is_word, is_the_sign, is_equal, is_end, is_bad, starts, past_comma};

use crate::token::{Lexeme, Token};
use dms_base::Op;
use std::alloc::Global;
use std::marker::Model;

/// What is left of the tokens of a text.
#[derive(Drop)]
pub struct Cursor<'a> {
    rest: &'a [Lexeme],
    alloc: Global,
}

impl<'a> Model for Cursor<'a> {
    ghost use Rattle.std.specs.Prelude.{List};
    ghost use Rattle.dms_tokens.specs.declared.token.Lexeme.{Lexeme};

    ghost Value = { List Lexeme };

    ghost view = { λ c. c.rest.now };
}

impl<'a> Cursor<'a> {
    /// At the first of these tokens.
    pub fn new(alloc: Global, tokens: &'a [Lexeme]) -> Cursor<'a>
        ensures { result ≡ tokens.now }
    {
        Cursor {
            rest: tokens,
            alloc,
        }
    }

    /// The allocator for what is read.
    pub fn alloc(&self) -> Global {
        self.alloc
    }

    /// What is left.
    pub fn rest(&self) -> &'a [Lexeme]
        ensures { result.now ≡ self.now }
    {
        self.rest
    }

    /// The place of the next token, or 0 where none is left.
    pub fn place(&self) -> u32
        ensures { result ≡ place_at self.now }
    {
        match self.rest {
            [] => 0,
            [first, ..] => first.place,
        }
    }

    /// Leaves the next token behind.
    pub fn skip(&mut self)
        ensures { self.new ≡ drop 1 self.old }
    {
        if let [_, rest @ ..] = self.rest {
            self.rest = rest;
        }
    }

    /// Whether the next token is this word.
    pub fn starts_word(&self, word: &[u8]) -> bool
        ensures { result ≡ starts (is_word word.now) self.now }
    {
        match self.rest {
            [] => false,
            [first, ..] => match &first.token {
                Token::Word(bytes) => bytes.as_slice() == word,
                _ => false,
            },
        }
    }

    /// Whether the next token is this sign.
    pub fn starts_sign(&self, sign: u8) -> bool
        ensures { result ≡ starts (is_the_sign sign) self.now }
    {
        match self.rest {
            [] => false,
            [first, ..] => match &first.token {
                Token::Sign(b) => *b == sign,
                _ => false,
            },
        }
    }

    /// Whether the next token is `=`.
    pub fn starts_equal(&self) -> bool
        ensures { result ≡ starts is_equal self.now }
    {
        match self.rest {
            [] => false,
            [first, ..] => match &first.token {
                Token::Compare(Op::Equal) => true,
                _ => false,
            },
        }
    }

    /// Whether the text is at its end.
    pub fn starts_end(&self) -> bool
        ensures { result ≡ starts is_end self.now }
    {
        match self.rest {
            [] => false,
            [first, ..] => match &first.token {
                Token::End => true,
                _ => false,
            },
        }
    }

    /// Whether a byte follows that begins no token, or a string that isn't one.
    pub fn starts_bad(&self) -> bool
        ensures { result ≡ starts is_bad self.now }
    {
        match self.rest {
            [] => false,
            [first, ..] => match &first.token {
                Token::Bad => true,
                _ => false,
            },
        }
    }

    /// Takes a comma where there is one, and says whether there was.
    pub fn comma(&mut self) -> bool
        ensures found { result ≡ starts (is_the_sign 44) self.old }
        ensures left { self.new ≡ past_comma self.old }
    {
        let found = self.starts_sign(b',');
        if found {
            self.skip();
        }
        found
    }
}
