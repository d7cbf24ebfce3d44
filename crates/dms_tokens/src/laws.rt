ghost use Rattle.std.specs.Prelude.{◌≡◌, ℕ, List};
ghost use Rattle.dms_tokens.specs.declared.token.Lexeme.{Lexeme};
ghost use Rattle.dms_tokens.specs.declared.reading.Reading.TheVariants.{Between};
ghost use Rattle.dms_tokens.specs.Spelling.{AreTokens};
ghost use Rattle.dms_tokens.specs.Tokens.{tokens_from};

/// Each text is cut into tokens in one way, each of which is the longest one at its place, and what is read of the
/// text are these.
pub fn tokens_law()
    ensures are { (place : ℕ) (text : List ℕ) → AreTokens place text (tokens_from Between place text) }
    ensures alone { (place : ℕ) (text : List ℕ) (ls : List Lexeme) → AreTokens place text ls → ls ≡ tokens_from Between place text }
{}
