ghost use Rattle.std.specs.Prelude.{◌≡◌};
ghost use Rattle.std.specs.List.{list_all};
ghost use Rattle.dms_base.specs.Words.{is_letter, is_digit, is_word_byte, is_word};

/// Whether a byte is a letter, A to Z. Outside quotes a text is folded to upper case first.
pub fn is_letter(byte: u8) -> bool
    ensures { result ≡ is_letter byte }
{
    b'A' <= byte && byte <= b'Z'
}

/// Whether a byte is a digit, 0 to 9.
pub fn is_digit(byte: u8) -> bool
    ensures { result ≡ is_digit byte }
{
    b'0' <= byte && byte <= b'9'
}

/// Whether a byte may stand within a word: a letter, a digit or `-`.
pub fn is_word_byte(byte: u8) -> bool
    ensures { result ≡ is_word_byte byte }
{
    is_letter(byte) || is_digit(byte) || byte == b'-'
}

/// Whether each byte may stand within a word.
fn has_word_bytes(bytes: &[u8]) -> bool
    ensures { result ≡ list_all is_word_byte bytes.now }
{
    bytes.iter().all(|byte| is_word_byte(*byte))
}

/// Whether bytes are a word: a letter, then letters, digits and `-`, the last not `-`.
#[tactic(auto, unfolding(crate::specs::Words::is_word))]
pub fn is_word(bytes: &[u8]) -> bool
    ensures { result ≡ is_word bytes.now }
{
    if bytes.is_empty() {
        return false;
    }
    is_letter(bytes[0]) && bytes[bytes.len() - 1] != b'-' && has_word_bytes(bytes)
}
