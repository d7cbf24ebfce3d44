//! The tag that the words of `initialize` say.

ghost use Rattle.std.specs.Prelude.{◌≡◌, codes, map, string_bytes};
ghost use Rattle.std.specs.Str.{bytes_eq};
ghost use Rattle.dms_top.specs.Words.{number_behind, tag_of, initialize_tag};

/// The number that plain digits spell, where it is below 2^64; 0 of no digits.
fn number_of(digits: &[u8]) -> Option<u64>
    ensures { result ≡ number_behind 0 digits.now }
{
    let mut number: u64 = 0;
    for byte in digits {
        let digit = *byte;
        if digit < 48 {
            return None;
        }
        if digit > 57 {
            return None;
        }
        let next = u128::from(number) * 10 + u128::from(digit - 48);
        if next > 18_446_744_073_709_551_615 {
            return None;
        }
        number = next as u64;
    }
    Some(number)
}

/// The number that a word says in plain digits, as a tag.
pub(crate) fn tag_of(word: &[u8]) -> Option<u64>
    ensures { result ≡ tag_of word.now }
{
    if word.is_empty() {
        None
    } else {
        number_of(word)
    }
}

/// Whether a word is `initialize`.
fn is_initialize(word: &str) -> bool
    ensures { result ≡ bytes_eq word.now (codes "initialize") }
{
    word == "initialize"
}

/// The tag that the words of `initialize` say, 0 where they say none; None where they aren't its words.
pub fn initialize_tag(words: &[String]) -> Option<u64>
    ensures { result ≡ initialize_tag (map string_bytes words.now) }
{
    if words.is_empty() || words.len() > 2 {
        return None;
    }
    if !is_initialize(words[0].as_str()) {
        return None;
    }
    if words.len() == 1 {
        return Some(0);
    }
    tag_of(words[1].as_str().as_bytes())
}
