ghost use Rattle.std.specs.Prelude.{◌≡◌};
ghost use Rattle.dms_tokens.specs.Cursors.{constant};

use dms_base::Literal;

/// The literal that a word in upper case is: TRUE, FALSE or NULL.
pub fn constant(word: &[u8]) -> Option<Literal>
    ensures { result ≡ constant word.now }
{
    if word == b"TRUE".as_slice() {
        return Some(Literal::Bool(true));
    }
    if word == b"FALSE".as_slice() {
        return Some(Literal::Bool(false));
    }
    if word == b"NULL".as_slice() {
        return Some(Literal::Null);
    }
    None
}
