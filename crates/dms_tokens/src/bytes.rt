ghost use Rattle.std.specs.Prelude.{◌≡◌, true};
ghost use Rattle.dms_tokens.specs.Lexing.{is_blank, is_plain, upper, is_letter, is_sign, with_digit, counted_on};
ghost use Rattle.dms_base.specs.Words.{is_digit};
ghost use Rattle.dms_base.specs.Text.{is_printable};

/// Whether a byte is a space, a tab, a CR or an LF.
pub fn is_blank(b: u8) -> bool
    ensures { result ≡ is_blank b }
{
    b == b' ' || b == b'\t' || b == b'\r' || b == b'\n'
}

/// Whether a comment may hold a byte.
pub fn is_plain(b: u8) -> bool
    ensures { result ≡ is_plain b }
{
    is_blank(b) || (b'!' <= b && b <= b'~')
}

/// Whether a string may hold a byte.
pub fn is_printable(b: u8) -> bool
    ensures { result ≡ is_printable b }
{
    b' ' <= b && b <= b'~'
}

/// A byte, where a lower-case letter counts as its upper case.
pub fn upper(b: u8) -> u8
    ensures { result ≡ upper b }
{
    if b'a' <= b && b <= b'z' { b - 32 } else { b }
}

/// Whether a byte is a letter of either case.
pub fn is_letter(b: u8) -> bool
    ensures { result ≡ is_letter b }
{
    b'A' <= upper(b) && upper(b) <= b'Z'
}

/// Whether a byte is a digit of ten.
pub fn is_digit(b: u8) -> bool
    ensures { result ≡ is_digit b }
{
    b'0' <= b && b <= b'9'
}

/// Whether a byte is a bracket, a comma or a semicolon.
pub fn is_sign(b: u8) -> bool
    ensures { result ≡ is_sign b }
{
    b == b'(' || b == b')' || b == b',' || b == b';'
}

/// A number with one more digit. From 19 digits on it is above all numbers of 18.
pub fn with_digit(n: u64, b: u8) -> u64
    requires { is_digit b ≡ true }
    ensures { result ≡ with_digit n b }
{
    if n < 100_000_000_000_000_000 {
        10 * n + u64::from(b - b'0')
    } else {
        1_000_000_000_000_000_000
    }
}

/// One more, where 19 stands for all counts above 18.
pub fn counted_on(n: u8) -> u8
    ensures { result ≡ counted_on n }
{
    if n < 19 { n + 1 } else { 19 }
}
