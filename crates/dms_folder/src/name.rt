ghost use Rattle.std.specs.Prelude.{◌≡◌, ◌≢◌, ◌-◌, ◌<◌, ◌^◌, ℕ, MatchOption, replicate};
ghost use Rattle.dms_calls.specs.Names.{name_of};

use arrayvec::ArrayString;
use itoa::Buffer;

/// The greatest length of a file's name: `F`, ten digits, `.DMS`.
const LONGEST: usize = 15;

/// The zeros before a number of so many digits, which fill it up to five.
fn zeros_before(digits: usize) -> &'static str
    ensures zeros { result.now ≡ replicate (5 - digits) 48 }
{
    match digits {
        0 => "00000",
        1 => "0000",
        2 => "000",
        3 => "00",
        4 => "0",
        _ => "",
    }
}

/// The name of a file: `F`, at least five digits, `.DMS`. It takes no memory.
pub fn file_name(file: u32) -> ArrayString<LONGEST>
    ensures name { result.bytes ≡ name_of file }
{
    let mut buffer = Buffer::new();
    let digits = buffer.format(file);
    let mut name = ArrayString::new();
    name.push_str("F");
    name.push_str(zeros_before(digits.len()));
    name.push_str(digits);
    name.push_str(".DMS");
    name
}

/// The number of the file of this name, None where it is no name of a file.
pub fn file_number(name: &[u8]) -> Option<u32>
    ensures number { MatchOption result ((n : ℕ) → n < 2 ^ 32 → name.now ≢ name_of n) (λ n. (n < 2 ^ 32) × (name.now ≡ name_of n)) }
{
    if name.len() < 10 {
        return None;
    }
    let Ok(digits) = str::from_utf8(&name[1..name.len() - 4]) else {
        return None;
    };
    let Ok(number) = digits.parse::<u32>() else {
        return None;
    };
    if file_name(number).as_str().as_bytes() == name {
        return Some(number);
    }
    None
}
