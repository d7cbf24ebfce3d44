//! Big-endian fields of byte strings, by their places. A place counts bytes from 0.
#![tactic(auto)]

ghost use Rattle.std.specs.Prelude.{◌≡◌, ◌+◌, ◌^◌, ◌≤◌, ◌<◌, ℕ, List, [], ◌∷◌, length, option_map, Some};
ghost use Rattle.std.specs.Int.{w16, w32, w64, to_be_bytes};
ghost use Rattle.dms_fields.specs.Fields.{bytes_at, number_at, lay_bytes};

mod prefix;

pub use prefix::{slice_at, u8_at, u16_at, u32_at, u64_at};

/// The `n` bytes from a place on; None exactly where too few are left.
pub fn take_bytes(bytes: &[u8], at: usize, n: usize) -> Option<&[u8]>
    ensures { option_map (λ b. b.now) result ≡ bytes_at bytes.now at n }
{
    if bytes.len() < at || bytes.len() - at < n {
        return None;
    }
    Some(&bytes[at..at + n])
}

/// The number in the two bytes from a place on; None exactly where too few are left.
pub fn take_u16(bytes: &[u8], at: usize) -> Option<u16>
    ensures { result ≡ number_at w16 bytes.now at }
{
    let field = take_bytes(bytes, at, 2)?;
    Some(u16::from_be_bytes([field[0], field[1]]))
}

/// The number in the four bytes from a place on; None exactly where too few are left.
pub fn take_u32(bytes: &[u8], at: usize) -> Option<u32>
    ensures { result ≡ number_at w32 bytes.now at }
{
    let field = take_bytes(bytes, at, 4)?;
    Some(u32::from_be_bytes([field[0], field[1], field[2], field[3]]))
}

/// The number in the eight bytes from a place on; None exactly where too few are left.
pub fn take_u64(bytes: &[u8], at: usize) -> Option<u64>
    ensures { result ≡ number_at w64 bytes.now at }
{
    let field = take_bytes(bytes, at, 8)?;
    Some(u64::from_be_bytes([
        field[0], field[1], field[2], field[3], field[4], field[5], field[6], field[7],
    ]))
}

/// Writes bytes over those from a place on.
#[tactic(auto, using(std::proofs::lemmas::List::places), unfolding(crate::specs::Fields::lay_bytes))]
pub fn put_bytes(to: &mut [u8], at: usize, bytes: &[u8])
    requires { at + length bytes.now ≤ length to.old }
    ensures { to.new ≡ lay_bytes at bytes.now to.old }
{
    to[at..at + bytes.len()].copy_from_slice(bytes);
}

/// Writes a byte at a place.
pub fn put_u8(to: &mut [u8], at: usize, v: u8)
    requires { at + 1 ≤ length to.old }
    ensures { to.new ≡ lay_bytes at (v ∷ []) to.old }
{
    put_bytes(to, at, &[v]);
}

/// Writes a number into the two bytes from a place on.
pub fn put_u16(to: &mut [u8], at: usize, v: u16)
    requires { at + 2 ≤ length to.old }
    ensures { to.new ≡ lay_bytes at (to_be_bytes w16 v) to.old }
{
    put_bytes(to, at, &v.to_be_bytes());
}

/// Writes a number into the four bytes from a place on.
pub fn put_u32(to: &mut [u8], at: usize, v: u32)
    requires { at + 4 ≤ length to.old }
    ensures { to.new ≡ lay_bytes at (to_be_bytes w32 v) to.old }
{
    put_bytes(to, at, &v.to_be_bytes());
}

/// Writes a number into the eight bytes from a place on.
pub fn put_u64(to: &mut [u8], at: usize, v: u64)
    requires { at + 8 ≤ length to.old }
    ensures { to.new ≡ lay_bytes at (to_be_bytes w64 v) to.old }
{
    put_bytes(to, at, &v.to_be_bytes());
}

/// A law: a number that was written at a place is what is taken there.
pub fn put_is_taken()
    ensures two { (old : List ℕ) (at v : ℕ) → at + 2 ≤ length old → v < 2 ^ 16 → number_at w16 (lay_bytes at (to_be_bytes w16 v) old) at ≡ Some v }
    ensures four { (old : List ℕ) (at v : ℕ) → at + 4 ≤ length old → v < 2 ^ 32 → number_at w32 (lay_bytes at (to_be_bytes w32 v) old) at ≡ Some v }
    ensures eight { (old : List ℕ) (at v : ℕ) → at + 8 ≤ length old → v < 2 ^ 64 → number_at w64 (lay_bytes at (to_be_bytes w64 v) old) at ≡ Some v }
{}
