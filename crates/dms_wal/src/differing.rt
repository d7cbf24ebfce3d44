//! Where a block differs from what it was.

ghost use Rattle.std.specs.Prelude.{◌≡◌, ◌≤◌, ◌<◌, ◌+◌, ◌-◌, IfNone, IfSome, length};
ghost use Rattle.dms_wal.specs.Differing.{DiffersAt, SameBelow, SameFrom, SpansDifference};

use dms_block::Block;

/// The first place at which two blocks differ, 1,024 where there is none.
fn first_place(before: &[u8; 1024], after: &[u8; 1024]) -> usize
    ensures within { result ≤ 1024 }
    ensures same { SameBelow result before.now after.now }
    ensures differs { result < 1024 → DiffersAt result before.now after.now }
{
    for place in 0..1024 {
        if before[place] != after[place] {
            return place;
        }
    }
    1024
}

/// The place behind the last one at which two blocks differ, 0 where there is none.
fn last_end(before: &[u8; 1024], after: &[u8; 1024]) -> usize
    ensures within { result ≤ 1024 }
    ensures same { SameFrom result before.now after.now }
    ensures differs { 0 < result → DiffersAt (result - 1) before.now after.now }
{
    for passed in 0..1024 {
        let place = 1023 - passed;
        if before[place] != after[place] {
            return place + 1;
        }
    }
    0
}

/// The first place at which a block differs from what it was, and its bytes from there to the last one. None where it is the same.
pub(crate) fn differing<'a>(before: &Block, after: &'a Block) -> Option<(u16, &'a [u8])>
    ensures same { IfNone result (after.now.0 ≡ before.now.0) }
    ensures long { IfSome result (λ p. length after.now.0 ≡ length before.now.0) }
    ensures within { IfSome result (λ p. p.0 + length p.1.now ≤ 1024) }
    ensures spans { IfSome result (λ p. SpansDifference before.now.0 after.now.0 p.0 p.1.now) }
{
    let place = first_place(&before.0, &after.0);
    if place == 1024 {
        return None;
    }
    let end = last_end(&before.0, &after.0);
    Some((place as u16, &after.0[place..end]))
}
