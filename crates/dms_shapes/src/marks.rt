//! Marks of the blocks that were met.

ghost use Rattle.std.specs.Prelude.{◌≡◌, ◌+◌, ◌<◌, false, true, IfOk, length, replicate, slice_set};
ghost use Rattle.dms_shapes.specs.Marks.{MarksAnswer};
ghost use Rattle.dms_shapes.specs.Walks.{is_fresh};

use dms_base::Memory;
use std::alloc::Global;

/// Marks for so many blocks, none of them met.
pub(crate) fn no_marks(alloc: Global, count: usize) -> Result<Vec<bool>, Memory>
    ensures { IfOk result (λ m. m.items ≡ replicate count false) }
{
    Ok(Vec::from_elem(alloc, false, count)?)
}

/// Whether a number is that of a block that wasn't met.
pub(crate) fn is_fresh(seen: &[bool], at: u32) -> bool
    ensures { result ≡ is_fresh seen.now at }
{
    match seen.get(at as usize) {
        Some(met) => !*met,
        None => false,
    }
}

/// Marks for so many blocks, of which the head alone counts as met.
pub(crate) fn head_marked(alloc: Global, count: usize) -> Result<Vec<bool>, Memory>
    requires { 0 < count }
    ensures { IfOk result (λ m. m.items ≡ slice_set (replicate count false) 0 true) }
{
    let mut seen = no_marks(alloc, count)?;
    seen[0] = true;
    Ok(seen)
}

/// Marks the blocks at these numbers, where none of them was met before and none stands twice.
pub(crate) fn mark_all(seen: &mut [bool], numbers: &[u32]) -> bool
    ensures answer { MarksAnswer seen.old seen.new numbers.now result }
    ensures long { length seen.new ≡ length seen.old }
{
    for number in numbers {
        if !is_fresh(seen, *number) {
            return false;
        }
        seen[*number as usize] = true;
    }
    true
}
