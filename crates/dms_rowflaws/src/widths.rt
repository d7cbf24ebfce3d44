//! How many bytes entries have.

ghost use Rattle.std.specs.Prelude.{◌≡◌, ◌≤◌, IfOk};
ghost use Rattle.dms_desc.specs.Shape.{as_described, shape_of};
ghost use Rattle.dms_rowflaws.specs.Blocks.{width_of};

use dms_base::Memory;
use dms_desc::{Description, Structure};
use dms_manual::entry_width;
use dms_sets::kinds_of;
use std::alloc::Global;

/// How many bytes the entries of a set or subset have.
pub(crate) fn width_of(alloc: Global, desc: &Description, s: &Structure) -> Result<usize, Memory>
    requires { width_of (as_described desc.now) (shape_of s.now) ≤ 104 }
    ensures { IfOk result (λ w. w ≡ width_of (as_described desc.now) (shape_of s.now)) }
{
    let kinds = kinds_of(alloc, desc.items_of(s.over()))?;
    Ok(entry_width(&kinds, s.parts.as_slice()))
}
