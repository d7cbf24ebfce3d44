//! Whether the blocks of each structure are together what its form says.

ghost use Rattle.std.specs.Prelude.{◌≡◌, IfOk, IsTrue};
ghost use Rattle.dms_chain.specs.Seen.{IsListWidth};
ghost use Rattle.dms_desc.specs.Lookups.{structure_of};
ghost use Rattle.dms_desc.specs.Shape.{as_described, shape_of};
ghost use Rattle.dms_rowflaws.specs.Blocks.{width_of};
ghost use Rattle.dms_rowflaws.specs.Shapes.{is_shaped, shape_flaw, unshaped_at, unshaped_by};
ghost use Rattle.dms_spelling.specs.Serving.{IsServed};
ghost use Rattle.dms_view.specs.Looked.{Looked};

use crate::widths::width_of;
use dms_desc::{Description, Structure, file_of};
use dms_lists::form_of;
use dms_shapes::is_kept;
use dms_view::{View, ViewFault};
use std::alloc::Global;

/// Whether a structure has no more blocks than it may, and those of a set or subset are together a list.
fn is_shaped<V: View>(
    view: &mut V,
    alloc: Global,
    desc: &Description,
    s: &Structure,
) -> Result<bool, ViewFault>
    requires { IsListWidth (width_of (as_described desc.now) (shape_of s.now)) }
    ensures is { IfOk result (λ b. IsTrue V.tells → b ≡ is_shaped (as_described desc.now) (V.content view.old) (shape_of s.now)) }
    ensures looks { Looked V.View view.old view.new result }
{
    let file = file_of(s.number);
    let count = view.count(file);
    if count > 1_048_576 {
        return Ok(false);
    }
    if s.is_data_set() {
        return Ok(true);
    }
    let width = width_of(alloc, desc, s)?;
    is_kept(view, alloc, form_of(s), file, width)
}

/// Whether the structure with a number, if there is one, has its shape.
fn is_shaped_at<V: View>(
    view: &mut V,
    alloc: Global,
    desc: &Description,
    number: u16,
) -> Result<bool, ViewFault>
    requires served { IsServed (as_described desc.now) }
    ensures is { IfOk result (λ b. IsTrue V.tells → unshaped_by b number ≡ unshaped_at (as_described desc.now) (V.content view.old) number (structure_of (as_described desc.now) number)) }
    ensures looks { Looked V.View view.old view.new result }
{
    match desc.structure(number) {
        Some(s) => is_shaped(view, alloc, desc, s),
        None => Ok(true),
    }
}

/// The number of the first structure that has more blocks than it may, or whose blocks are no list in its form.
pub fn first_shape<V: View>(
    view: &mut V,
    alloc: Global,
    desc: &Description,
) -> Result<Option<u16>, ViewFault>
    requires served { IsServed (as_described desc.now) }
    ensures first { IfOk result (λ o. IsTrue V.tells → o ≡ shape_flaw (as_described desc.now) (V.content view.old)) }
    ensures looks { Looked V.View view.old view.new result }
{
    for number in 1..201u16 {
        if !is_shaped_at(view, alloc, desc, number)? {
            return Ok(Some(number));
        }
    }
    Ok(None)
}
