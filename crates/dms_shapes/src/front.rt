//! Where the entries of a list begin.

ghost use Rattle.std.specs.Prelude.{◌≡◌, ◌<◌, ◌≤◌, IfOk, IsTrue, length};
ghost use Rattle.dms_chain.specs.Seen.{IsListWidth};
ghost use Rattle.dms_shapes.specs.Walking.{KeptBegins, ListBegins, RootBegins, TreeBegins};
ghost use Rattle.dms_view.specs.Looked.{Looked};

use crate::descent::levels_under;
use crate::leafage::number_at;
use crate::list::head_at;
use crate::marks::head_marked;
use crate::tree::root_at;
use dms_lists::ListForm;
use dms_view::{View, ViewFault};
use std::alloc::Global;

/// The number of the first block of entries of a list in one chain, 0 where there is none.
fn first_of_list<V: View>(view: &mut V, file: u32) -> Result<u32, ViewFault>
    ensures first { IfOk result (λ n. IsTrue V.tells → ListBegins (V.content view.old file) n) }
    ensures looks { Looked V.View view.old view.new result }
{
    let count = view.count(file);
    if count == 0 {
        return Ok(0);
    }
    match head_at(view, file)? {
        Some(head) => Ok(head.first),
        None => Ok(0),
    }
}

/// The number of the first leaf of the tree under a root, 0 where there is none.
fn first_under<V: View>(
    view: &mut V,
    alloc: Global,
    file: u32,
    width: usize,
    count: u32,
    root: u32,
) -> Result<u32, ViewFault>
    requires width { IsListWidth width }
    requires some { 0 < count }
    requires low { count ≤ 2097152 }
    ensures first { IfOk result (λ n. IsTrue V.tells → count ≡ length (V.content view.old file) → RootBegins width (V.content view.old file) root n) }
    ensures looks { Looked V.View view.old view.new result }
{
    if root == 0 {
        return Ok(0);
    }
    let mut seen = head_marked(alloc, count as usize)?;
    let marks: &mut [bool] = &mut seen;
    match levels_under(view, alloc, file, width, root, marks)? {
        Some(bottom) => Ok(number_at(&bottom.level.numbers, 0)),
        None => Ok(0),
    }
}

/// The number of the first leaf of a tree, 0 where there is none.
fn first_of_tree<V: View>(
    view: &mut V,
    alloc: Global,
    file: u32,
    width: usize,
) -> Result<u32, ViewFault>
    requires width { IsListWidth width }
    ensures first { IfOk result (λ n. IsTrue V.tells → TreeBegins width (V.content view.old file) n) }
    ensures looks { Looked V.View view.old view.new result }
{
    let count = view.count(file);
    if count == 0 {
        return Ok(0);
    }
    match root_at(view, file)? {
        Some(head) => {
            let first = first_under(view, alloc, file, width, count, head.root)?;
            Ok(first)
        }
        None => Ok(0),
    }
}

/// The number of the first block of entries of a list in a form, 0 where there is none.
pub(crate) fn first_leaf<V: View>(
    view: &mut V,
    alloc: Global,
    form: ListForm,
    file: u32,
    width: usize,
) -> Result<u32, ViewFault>
    requires width { IsListWidth width }
    ensures first { IfOk result (λ n. IsTrue V.tells → KeptBegins form width (V.content view.old file) n) }
    ensures looks { Looked V.View view.old view.new result }
{
    match form {
        ListForm::Tree => {
            let first = first_of_tree(view, alloc, file, width)?;
            Ok(first)
        }
        ListForm::List => {
            let first = first_of_list(view, file)?;
            Ok(first)
        }
    }
}
