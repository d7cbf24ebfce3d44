//! Whether the blocks of a file keep a list in its form.

ghost use Rattle.std.specs.Prelude.{◌≡◌, IfOk, IsTrue, is_some};
ghost use Rattle.dms_chain.specs.Seen.{IsListWidth};
ghost use Rattle.dms_lists.specs.Forms.{kept_in};
ghost use Rattle.dms_view.specs.Looked.{Looked};

use crate::list::is_list;
use crate::tree::is_tree;
use dms_lists::ListForm;
use dms_view::{View, ViewFault};
use std::alloc::Global;

/// Whether the blocks of a file are a list of entries of one width in a form.
pub fn is_kept<V: View>(
    view: &mut V,
    alloc: Global,
    form: ListForm,
    file: u32,
    width: usize,
) -> Result<bool, ViewFault>
    requires width { IsListWidth width }
    ensures is { IfOk result (λ b. IsTrue V.tells → b ≡ is_some (kept_in form width (V.content view.old file))) }
    ensures looks { Looked V.View view.old view.new result }
{
    match form {
        ListForm::Tree => is_tree(view, alloc, file, width),
        ListForm::List => is_list(view, alloc, file, width),
    }
}
