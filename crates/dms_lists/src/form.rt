ghost use Rattle.std.specs.Prelude.{◌≡◌};
ghost use Rattle.dms_desc.specs.Shape.{shape_of};
ghost use Rattle.dms_lists.specs.Forms.{form_of};

use dms_base::SetForm;
use dms_desc::Structure;

/// In which form the blocks of a structure's file keep its list of entries.
#[derive(Clone, Copy, Debug, PartialEq, Eq)]
pub enum ListForm {
    /// A tree of blocks, as INDEX SEQUENTIAL sets and automatic subsets have it.
    Tree,
    /// One chain of blocks, as an ORDERED LIST and manual subsets have it.
    List,
}

/// The form in which a set's or subset's list is kept.
pub fn form_of(s: &Structure) -> ListForm
    ensures { result ≡ form_of (shape_of s.now) }
{
    if s.is_manual() {
        return ListForm::List;
    }
    match s.form {
        Some(SetForm::IndexSequential) => ListForm::Tree,
        Some(SetForm::OrderedList) | None => ListForm::List,
    }
}
