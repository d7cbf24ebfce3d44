ghost use Rattle.std.specs.Prelude.{◌≡◌, ℕ, List, Some, slice_get};
ghost use Rattle.dms_chain.specs.ListIn.{list_in};
ghost use Rattle.dms_shapes.specs.Formed.{IsFormed};
ghost use Rattle.dms_shapes.specs.TreeFormed.{IsTreeFormed};
ghost use Rattle.dms_tree.specs.TreeIn.{tree_in};

/// Law: each block of a file that is a list is its head, a block of entries or a free one.
pub fn formed_law()
    ensures { (width : ℕ) (bs xs : List (List ℕ)) → list_in width bs ≡ Some xs → (b : ℕ) (bytes : List ℕ) → slice_get bs b ≡ Some bytes → IsFormed width b bytes }
{}

/// Law: each block of a file that is a tree is its head, a leaf, an inner block or a free one.
pub fn tree_formed_law()
    ensures { (width : ℕ) (bs xs : List (List ℕ)) → tree_in width bs ≡ Some xs → (b : ℕ) (bytes : List ℕ) → slice_get bs b ≡ Some bytes → IsTreeFormed width b bytes }
{}
