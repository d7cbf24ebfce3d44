//! Blocks of a list's file, each for itself.

ghost use Rattle.std.specs.Prelude.{◌≡◌, IfOk, is_some};
ghost use Rattle.dms_chain.specs.ListBlocks.{free_in, head_in, leaf_in};
ghost use Rattle.dms_chain.specs.Seen.{IsListWidth};
ghost use Rattle.dms_shapes.specs.Blocks.{is_kept_block, is_list_block, is_tree_block};
ghost use Rattle.dms_tree.specs.TreeBlocks.{inner_in, root_in};

use dms_base::Memory;
use dms_block::Block;
use dms_chain::{free_of, head_of, leaf_of};
use dms_lists::ListForm;
use dms_tree::{inner_of, root_of};
use std::alloc::Global;

fn is_head(block: &Block) -> bool
    ensures { result ≡ is_some (head_in block.now.0) }
{
    match head_of(block) {
        Some(_head) => true,
        None => false,
    }
}

fn is_root(block: &Block) -> bool
    ensures { result ≡ is_some (root_in block.now.0) }
{
    match root_of(block) {
        Some(_head) => true,
        None => false,
    }
}

fn is_spare(block: &Block) -> bool
    ensures { result ≡ is_some (free_in block.now.0) }
{
    match free_of(block) {
        Some(_next) => true,
        None => false,
    }
}

fn is_leaf(alloc: Global, width: usize, block: &Block) -> Result<bool, Memory>
    requires width { IsListWidth width }
    ensures { IfOk result (λ b. b ≡ is_some (leaf_in width block.now.0)) }
{
    match leaf_of(alloc, width, block)? {
        Some(_leaf) => Ok(true),
        None => Ok(false),
    }
}

fn is_inner(alloc: Global, width: usize, block: &Block) -> Result<bool, Memory>
    requires width { IsListWidth width }
    ensures { IfOk result (λ b. b ≡ is_some (inner_in width block.now.0)) }
{
    match inner_of(alloc, width, block)? {
        Some(_inner) => Ok(true),
        None => Ok(false),
    }
}

/// Whether a block, by its number, may stand in the file of a list in one chain: a head, a block of entries or a free one.
fn is_list_block(alloc: Global, width: usize, number: u32, block: &Block) -> Result<bool, Memory>
    requires width { IsListWidth width }
    ensures { IfOk result (λ b. b ≡ is_list_block width number block.now.0) }
{
    if number == 0 {
        return Ok(is_head(block));
    }
    if is_leaf(alloc, width, block)? {
        return Ok(true);
    }
    Ok(is_spare(block))
}

/// Whether a block, by its number, may stand in the file of a tree: a head, a leaf, an inner block or a free one.
fn is_tree_block(alloc: Global, width: usize, number: u32, block: &Block) -> Result<bool, Memory>
    requires width { IsListWidth width }
    ensures { IfOk result (λ b. b ≡ is_tree_block width number block.now.0) }
{
    if number == 0 {
        return Ok(is_root(block));
    }
    if is_leaf(alloc, width, block)? {
        return Ok(true);
    }
    if is_inner(alloc, width, block)? {
        return Ok(true);
    }
    Ok(is_spare(block))
}

/// Whether a block, by its number, may stand in the file of a list that is kept in a form.
pub fn is_kept_block(
    alloc: Global,
    form: ListForm,
    width: usize,
    number: u32,
    block: &Block,
) -> Result<bool, Memory>
    requires width { IsListWidth width }
    ensures { IfOk result (λ b. b ≡ is_kept_block form width number block.now.0) }
{
    match form {
        ListForm::Tree => is_tree_block(alloc, width, number, block),
        ListForm::List => is_list_block(alloc, width, number, block),
    }
}
