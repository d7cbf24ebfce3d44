//! Blocks of the structure files, each for itself.

ghost use Rattle.std.specs.Prelude.{◌≡◌, ◌≤◌, ◌<◌, ℕ, List, IfOk, IsTrue, Some, None, false, length, slice_get, option_map};
ghost use Rattle.std.specs.Option.{option_copied};
ghost use Rattle.dms_chain.specs.Seen.{IsListWidth};
ghost use Rattle.dms_desc.specs.Files.{file_of};
ghost use Rattle.dms_desc.specs.Lookups.{structure_of};
ghost use Rattle.dms_desc.specs.Shape.{as_described, shape_of};
ghost use Rattle.dms_rowflaws.specs.Blocks.{block_flaw, first_of_any, first_unformed, is_formed, unformed_in, width_of};
ghost use Rattle.dms_spelling.specs.Serving.{IsServed};
ghost use Rattle.dms_view.specs.Looked.{Looked};

use crate::widths::width_of;
use dms_base::Memory;
use dms_block::{Block, BlockId};
use dms_desc::{Description, Structure, file_of};
use dms_lists::form_of;
use dms_rows::is_row_block;
use dms_shapes::is_kept_block;
use dms_view::{View, ViewFault};
use std::alloc::Global;

/// Whether a block, by its number, may stand in the file of a structure.
fn is_formed(
    alloc: Global,
    s: &Structure,
    width: usize,
    number: u32,
    block: &Block,
) -> Result<bool, Memory>
    requires few { length s.now.items ≤ 60 }
    requires width { IsListWidth width }
    ensures { IfOk result (λ b. b ≡ is_formed (shape_of s.now) width number block.now.0) }
{
    if s.is_data_set() {
        return Ok(is_row_block(s, block));
    }
    is_kept_block(alloc, form_of(s), width, number, block)
}

/// Whether the block at a number of a structure's file may stand there.
fn is_formed_at<V: View>(
    view: &mut V,
    alloc: Global,
    s: &Structure,
    width: usize,
    id: BlockId,
) -> Result<bool, ViewFault>
    requires few { length s.now.items ≤ 60 }
    requires width { IsListWidth width }
    ensures is { IfOk result (λ b. IsTrue V.tells → (bytes : List ℕ) → slice_get (V.content view.old id.file) id.block ≡ Some bytes → b ≡ is_formed (shape_of s.now) width id.block bytes) }
    ensures looks { Looked V.View view.old view.new result }
{
    let block = view.block(id)?;
    Ok(is_formed(alloc, s, width, id.block, &block)?)
}

/// The first block of a structure's file that may not stand there. Each block is read once.
fn first_unformed<V: View>(
    view: &mut V,
    alloc: Global,
    s: &Structure,
    width: usize,
    file: u32,
) -> Result<Option<u32>, ViewFault>
    requires few { length s.now.items ≤ 60 }
    requires width { IsListWidth width }
    ensures first { IfOk result (λ o. IsTrue V.tells → o ≡ first_unformed (shape_of s.now) width 0 (V.content view.old file)) }
    ensures looks { Looked V.View view.old view.new result }
{
    let count = view.count(file);
    for number in 0..count {
        let id = BlockId {
            file,
            block: number,
        };
        if !is_formed_at(view, alloc, s, width, id)? {
            return Ok(Some(number));
        }
    }
    Ok(None)
}

/// The first block of a file with so many, in which none may stand.
fn first_of_any(count: u32) -> Option<u32>
    ensures { (bs : List (List ℕ)) → count ≡ length bs → result ≡ first_of_any bs }
{
    if count == 0 {
        return None;
    }
    Some(0)
}

/// The first block of a structure number's file that may not stand there.
fn unformed_in<V: View>(
    view: &mut V,
    alloc: Global,
    desc: &Description,
    number: u16,
) -> Result<Option<u32>, ViewFault>
    requires served { IsServed (as_described desc.now) }
    ensures first { IfOk result (λ o. IsTrue V.tells → o ≡ unformed_in (as_described desc.now) (structure_of (as_described desc.now) number) (V.content view.old (file_of number))) }
    ensures looks { Looked V.View view.old view.new result }
{
    let file = file_of(number);
    match desc.structure(number) {
        Some(s) => {
            let width = width_of(alloc, desc, s)?;
            first_unformed(view, alloc, s, width, file)
        }
        None => Ok(first_of_any(view.count(file))),
    }
}

/// The first block of the structure files, in order of file and block, that may not stand where it stands. Each block is read once.
pub fn first_block<V: View>(
    view: &mut V,
    alloc: Global,
    desc: &Description,
) -> Result<Option<BlockId>, ViewFault>
    requires served { IsServed (as_described desc.now) }
    ensures first { IfOk result (λ o. IsTrue V.tells → o ≡ block_flaw (as_described desc.now) (V.content view.old)) }
    ensures looks { Looked V.View view.old view.new result }
{
    for number in 1..201u16 {
        match unformed_in(view, alloc, desc, number)? {
            Some(block) => {
                return Ok(Some(BlockId {
                    file: file_of(number),
                    block,
                }));
            }
            None => {}
        }
    }
    Ok(None)
}
