ghost use Rattle.std.specs.Prelude.{◌≡◌, ◌+◌, ◌++◌, ◌<◌, [], List, IfOk, IsTrue, OnOk, filter, length};
ghost use Rattle.std.specs.Option.{option_copied};
ghost use Rattle.dms_block.specs.Held.{HasCausesOr};
ghost use Rattle.dms_block.specs.View.{ReadsOverlay, seen_counts, under};
ghost use Rattle.dms_chain.specs.Linked.{BlockChain, front};
ghost use Rattle.dms_chain.specs.ListBlocks.{leaf_in};
ghost use Rattle.dms_chain.specs.ListIn.{Leaf, entries_of};
ghost use Rattle.dms_chain.specs.Seen.{IfList, IsListWidth, NoChain, NoList, look};
ghost use Rattle.dms_ordlist.specs.Walks.{IsGathered, ends_with, has_tail};

use dms_base::{Bytes, Memory};
use dms_block::{BlockFault, Blocks, Overlay};
use dms_chain::{read_head, read_leaf};
use std::alloc::Global;

/// What a walk over a list gathers: how many entries there are, and those that end with a tail.
#[derive(Drop)]
pub struct Gathered {
    pub count: u64,
    pub ending: Vec<Bytes>,
}

/// What is gathered of no entries.
fn nothing(alloc: Global) -> Gathered
    ensures count { result.count ≡ 0 }
    ensures ending { result.ending.items ≡ [] }
{
    Gathered {
        count: 0,
        ending: Vec::new(alloc),
    }
}

/// Whether an entry ends with a tail; none does where no tail is asked for.
fn has_tail(entry: &Bytes, tail: Option<&[u8; 4]>) -> bool
    ensures { result ≡ has_tail (option_copied tail.entry) entry.now }
{
    match tail {
        Some(tail) => entry.as_slice().ends_with(tail),
        None => false,
    }
}

/// Adds those of a block's entries that end with a tail.
fn gather(
    alloc: Global,
    entries: &[Bytes],
    tail: Option<&[u8; 4]>,
    ending: &mut Vec<Bytes>,
) -> Result<(), Memory>
    ensures { OnOk result (ending.new.items ≡ ending.old.items ++ filter (has_tail (option_copied tail.entry)) entries.now) }
{
    for entry in entries {
        if has_tail(entry, tail) {
            ending.push(entry.copy(alloc)?)?;
        }
    }
    Ok(())
}

/// Gathers the entries of the chain from a block on.
pub fn walk<B: Blocks>(
    over: &mut Overlay<B>,
    alloc: Global,
    file: u32,
    width: usize,
    first: u32,
    tail: Option<&[u8; 4]>,
) -> Result<Gathered, BlockFault>
    requires sound { (under over.old).sound }
    requires width { IsListWidth width }
    requires some { 0 < first }
    requires there { 0 < seen_counts over.old file }
    ensures gathered { IfOk result (λ r. IsTrue (under over.old).told → (ls : List Leaf) → BlockChain (leaf_in width) (look over.old file) ls 0 → front ls 0 ≡ first → IsGathered (option_copied tail.entry) (entries_of ls) r) }
    ensures reads { ReadsOverlay (seen_counts over.old file) result over.old over.new }
    ensures causes { HasCausesOr (NoChain width over.old file first) result (under over.old) (under over.new) }
{
    let count = over.count(file);
    let mut total = 0;
    let mut ending = Vec::new(alloc);
    let mut before = 0;
    let mut at = first;
    for _turn in 0..count {
        let leaf = match read_leaf(over, alloc, file, width, before, at) {
            Ok(leaf) => leaf,
            Err(fault) => return Err(fault),
        };
        total += leaf.entries.len() as u64;
        gather(alloc, &leaf.entries, tail, &mut ending)?;
        if leaf.next == 0 {
            return Ok(Gathered {
                count: total,
                ending,
            });
        }
        before = at;
        at = leaf.next;
    }
    Err(BlockFault::Damaged(file, before))
}

/// Gathers the entries of a file's list.
fn walk_list<B: Blocks>(
    over: &mut Overlay<B>,
    alloc: Global,
    file: u32,
    width: usize,
    tail: Option<&[u8; 4]>,
) -> Result<Gathered, BlockFault>
    requires sound { (under over.old).sound }
    requires width { IsListWidth width }
    ensures gathered { IfOk result (λ r. IfList over.old file width (λ xs. IsGathered (option_copied tail.entry) xs r)) }
    ensures reads { ReadsOverlay (1 + seen_counts over.old file) result over.old over.new }
    ensures causes { HasCausesOr (NoList over.old file width) result (under over.old) (under over.new) }
{
    if over.count(file) == 0 {
        return Ok(nothing(alloc));
    }
    let head = match read_head(over, alloc, file) {
        Ok(head) => head,
        Err(fault) => return Err(fault),
    };
    if head.first == 0 {
        return Ok(nothing(alloc));
    }
    walk(over, alloc, file, width, head.first, tail)
}

/// How many entries a file's list has, of this width each. It reads each block of entries.
pub fn count<B: Blocks>(
    over: &mut Overlay<B>,
    alloc: Global,
    file: u32,
    width: usize,
) -> Result<u64, BlockFault>
    requires sound { (under over.old).sound }
    requires width { IsListWidth width }
    ensures count { IfOk result (λ n. IfList over.old file width (λ xs. n ≡ length xs)) }
    ensures reads { ReadsOverlay (1 + seen_counts over.old file) result over.old over.new }
    ensures causes { HasCausesOr (NoList over.old file width) result (under over.old) (under over.new) }
{
    match walk_list(over, alloc, file, width, None) {
        Ok(gathered) => Ok(gathered.count),
        Err(fault) => Err(fault),
    }
}

/// The entries of a file's list, of this width each, that end with these four bytes, in their order. It reads each
/// block of entries.
pub fn ending<B: Blocks>(
    over: &mut Overlay<B>,
    alloc: Global,
    file: u32,
    width: usize,
    tail: &[u8; 4],
) -> Result<Vec<Bytes>, BlockFault>
    requires sound { (under over.old).sound }
    requires width { IsListWidth width }
    ensures ending { IfOk result (λ v. IfList over.old file width (λ xs. v.items ≡ filter (ends_with tail.now) xs)) }
    ensures reads { ReadsOverlay (1 + seen_counts over.old file) result over.old over.new }
    ensures causes { HasCausesOr (NoList over.old file width) result (under over.old) (under over.new) }
{
    match walk_list(over, alloc, file, width, Some(tail)) {
        Ok(gathered) => Ok(gathered.ending),
        Err(fault) => Err(fault),
    }
}
