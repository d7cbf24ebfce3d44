ghost use Rattle.std.specs.Prelude.{◌≡◌, ◌≤◌, ◌<◌, ◌+◌, ◌^◌, [], length, take, drop, map, IfOk};
ghost use Rattle.std.proofs.Props.{props};
ghost use Rattle.dms_block.specs.Content.{limit};
ghost use Rattle.dms_memblocks.specs.Undoing.{AreBefore, AreEmpty, AreSince, AreSmall, bytes, rows};
ghost use Rattle.dms_memblocks.specs.UndoLaws.{AreBefore-prop, AreSince-prop, AreSmall-prop};

use crate::BlockUndo;
use crate::undo::place_of;
use dms_base::{Bytes, Memory};
use dms_block::Block;
use std::alloc::Global;

/// Blocks in memory: the files 30,001 and on. What changes took away is kept, so a stop would leave any of the quiet
/// points from the last durable one on.
#[derive(Drop)]
pub struct MemBlocks {
    pub files: Vec<Vec<Block>>,
    /// What all changes took away, the last one at the end.
    pub log: Vec<BlockUndo>,
    /// How many entries the log had at the last quiet point.
    pub mark: usize,
    /// The number of the last quiet point, 0 for none.
    pub made: u64,
    /// That of the last one that is durable.
    pub durable: u64,
    pub reads: u64,
    pub spent: u64,
    pub syncs: u64,
    pub outs: u64,
    /// The bytes of the description that points are made under.
    pub schema: Bytes,
    /// What was printed, as far as memory allowed. No clause speaks of it.
    pub text: Vec<u8>,
    pub ghost room: { made + 1 < 2 ^ 64 },
    pub ghost durable_low: { durable ≤ made },
    pub ghost small: { AreSmall (rows files.items) } by { Prim.hlevel (props, AreSmall-prop) },
    pub ghost before: { AreBefore made (take mark log.items) } by { Prim.hlevel (props, AreBefore-prop) },
    pub ghost since: { AreSince made (drop mark log.items) } by { Prim.hlevel (props, AreSince-prop) },
    pub ghost marked: { mark ≤ length log.items },
}

/// So many empty files.
fn empty_files(alloc: Global, files: u32) -> Result<Vec<Vec<Block>>, Memory>
    ensures { IfOk result (λ v. (length v.items ≡ files) × AreEmpty (rows v.items)) }
{
    let mut all = Vec::new(alloc);
    for _ in 0..files {
        all.push(Vec::new(alloc))?;
    }
    Ok(all)
}

impl MemBlocks {
    ghost use Rattle.dms_memblocks.specs.View.{held_view, IsNew};

    /// The files 30,001 to 30,000 + `files`, all empty. Points are made under no bytes of a description. Answers Err where memory is refused.
    pub fn new(alloc: Global, files: u32) -> Result<MemBlocks, Memory>
        requires { files ≤ 200 }
        ensures { IfOk result (λ b. IsNew files (held_view b)) }
    {
        MemBlocks::under(alloc, files, Bytes::new(alloc))
    }

    /// The files 30,001 to 30,000 + `files`, all empty. Points are made under these bytes of a description. Answers Err where memory is refused.
    pub fn under(alloc: Global, files: u32, schema: Bytes) -> Result<MemBlocks, Memory>
        requires { files ≤ 200 }
        ensures new { IfOk result (λ b. IsNew files (held_view b)) }
        ensures schema { IfOk result (λ b. (held_view b).here.schema ≡ schema) }
    {
        let files = empty_files(alloc, files)?;
        Ok(MemBlocks {
            files,
            log: Vec::new(alloc),
            mark: 0,
            made: 0,
            durable: 0,
            reads: 0,
            spent: 0,
            syncs: 0,
            outs: 0,
            schema,
            text: Vec::new(alloc),
        })
    }

    /// The blocks of a file.
    pub fn blocks_of(&self, file: u32) -> &[Block]
        ensures blocks { map bytes result.now ≡ (held_view self.now).content file }
        ensures small { length result.now ≤ limit }
    {
        if file <= 30_000 {
            return &[];
        }
        let at = place_of(file);
        if at < self.files.len() {
            return self.files[at].as_slice();
        }
        &[]
    }
}
