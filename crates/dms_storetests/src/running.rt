ghost use Rattle.std.specs.Prelude.{IfSome};
ghost use Rattle.dms_desc.specs.Shape.{as_described};
ghost use Rattle.dms_desc_bytes.specs.WellFormed.{IsWellFormed};
ghost use Rattle.dms_storetests.specs.Beginnings.{StartsAtMark};

use dasdl_compile::compile;
use dasdl_laws::well_formed_law;
use dasdl_parse::parse;
use dms_desc::Description;
use dms_desc_bytes::encode;
use dms_feed::Feed;
use dms_memblocks::MemBlocks;
use dms_model::Store;
use dms_plain::PlainStore;
use dms_runner::run_lines;
use dms_sitemem::{MemSite, MemSource};
use dms_store::{BlockStore, empty_law, served_law};
use dms_storeverbs::Engine;
use std::alloc::Global;

/// The description of a schema.
pub fn description(alloc: Global, text: &[u8]) -> Option<Description>
    ensures { IfSome result (λ d. IsWellFormed (as_described d)) }
{
    well_formed_law();
    let Ok(schema) = parse(alloc, text) else {
        return None;
    };
    match compile(alloc, &schema) {
        Ok(desc) => Some(desc),
        Err(_) => None,
    }
}

/// Runs a script over a store, and gives the store back where the run ends well.
fn run_over<St: Store + Drop>(
    alloc: Global,
    desc: &Description,
    store: St,
    script: &[u8],
) -> Option<St>
    requires begins { StartsAtMark (as_described desc.now) (St.seen store) }
    requires formed { IsWellFormed (as_described desc.now) }
{
    let Ok(bytes) = Vec::from_slice(alloc, script) else {
        return None;
    };
    let mut source = MemSource::new(bytes, Vec::new(alloc), 512);
    let mut feed = Feed::new();
    match Engine::new(alloc, desc, store) {
        Err(_) => None,
        Ok(mut engine) => {
            let ran = run_lines(alloc, &mut engine, &mut feed, &mut source);
            let store = engine.into_store();
            match ran {
                Err(_) => None,
                Ok(()) => Some(store),
            }
        }
    }
}

/// What a script answers over a list of records.
pub fn over_list(alloc: Global, desc: &Description, script: &[u8]) -> Option<Vec<u8>>
    requires { IsWellFormed (as_described desc.now) }
{
    let Ok(site) = MemSite::new(alloc, Vec::new(alloc), None) else {
        return None;
    };
    let Ok(store) = PlainStore::new(alloc, desc, site) else {
        return None;
    };
    let site = run_over(alloc, desc, store, script)?.into_site();
    Vec::from_slice(alloc, site.text()).ok()
}

/// A store on blocks without a record.
fn block_store(alloc: Global, desc: &Description) -> Option<BlockStore<MemBlocks>>
    requires { IsWellFormed (as_described desc.now) }
    ensures { IfSome result (λ s. StartsAtMark (as_described desc.now) (⟦<BlockStore<MemBlocks> as Store>⟧.seen s)) }
{
    empty_law();
    served_law();
    let Ok(schema) = encode(alloc, desc) else {
        return None;
    };
    let Ok(blocks) = MemBlocks::under(alloc, 200, schema) else {
        return None;
    };
    match BlockStore::new(alloc, desc, blocks) {
        Ok(store) => Some(store),
        Err(_) => None,
    }
}

/// What a script answers over blocks.
pub fn over_blocks(alloc: Global, desc: &Description, script: &[u8]) -> Option<Vec<u8>>
    requires { IsWellFormed (as_described desc.now) }
{
    let store = block_store(alloc, desc)?;
    let blocks = run_over(alloc, desc, store, script)?.into_below();
    Vec::from_slice(alloc, blocks.text.as_slice()).ok()
}
