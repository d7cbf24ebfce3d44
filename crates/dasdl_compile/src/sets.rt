ghost use Rattle.std.specs.Prelude.{◌≡◌, ◌==◌};
ghost use Rattle.dms_desc.specs.Shape.{kind_number};
ghost use Rattle.dasdl_compile.specs.Answers.{CompileGives, Makes};
ghost use Rattle.dasdl_compile.specs.Sets.{set_kind, where_of, key_of, key_is_first, options_at, is_misplaced, lacks_key, no_parts, population_of, has_duplicates, set_draft, set_over, set_at};

use crate::condition::ConditionTree;
use crate::conditions::condition;
use crate::draft::Draft;
use crate::drafts::Drafts;
use crate::fault::CompileFault;
use crate::find::{is_restart, next_structure};
use crate::keys::key_at;
use crate::work::Compilation;
use dasdl_parse::SetDecl;
use dasdl_phrases::{CondDecl, KeyDecl};
use dms_base::StructureKind;
use dms_desc::{Groups, Items, KeyPart, KeyParts};
use std::alloc::Global;

/// What a set's options say: WHERE and KEY.
#[derive(Drop)]
pub struct WhereAndKey {
    pub cond: ConditionTree,
    pub parts: KeyParts,
}

/// A set; a subset with WHERE is automatic, one without is manual.
fn set_kind(set: &SetDecl) -> StructureKind
    ensures { result ≡ set_kind set.now }
{
    if !set.subset {
        return StructureKind::Set;
    }
    if set.cond.is_some() {
        return StructureKind::AutomaticSubset;
    }
    StructureKind::ManualSubset
}

fn is_manual(set: &SetDecl) -> bool
    ensures { result ≡ (kind_number (set_kind set.now) == 5) }
{
    matches!(set_kind(set), StructureKind::ManualSubset)
}

/// The condition of WHERE.
#[tactic(auto, unfolding(crate::specs::Sets::where_of))]
fn where_of(alloc: Global, data_set: &Draft, set: &SetDecl) -> Result<ConditionTree, CompileFault>
    ensures { CompileGives result (where_of data_set.now set.now) }
{
    match &set.cond {
        None => Ok(ConditionTree::nothing()),
        Some(decl) => {
            let cond = condition(alloc, data_set.items.as_slice(), decl.tree())?;
            if set.subset {
                return Ok(cond);
            }
            Err(CompileFault::CondKind(set.name))
        }
    }
}

/// The parts of KEY.
#[tactic(auto, unfolding(crate::specs::Sets::key_of))]
fn key_of(alloc: Global, data_set: &Draft, set: &SetDecl) -> Result<KeyParts, CompileFault>
    ensures { CompileGives result (key_of data_set.now set.now) }
{
    match &set.key {
        None => Ok(KeyParts::new(alloc)),
        Some(key) => key_at(alloc, &set.name, data_set, key.parts.as_slice()),
    }
}

/// Whether KEY stands before WHERE.
fn key_is_first(cond: &Option<CondDecl>, key: &Option<KeyDecl>) -> bool
    ensures { result ≡ key_is_first cond.now key.now }
{
    match (cond, key) {
        (Some(cond), Some(key)) => key.place < cond.place(),
        (Some(_), None) => false,
        (None, Some(_)) => false,
        (None, None) => false,
    }
}

/// KEY and WHERE in text order.
#[tactic(auto, unfolding(crate::specs::Sets::options_at))]
fn options_at(alloc: Global, data_set: &Draft, set: &SetDecl) -> Result<WhereAndKey, CompileFault>
    ensures { CompileGives result (options_at data_set.now set.now) }
{
    if key_is_first(&set.cond, &set.key) {
        let parts = key_of(alloc, data_set, set)?;
        let cond = where_of(alloc, data_set, set)?;
        return Ok(WhereAndKey { cond, parts });
    }
    let cond = where_of(alloc, data_set, set)?;
    let parts = key_of(alloc, data_set, set)?;
    Ok(WhereAndKey { cond, parts })
}

/// Whether a set or subset of this data set can't stand here.
#[tactic(auto, unfolding(crate::specs::Sets::is_misplaced))]
fn is_misplaced(work: &Compilation, set: &SetDecl, data_set: &Draft) -> bool
    ensures { result ≡ is_misplaced work.now set.now data_set.now }
{
    let in_restart = is_restart(work.made.as_slice(), work.within);
    let may_stand_apart = is_manual(set) && data_set.owner == 0 && !in_restart;
    !(data_set.owner == work.within || may_stand_apart)
}

/// Whether a key is wanted and not said.
fn lacks_key(set: &SetDecl) -> bool
    ensures { result ≡ lacks_key set.now }
{
    set.key.is_none() && !is_manual(set)
}

/// Whether there are no parts.
fn no_parts(parts: &[KeyPart]) -> bool
    ensures { result ≡ no_parts parts.now }
{
    parts.is_empty()
}

/// How many entries a manual subset may have, 0 for the others.
fn population_of(set: &SetDecl) -> u32
    ensures { result ≡ population_of set.now }
{
    if is_manual(set) {
        return set.population;
    }
    0
}

/// Whether two members may have equal keys, which they may without a key.
fn has_duplicates(set: &SetDecl, parts: &[KeyPart]) -> bool
    ensures { result ≡ has_duplicates set.now parts.now }
{
    set.duplicates || no_parts(parts)
}

/// A set or subset of a data set.
fn set_draft(
    alloc: Global,
    work: &Compilation,
    set: &SetDecl,
    data_set: &Draft,
    options: WhereAndKey,
) -> Draft
    ensures { result ≡ set_draft work.now set.now data_set.now options }
{
    let number = next_structure(work.made.as_slice());
    let kind = set_kind(set);
    let population = population_of(set);
    let duplicates = has_duplicates(set, options.parts.as_slice());
    Draft {
        number,
        kind,
        name: set.name,
        owner: work.within,
        population,
        items: Items::new(alloc),
        groups: Groups::new(alloc),
        cond: options.cond,
        set: data_set.number,
        form: Some(set.form),
        duplicates,
        parts: options.parts,
    }
}

/// A set or subset of a data set: its place, KEY and WHERE in text order, and whether it has a key.
#[tactic(auto, unfolding(crate::specs::Sets::set_over))]
fn set_over(
    work: &mut Compilation,
    alloc: Global,
    set: &SetDecl,
    data_set: &Draft,
) -> Result<(), CompileFault>
    ensures { Makes result work.new (set_over set.now data_set.now work.old) }
{
    if is_misplaced(work, set, data_set) {
        return Err(CompileFault::Embedding(set.name));
    }
    let options = options_at(alloc, data_set, set)?;
    if lacks_key(set) {
        return Err(CompileFault::KeyItem(set.name));
    }
    let draft = set_draft(alloc, work, set, data_set, options);
    work.made.push(draft)?;
    Ok(())
}

/// Adds a set or subset, or answers its first fault: Twice with its name, then Unknown with that of its data set, then
/// those of the rest.
#[tactic(auto, unfolding(crate::specs::Sets::set_at))]
pub fn set_at(
    work: &mut Compilation,
    alloc: Global,
    outline: &Drafts,
    set: &SetDecl,
) -> Result<(), CompileFault>
    ensures { Makes result work.new (set_at outline.now set.now work.old) }
{
    if work.made.is_structure(&set.name) {
        return Err(CompileFault::Twice(set.name));
    }
    match outline.data_set_named(&set.of) {
        None => Err(CompileFault::Unknown(set.of)),
        Some(data_set) => set_over(work, alloc, set, data_set),
    }
}
