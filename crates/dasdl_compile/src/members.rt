ghost use Rattle.std.specs.Prelude.{◌≡◌};
ghost use Rattle.dasdl_compile.specs.Answers.{CompileGives, Makes};
ghost use Rattle.dasdl_compile.specs.Tables.{title};
ghost use Rattle.dasdl_compile.specs.Members.{count_of, initial_of, item_at, group_at, link_kind, link_at, end_at, member_at, open_after};

use crate::conditions::{literal_of, verify_tree};
use crate::draft::Draft;
use crate::drafts::Drafts;
use crate::fault::CompileFault;
use crate::find::{is_taken, next_item};
use crate::steps::{Stepwise, all_steps};
use dasdl_parse::{DataSetEnd, Declaration, GroupDecl, ItemDecl, LinkDecl};
use dms_base::{ItemKind, Value};
use dms_desc::{Group, Item, record_width};
use std::alloc::Global;

/// The bytes that a record may have.
const RECORD_BYTES: u32 = 480;

/// How many items a group has, where 255 stands for more.
pub fn count_of(items: &[ItemDecl]) -> u8
    ensures { result ≡ count_of items.now }
{
    if items.len() >= 255 {
        return 255;
    }
    items.len() as u8
}

/// What CREATE puts into an item.
#[tactic(auto, unfolding(crate::specs::Members::initial_of))]
fn initial_of(alloc: Global, item: &ItemDecl) -> Result<Value, CompileFault>
    ensures { CompileGives result (initial_of item.now) }
{
    match &item.initial {
        None => Ok(Value::Null),
        Some(literal) => literal_of(alloc, &item.name, &item.kind, literal),
    }
}

impl Stepwise<Drafts, ItemDecl> for Draft {
    ghost step_at = { item_at };

    ghost fixed = { title };

    #[tactic(auto, unfolding(crate::specs::Members::item_at))]
    fn step(
        &mut self,
        alloc: Global,
        _known: &Drafts,
        item: &ItemDecl,
    ) -> Result<(), CompileFault> {
        if is_taken(self, &item.name) {
            return Err(CompileFault::Twice(item.name));
        }
        let initial = initial_of(alloc, item)?;
        self.items.push(Item {
            name: item.name,
            kind: item.kind,
            required: item.required,
            initial,
        })?;
        Ok(())
    }
}

/// A group of the data set.
#[tactic(auto, unfolding(crate::specs::Members::group_at))]
fn group_at(
    draft: &mut Draft,
    alloc: Global,
    outline: &Drafts,
    group: &GroupDecl,
) -> Result<(), CompileFault>
    ensures made { Makes result draft.new (group_at outline.now draft.old group.now) }
    ensures kept { title draft.new ≡ title draft.old }
{
    if is_taken(draft, &group.name) {
        return Err(CompileFault::Twice(group.name));
    }
    let first = next_item(draft.items.as_slice());
    let count = count_of(group.items.as_slice());
    draft.groups.push(Group {
        name: group.name,
        first,
        count,
    })?;
    all_steps(draft, alloc, outline, group.items.as_slice())
}

/// What a link points to.
#[tactic(auto, unfolding(crate::specs::Members::link_kind))]
fn link_kind(outline: &Drafts, link: &LinkDecl) -> Result<ItemKind, CompileFault>
    ensures { CompileGives result (link_kind outline.now link.now) }
{
    match outline.data_set_named(&link.target) {
        None => Err(CompileFault::Unknown(link.target)),
        Some(target) => {
            if target.owner == 0 {
                return Ok(ItemKind::Link(target.number, link.counted));
            }
            Err(CompileFault::Embedding(link.name))
        }
    }
}

/// A link of the data set.
#[tactic(auto, unfolding(crate::specs::Members::link_at))]
fn link_at(draft: &mut Draft, outline: &Drafts, link: &LinkDecl) -> Result<(), CompileFault>
    ensures made { Makes result draft.new (link_at outline.now draft.old link.now) }
    ensures kept { title draft.new ≡ title draft.old }
{
    if is_taken(draft, &link.name) {
        return Err(CompileFault::Twice(link.name));
    }
    let kind = link_kind(outline, link)?;
    draft.items.push(Item {
        name: link.name,
        kind,
        required: false,
        initial: Value::Null,
    })?;
    Ok(())
}

/// The end of the data set.
#[tactic(auto, unfolding(crate::specs::Members::end_at))]
fn end_at(draft: &mut Draft, alloc: Global, end: &DataSetEnd) -> Result<(), CompileFault>
    ensures made { Makes result draft.new (end_at draft.old end.now) }
    ensures kept { title draft.new ≡ title draft.old }
{
    let cond = verify_tree(alloc, draft.items.as_slice(), &end.verify)?;
    let width = record_width(draft.items.as_slice());
    if width > RECORD_BYTES {
        return Err(CompileFault::RecordLong(width));
    }
    draft.cond = cond;
    draft.population = end.population;
    Ok(())
}

/// What is declared within the data set, but for structures.
#[tactic(auto, unfolding(crate::specs::Members::member_at))]
pub fn member_at(
    draft: &mut Draft,
    alloc: Global,
    outline: &Drafts,
    declaration: &Declaration,
) -> Result<(), CompileFault>
    ensures made { Makes result draft.new (member_at outline.now declaration.now draft.old) }
    ensures kept { title draft.new ≡ title draft.old }
{
    match declaration {
        Declaration::Item(item) => draft.step(alloc, outline, item),
        Declaration::Group(group) => group_at(draft, alloc, outline, group),
        Declaration::Link(link) => link_at(draft, outline, link),
        Declaration::End(end) => end_at(draft, alloc, end),
        Declaration::DataSet(_) => Ok(()),
        Declaration::SetOf(_) => Ok(()),
    }
}

/// The data set that is open behind a declaration in an open one.
pub fn open_after(declaration: &Declaration, owner: u16, within: u16) -> u16
    ensures { result ≡ open_after declaration.now owner within }
{
    match declaration {
        Declaration::End(_) => owner,
        Declaration::Item(_) => within,
        Declaration::Group(_) => within,
        Declaration::Link(_) => within,
        Declaration::DataSet(_) => within,
        Declaration::SetOf(_) => within,
    }
}
