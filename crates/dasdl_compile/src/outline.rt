ghost use Rattle.std.specs.Prelude.{◌≡◌};
ghost use Rattle.dasdl_compile.specs.Answers.{Makes};
ghost use Rattle.dasdl_compile.specs.Tables.{title, no_title};
ghost use Rattle.dasdl_compile.specs.Outlines.{data_set_kind, outlined_item, outlined_member, outlined_inside, outlined_data_set, outlined_set, outlined_one};

use crate::draft::Draft;
use crate::fault::CompileFault;
use crate::find::{next_item, next_structure};
use crate::members::{count_of, open_after};
use crate::steps::{Stepwise, all_steps};
use crate::work::{Compilation, Plain};
use dasdl_parse::{DataSetDecl, Declaration, ItemDecl, SetDecl};
use dms_base::{ItemKind, StructureKind, Value};
use dms_desc::{Group, Item};
use std::alloc::Global;

/// The kind of a data set.
pub fn data_set_kind(restart: bool) -> StructureKind
    ensures { result ≡ data_set_kind restart }
{
    if restart {
        StructureKind::RestartDataSet
    } else {
        StructureKind::DataSet
    }
}

impl Stepwise<Plain, ItemDecl> for Draft {
    ghost step_at = { outlined_item };

    ghost fixed = { title };

    #[tactic(auto, unfolding(crate::specs::Outlines::outlined_item))]
    fn step(
        &mut self,
        _alloc: Global,
        _known: &Plain,
        item: &ItemDecl,
    ) -> Result<(), CompileFault> {
        self.items.push(Item {
            name: item.name,
            kind: item.kind,
            required: item.required,
            initial: Value::Null,
        })?;
        Ok(())
    }
}

/// What the data set has is noted.
#[tactic(auto, unfolding(crate::specs::Outlines::outlined_member))]
pub fn outlined_member(
    draft: &mut Draft,
    alloc: Global,
    plain: &Plain,
    declaration: &Declaration,
) -> Result<(), CompileFault>
    ensures made { Makes result draft.new (outlined_member plain.now declaration.now draft.old) }
    ensures kept { title draft.new ≡ title draft.old }
{
    match declaration {
        Declaration::Item(item) => draft.step(alloc, plain, item),
        Declaration::Group(group) => {
            let first = next_item(draft.items.as_slice());
            let count = count_of(group.items.as_slice());
            draft.groups.push(Group {
                name: group.name,
                first,
                count,
            })?;
            all_steps(draft, alloc, plain, group.items.as_slice())
        }
        Declaration::Link(link) => {
            draft.items.push(Item {
                name: link.name,
                kind: ItemKind::Link(0, link.counted),
                required: false,
                initial: Value::Null,
            })?;
            Ok(())
        }
        Declaration::End(_) => Ok(()),
        Declaration::DataSet(_) => Ok(()),
        Declaration::SetOf(_) => Ok(()),
    }
}

/// What the open data set has is noted.
#[tactic(auto, using(std::proofs::lemmas::Option::gets), unfolding(crate::specs::Outlines::outlined_inside))]
fn outlined_inside(
    work: &mut Compilation,
    alloc: Global,
    plain: &Plain,
    declaration: &Declaration,
) -> Result<(), CompileFault>
    ensures { Makes result work.new (outlined_inside plain.now declaration.now work.old) }
{
    let at = (work.within as usize).saturating_sub(1);
    if at >= work.made.as_slice().len() {
        return Ok(());
    }
    let owner = work.made.as_slice()[at].owner;
    work.made.note(at, alloc, plain, declaration)?;
    work.within = open_after(declaration, owner, work.within);
    Ok(())
}

/// A data set is noted, and is open.
#[tactic(auto, unfolding(crate::specs::Outlines::outlined_data_set))]
fn outlined_data_set(
    work: &mut Compilation,
    alloc: Global,
    data_set: &DataSetDecl,
) -> Result<(), CompileFault>
    ensures { Makes result work.new (outlined_data_set data_set.now work.old) }
{
    let number = next_structure(work.made.as_slice());
    let kind = data_set_kind(data_set.restart);
    work.made.push(Draft::new(alloc, number, kind, data_set.name, work.within))?;
    work.within = number;
    Ok(())
}

/// A set or subset is noted.
#[tactic(auto, unfolding(crate::specs::Outlines::outlined_set))]
fn outlined_set(work: &mut Compilation, alloc: Global, set: &SetDecl) -> Result<(), CompileFault>
    ensures { Makes result work.new (outlined_set set.now work.old) }
{
    let number = next_structure(work.made.as_slice());
    work.made.push(Draft::new(alloc, number, StructureKind::Set, set.name, work.within))?;
    Ok(())
}

impl Stepwise<Plain, Declaration> for Compilation {
    ghost step_at = { outlined_one };

    ghost fixed = { no_title };

    #[tactic(auto, unfolding(crate::specs::Outlines::outlined_one))]
    fn step(
        &mut self,
        alloc: Global,
        plain: &Plain,
        declaration: &Declaration,
    ) -> Result<(), CompileFault> {
        match declaration {
            Declaration::DataSet(data_set) => outlined_data_set(self, alloc, data_set),
            Declaration::SetOf(set) => outlined_set(self, alloc, set),
            Declaration::Item(_) => outlined_inside(self, alloc, plain, declaration),
            Declaration::Group(_) => outlined_inside(self, alloc, plain, declaration),
            Declaration::Link(_) => outlined_inside(self, alloc, plain, declaration),
            Declaration::End(_) => outlined_inside(self, alloc, plain, declaration),
        }
    }
}
