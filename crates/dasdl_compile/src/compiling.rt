ghost use Rattle.std.specs.Prelude.{◌≡◌, IfOk, map};
ghost use Rattle.dms_desc.specs.Shape.{shape_of};
ghost use Rattle.dasdl_compile.specs.Answers.{Makes};
ghost use Rattle.dasdl_compile.specs.Compile.{is_misplaced, data_set_at, inside_at, declared_at, shape_in, finish_drafts, compile_schema, Describes};
ghost use Rattle.dasdl_compile.specs.Tables.{no_title};

use crate::draft::Draft;
use crate::drafts::Drafts;
use crate::fault::CompileFault;
use crate::find::{has_restart, is_restart, next_structure};
use crate::members::open_after;
use crate::outline::data_set_kind;
use crate::sets::set_at;
use crate::steps::{Stepwise, all_steps};
use crate::widths::description_width;
use crate::work::{Compilation, Plain};
use dasdl_parse::{DataSetDecl, Declaration, Parameters, Schema};
use dms_base::Memory;
use dms_desc::{Description, Structure, Structures};
use std::alloc::Global;

/// The bytes that a description may have.
const DESCRIPTION_BYTES: u32 = 65_535;

/// Whether a data set can't stand here.
#[tactic(auto, unfolding(crate::specs::Compile::is_misplaced))]
fn is_misplaced(work: &Compilation, data_set: &DataSetDecl) -> bool
    ensures { result ≡ is_misplaced data_set.now work.now }
{
    (data_set.restart && work.within != 0) || is_restart(work.made.as_slice(), work.within)
}

/// A data set begins.
#[tactic(auto, unfolding(crate::specs::Compile::data_set_at))]
fn data_set_at(
    work: &mut Compilation,
    alloc: Global,
    data_set: &DataSetDecl,
) -> Result<(), CompileFault>
    ensures { Makes result work.new (data_set_at data_set.now work.old) }
{
    if work.made.is_structure(&data_set.name) {
        return Err(CompileFault::Twice(data_set.name));
    }
    if is_misplaced(work, data_set) {
        return Err(CompileFault::Embedding(data_set.name));
    }
    if data_set.restart && has_restart(work.made.as_slice()) {
        return Err(CompileFault::Twice(data_set.name));
    }
    let number = next_structure(work.made.as_slice());
    let kind = data_set_kind(data_set.restart);
    work.made.push(Draft::new(alloc, number, kind, data_set.name, work.within))?;
    work.within = number;
    Ok(())
}

/// What stands in the data set that is open.
#[tactic(auto, using(std::proofs::lemmas::Option::gets), unfolding(crate::specs::Compile::inside_at))]
fn inside_at(
    work: &mut Compilation,
    alloc: Global,
    outline: &Drafts,
    declaration: &Declaration,
) -> Result<(), CompileFault>
    ensures { Makes result work.new (inside_at outline.now declaration.now work.old) }
{
    let at = (work.within as usize).saturating_sub(1);
    if at >= work.made.as_slice().len() {
        return Ok(());
    }
    let owner = work.made.as_slice()[at].owner;
    work.made.add_member(at, alloc, outline, declaration)?;
    work.within = open_after(declaration, owner, work.within);
    Ok(())
}

impl Stepwise<Drafts, Declaration> for Compilation {
    ghost step_at = { declared_at };

    ghost fixed = { no_title };

    #[tactic(auto, unfolding(crate::specs::Compile::declared_at))]
    fn step(
        &mut self,
        alloc: Global,
        outline: &Drafts,
        declaration: &Declaration,
    ) -> Result<(), CompileFault> {
        match declaration {
            Declaration::DataSet(data_set) => data_set_at(self, alloc, data_set),
            Declaration::SetOf(set) => set_at(self, alloc, outline, set),
            Declaration::Item(_) => inside_at(self, alloc, outline, declaration),
            Declaration::Group(_) => inside_at(self, alloc, outline, declaration),
            Declaration::Link(_) => inside_at(self, alloc, outline, declaration),
            Declaration::End(_) => inside_at(self, alloc, outline, declaration),
        }
    }
}

/// A structure of the description.
fn structure_of(alloc: Global, draft: &Draft) -> Result<Structure, Memory>
    ensures { IfOk result (λ s. shape_of s ≡ shape_in draft.now) }
{
    let items = draft.items.copy(alloc)?;
    let groups = draft.groups.copy(alloc)?;
    let cond = draft.cond.cond().copy(alloc)?;
    let parts = draft.parts.copy(alloc)?;
    Ok(Structure {
        number: draft.number,
        kind: draft.kind,
        name: draft.name,
        owner: draft.owner,
        population: draft.population,
        items,
        groups,
        cond,
        set: draft.set,
        form: draft.form,
        duplicates: draft.duplicates,
        parts,
    })
}

/// The structures of the description.
fn structures_of(alloc: Global, drafts: &[Draft]) -> Result<Structures, Memory>
    ensures { IfOk result (λ v. map shape_of v ≡ map shape_in drafts.now) }
{
    let mut made = Structures::new(alloc);
    for draft in drafts {
        made.push(structure_of(alloc, draft)?)?;
    }
    Ok(made)
}

/// The description, judged at the text's end.
#[tactic(auto, unfolding(crate::specs::Compile::finish_drafts))]
fn finish_drafts(
    alloc: Global,
    parameters: &Parameters,
    drafts: &[Draft],
) -> Result<Description, CompileFault>
    ensures { Describes result (finish_drafts parameters.now drafts.now) }
{
    if !has_restart(drafts) {
        return Err(CompileFault::NoRestart);
    }
    let width = description_width(drafts);
    if width > DESCRIPTION_BYTES {
        return Err(CompileFault::DescriptionLong(width));
    }
    let structures = structures_of(alloc, drafts)?;
    Ok(Description {
        syncpoint: parameters.syncpoint,
        controlpoint: parameters.controlpoint,
        buffers: parameters.buffers,
        blocks: parameters.blocks,
        files: parameters.files,
        structures,
    })
}

/// The description of a schema, or its first fault in text order, or Memory where memory ran out.
#[tactic(auto, unfolding(crate::specs::Compile::compile_schema))]
pub fn compile(alloc: Global, schema: &Schema) -> Result<Description, CompileFault>
    ensures { Describes result (compile_schema schema.now.parameters schema.now.declarations) }
{
    let declarations = schema.declarations.as_slice();
    let mut outline = Compilation {
        made: Drafts::new(alloc),
        within: 0,
    };
    all_steps(&mut outline, alloc, &Plain::Noted, declarations)?;
    let mut work = Compilation {
        made: Drafts::new(alloc),
        within: 0,
    };
    all_steps(&mut work, alloc, &outline.made, declarations)?;
    finish_drafts(alloc, &schema.parameters, work.made.as_slice())
}
