ghost use Rattle.std.specs.Prelude.{◌≡◌, ◌<◌, ◌++◌, ◌∷◌, [], OnErr, OnOk, length, nat_lt, slice_get, Some};
ghost use Rattle.std.specs.Option.{option_copied};
ghost use Rattle.dms_desc.specs.Shape.{kind_number};
ghost use Rattle.dasdl_compile.specs.Answers.{Makes, in_place};
ghost use Rattle.dasdl_compile.specs.Finding.{is_structure, data_set_named};
ghost use Rattle.dasdl_compile.specs.Members.{member_at};
ghost use Rattle.dasdl_compile.specs.Outlines.{outlined_member};
ghost use Rattle.dasdl_compile.specs.Tables.{first_place, with_title};
ghost use Rattle.dasdl_compile.specs.declared.draft.Draft.{Draft};

use crate::draft::Draft;
use crate::fault::CompileFault;
use crate::members::member_at;
use crate::outline::outlined_member;
use crate::work::Plain;
use dasdl_parse::Declaration;
use dms_base::{Memory, Name, StructureKind};
use indexmap::IndexMap;
use std::alloc::Global;
use std::marker::Model;

/// Structures, the one with number n at place n - 1.
#[derive(Drop)]
pub struct Drafts {
    kept: Vec<Draft>,
    /// Their names as they were first seen, each with the place of the first data set that has it.
    names: IndexMap<Name, Option<usize>>,
}

impl Model for Drafts {
    ghost use Rattle.std.specs.Prelude.{◌≡◌, List};
    ghost use Rattle.std.specs.Coded.{coded_list};
    ghost use Rattle.dasdl_compile.specs.Tables.{names_of};
    ghost use Rattle.dasdl_compile.specs.declared.draft.Draft.{Draft};
    ghost use Rattle.dasdl_compile.specs.contracts.draft.Draft as draft;

    ghost Value = { List Draft };

    ghost coded = { coded_list draft.the_row.coded };

    ghost view = { λ v. v.kept.items };

    ghost invariant = { λ v. v.names.entries ≡ names_of v.kept.items };
}

/// The place of the first data set with a name: the one that is noted, or else this one's.
fn first_place(noted: Option<Option<usize>>, is_data_set: bool, at: usize) -> Option<usize>
    ensures { result ≡ first_place noted is_data_set at }
{
    if let Some(Some(first)) = noted {
        return Some(first);
    }
    if is_data_set { Some(at) } else { None }
}

/// Whether this is the kind of a data set, also of the restart data set.
fn is_data_set(kind: StructureKind) -> bool
    ensures { result ≡ nat_lt (kind_number kind) 3 }
{
    matches!(kind, StructureKind::DataSet | StructureKind::RestartDataSet)
}

/// Notes the name of the structure at this place.
fn note_title(
    names: &mut IndexMap<Name, Option<usize>>,
    name: Name,
    kind: StructureKind,
    at: usize,
) -> Result<(), Memory>
    ensures ok { OnOk result (names.new.entries ≡ with_title name (kind_number kind) at names.old.entries) }
    ensures err { OnErr result (names.new.entries ≡ names.old.entries) }
{
    let place = first_place(names.get(&name).copied(), is_data_set(kind), at);
    names.insert(name, place)?;
    Ok(())
}

impl Drafts {
    /// The empty list.
    pub fn new(alloc: Global) -> Drafts
        ensures { result ≡ [] }
    {
        Drafts {
            kept: Vec::new(alloc),
            names: IndexMap::new(alloc),
        }
    }

    /// Adds one at the end. Answers Err where memory is refused, and then nothing changes.
    pub fn push(&mut self, draft: Draft) -> Result<(), Memory>
        ensures ok { OnOk result (self.new ≡ self.old ++ draft ∷ []) }
        ensures err { OnErr result (self.new ≡ self.old) }
    {
        let at = self.kept.len();
        let name = draft.name;
        let kind = draft.kind;
        self.kept.push(draft)?;
        let noted = note_title(&mut self.names, name, kind, at);
        if noted.is_err() {
            self.kept.truncate(at);
        }
        noted
    }

    /// Whether a structure has this name.
    pub fn is_structure(&self, name: &Name) -> bool
        ensures { result ≡ is_structure name.now self.now }
    {
        self.names.contains_key(name)
    }

    /// The data set with this name.
    pub fn data_set_named(&self, name: &Name) -> Option<&Draft>
        ensures { option_copied result ≡ data_set_named name.now self.now }
    {
        match self.names.get(name) {
            Some(Some(at)) => self.kept.as_slice().get(*at),
            Some(None) => None,
            None => None,
        }
    }

    /// The list.
    pub fn as_slice(&self) -> &[Draft]
        ensures { result.now ≡ self.now }
    {
        self.kept.as_slice()
    }

    /// Adds a member to the data set at this place, or answers why it can't be one.
    #[tactic(auto, using(std::proofs::lemmas::Option::gets))]
    pub fn add_member(
        &mut self,
        at: usize,
        alloc: Global,
        outline: &Drafts,
        declaration: &Declaration,
    ) -> Result<(), CompileFault>
        requires { at < length self.old }
        ensures { (d : Draft) → slice_get self.old at ≡ Some d → Makes result self.new (in_place self.old at (member_at outline.now declaration.now d)) }
    {
        member_at(&mut self.kept[at], alloc, outline, declaration)
    }

    /// A member is noted in the data set at this place.
    #[tactic(auto, using(std::proofs::lemmas::Option::gets))]
    pub fn note(
        &mut self,
        at: usize,
        alloc: Global,
        plain: &Plain,
        declaration: &Declaration,
    ) -> Result<(), CompileFault>
        requires { at < length self.old }
        ensures { (d : Draft) → slice_get self.old at ≡ Some d → Makes result self.new (in_place self.old at (outlined_member plain.now declaration.now d)) }
    {
        outlined_member(&mut self.kept[at], alloc, plain, declaration)
    }
}
