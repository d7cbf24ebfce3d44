ghost use Rattle.std.specs.Prelude.{◌≡◌, map, option_map};
ghost use Rattle.std.specs.Option.{option_copied};
ghost use Rattle.dms_desc.specs.Shape.{shape_of, as_described};
ghost use Rattle.dms_desc.specs.Kinds.{is_data_set, is_restart, is_automatic, is_manual, is_set_or_automatic, is_link, over, takes};
ghost use Rattle.dms_desc.specs.Lookups.{structure_at, structure_of, structure_named, name_of, items_of, parts_of, set_of, part_item, part_kind, after_item, item_named, group_named};

use crate::{Description, Group, Item, KeyPart, Structure, meets};
use dms_base::{ItemKind, Name, StructureKind, Value};

/// An item or a link that was looked up by its name: its number, counted from 1, and its kind.
#[derive(Clone, Copy, Debug, PartialEq, Eq)]
pub struct NamedItem {
    pub number: u8,
    pub kind: ItemKind,
}

/// The structure with a number among these: number n stands at place n - 1.
pub fn structure_at(structures: &[Structure], number: u16) -> Option<&Structure>
    ensures { option_map shape_of (option_copied result) ≡ structure_at (map shape_of structures.now) number }
{
    if number == 0 {
        return None;
    }
    structures.get((number - 1) as usize)
}

/// The first structure with a name among these.
pub fn structure_named<'a>(structures: &'a [Structure], name: &Name) -> Option<&'a Structure>
    ensures { option_map shape_of (option_copied result) ≡ structure_named name.now (map shape_of structures.now) }
{
    for structure in structures {
        if structure.name.is(name) {
            return Some(structure);
        }
    }
    None
}

/// The number of the item behind one; it stops at 255.
pub fn after_item(number: u8) -> u8
    ensures { result ≡ after_item number }
{
    number.saturating_add(1)
}

/// The first item or link with a name among these.
pub fn item_named(items: &[Item], name: &Name) -> Option<NamedItem>
    ensures { result ≡ item_named name.now 1 items.now }
{
    let mut number = 1u8;
    for item in items {
        if item.name.is(name) {
            return Some(NamedItem {
                number,
                kind: item.kind,
            });
        }
        number = after_item(number);
    }
    None
}

/// The first group with a name among these.
pub fn group_named(groups: &[Group], name: &Name) -> Option<Group>
    ensures { result ≡ group_named name.now groups.now }
{
    for group in groups {
        if group.name.is(name) {
            return Some(*group);
        }
    }
    None
}

/// Whether items of a kind are links.
pub fn is_link(kind: &ItemKind) -> bool
    ensures { result ≡ is_link kind.now }
{
    matches!(kind, ItemKind::Link(_, _))
}

impl Item {
    /// Whether it is a link.
    pub fn is_link(&self) -> bool
        ensures { result ≡ is_link self.now.kind }
    {
        is_link(&self.kind)
    }
}

impl KeyPart {
    /// The item of the part, of the items of a data set.
    pub fn item<'a>(&self, items: &'a [Item]) -> Option<&'a Item>
        ensures { option_copied result ≡ part_item items.now self.now }
    {
        items.get((self.item as usize).saturating_sub(1))
    }

    /// The kind of the part's item.
    pub fn kind(&self, items: &[Item]) -> Option<ItemKind>
        ensures { result ≡ part_kind items.now self.now }
    {
        match self.item(items) {
            None => None,
            Some(item) => Some(item.kind),
        }
    }
}

impl Structure {
    /// Whether it is a data set, also the restart data set.
    pub fn is_data_set(&self) -> bool
        ensures { result ≡ is_data_set (shape_of self.now) }
    {
        matches!(
            self.kind,
            StructureKind::DataSet | StructureKind::RestartDataSet
        )
    }

    /// Whether it is the restart data set.
    pub fn is_restart(&self) -> bool
        ensures { result ≡ is_restart (shape_of self.now) }
    {
        matches!(self.kind, StructureKind::RestartDataSet)
    }

    /// Whether it is an automatic subset.
    pub fn is_automatic(&self) -> bool
        ensures { result ≡ is_automatic (shape_of self.now) }
    {
        matches!(self.kind, StructureKind::AutomaticSubset)
    }

    /// Whether it is a manual subset.
    pub fn is_manual(&self) -> bool
        ensures { result ≡ is_manual (shape_of self.now) }
    {
        matches!(self.kind, StructureKind::ManualSubset)
    }

    /// Whether it is a set or an automatic subset, whose members follow from the records.
    pub fn is_set_or_automatic(&self) -> bool
        ensures { result ≡ is_set_or_automatic (shape_of self.now) }
    {
        matches!(
            self.kind,
            StructureKind::Set | StructureKind::AutomaticSubset
        )
    }

    /// The number of the data set whose records it holds: its own where it is a data set.
    pub fn over(&self) -> u16
        ensures { result ≡ over (shape_of self.now) }
    {
        if self.is_data_set() {
            self.number
        } else {
            self.set
        }
    }

    /// Whether it takes a record with these values: an automatic subset takes those that meet its condition.
    pub fn takes(&self, values: &[Value]) -> bool
        ensures { result ≡ takes (shape_of self.now) values.now }
    {
        if self.is_automatic() {
            meets(&self.cond, values)
        } else {
            true
        }
    }
}

impl Description {
    /// The structure with a number.
    pub fn structure(&self, number: u16) -> Option<&Structure>
        ensures { option_map shape_of (option_copied result) ≡ structure_of (as_described self.now) number }
    {
        structure_at(self.structures.as_slice(), number)
    }

    /// The first structure with a name.
    pub fn structure_named(&self, name: &Name) -> Option<&Structure>
        ensures { option_map shape_of (option_copied result) ≡ structure_named name.now (as_described self.now).structures }
    {
        structure_named(self.structures.as_slice(), name)
    }

    /// The name of the structure with a number.
    pub fn name_of(&self, number: u16) -> Name
        ensures { result ≡ name_of (structure_of (as_described self.now) number) }
    {
        match self.structure(number) {
            None => Name::unknown(),
            Some(structure) => structure.name,
        }
    }

    /// The items and links of the structure with a number; none where it is no data set.
    pub fn items_of(&self, number: u16) -> &[Item]
        ensures { result.now ≡ items_of (structure_of (as_described self.now) number) }
    {
        match self.structure(number) {
            None => &[],
            Some(structure) => structure.items.as_slice(),
        }
    }

    /// The key of the structure with a number; no parts where it has none.
    pub fn parts_of(&self, number: u16) -> &[KeyPart]
        ensures { result.now ≡ parts_of (structure_of (as_described self.now) number) }
    {
        match self.structure(number) {
            None => &[],
            Some(structure) => structure.parts.as_slice(),
        }
    }

    /// The number of the data set whose records the structure with a number holds, 0 where there is no such structure.
    pub fn set_of(&self, number: u16) -> u16
        ensures { result ≡ set_of (as_described self.now) number }
    {
        match self.structure(number) {
            None => 0,
            Some(structure) => structure.over(),
        }
    }
}
