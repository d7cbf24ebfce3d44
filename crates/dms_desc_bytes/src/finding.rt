ghost use Rattle.std.specs.Prelude.{◌≡◌, ◌==◌, map};
ghost use Rattle.std.specs.Option.{option_copied};
ghost use Rattle.dms_desc.specs.Shape.{shape_of};
ghost use Rattle.dms_desc.specs.Lookups.{structure_at};
ghost use Rattle.dms_desc_bytes.specs.Finding.{kind_of, owner_of, item_at, items_at};
ghost use Rattle.dms_desc_bytes.specs.Spelling.{is_data_set};

use dms_base::StructureKind;
use dms_desc::{Item, Structure, structure_at};

/// Whether the structure with this number is a data set, also the restart data set; no where there is none.
#[tactic(auto, unfolding(crate::specs::Finding::kind_of))]
pub fn is_data_set(structures: &[Structure], number: u16) -> bool
    ensures { result ≡ is_data_set (kind_of (map shape_of structures.now) number) }
{
    match structure_at(structures, number) {
        None => false,
        Some(structure) => match structure.kind {
            StructureKind::DataSet | StructureKind::RestartDataSet => true,
            StructureKind::Set | StructureKind::AutomaticSubset | StructureKind::ManualSubset => {
                false
            }
        },
    }
}

/// Whether the structure with this number is a data set other than the restart data set.
#[tactic(auto, unfolding(crate::specs::Finding::kind_of))]
pub fn is_plain_data_set(structures: &[Structure], number: u16) -> bool
    ensures { result ≡ (kind_of (map shape_of structures.now) number == 1) }
{
    match structure_at(structures, number) {
        None => false,
        Some(structure) => matches!(structure.kind, StructureKind::DataSet),
    }
}

/// The number of the structure in which it stands, 0 for none.
#[tactic(auto, unfolding(crate::specs::Finding::owner_of))]
pub fn owner_of(structures: &[Structure], number: u16) -> u16
    ensures { result ≡ owner_of (map shape_of structures.now) number }
{
    match structure_at(structures, number) {
        None => 0,
        Some(structure) => structure.owner,
    }
}

/// Its items, none where there is no such structure.
#[tactic(auto, unfolding(crate::specs::Finding::items_at))]
pub fn items_at(structures: &[Structure], number: u16) -> &[Item]
    ensures { result.now ≡ items_at (map shape_of structures.now) number }
{
    match structure_at(structures, number) {
        None => &[],
        Some(structure) => structure.items.as_slice(),
    }
}

/// The item with this number.
pub fn item_at(items: &[Item], number: u8) -> Option<&Item>
    ensures { option_copied result ≡ item_at items.now number }
{
    if number == 0 {
        return None;
    }
    items.get(number as usize - 1)
}
