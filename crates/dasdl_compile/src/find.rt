ghost use Rattle.std.specs.Prelude.{◌≡◌, ◌==◌};
ghost use Rattle.dasdl_compile.specs.Finding.{next_structure, next_item, has_restart, kind_of, is_taken};

use crate::draft::Draft;
use dms_base::Name;
use dms_desc::{Item, group_named, item_named};

/// The number of the structure behind these, 1 where there is none; no number is above 65,535.
pub fn next_structure(drafts: &[Draft]) -> u16
    ensures { result ≡ next_structure drafts.now }
{
    if drafts.len() >= 65_535 {
        return 65_535;
    }
    (drafts.len() + 1) as u16
}

/// The number of the item behind these, 1 where there is none; no number is above 255.
pub fn next_item(items: &[Item]) -> u8
    ensures { result ≡ next_item items.now }
{
    if items.len() >= 255 {
        return 255;
    }
    (items.len() + 1) as u8
}

/// Whether one of these is a restart data set.
#[tactic(auto, unfolding(crate::specs::Finding::has_restart))]
pub fn has_restart(drafts: &[Draft]) -> bool
    ensures { result ≡ has_restart drafts.now }
{
    for draft in drafts {
        if draft.is_restart() {
            return true;
        }
    }
    false
}

/// Whether the structure with this number is the restart data set; no where there is none.
#[tactic(auto, unfolding(crate::specs::Finding::kind_of))]
pub fn is_restart(drafts: &[Draft], number: u16) -> bool
    ensures { result ≡ (kind_of number drafts.now == 2) }
{
    for draft in drafts {
        if draft.number == number {
            return draft.is_restart();
        }
    }
    false
}

/// Whether an item, link or group of a data set has this name.
#[tactic(auto, unfolding(crate::specs::Finding::is_taken))]
pub fn is_taken(draft: &Draft, name: &Name) -> bool
    ensures { result ≡ is_taken name.now draft.now }
{
    item_named(draft.items.as_slice(), name).is_some()
        || group_named(draft.groups.as_slice(), name).is_some()
}
