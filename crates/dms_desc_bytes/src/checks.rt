ghost use Rattle.std.specs.Prelude.{◌≡◌, ◌+◌, map, min};
ghost use Rattle.std.specs.List.{list_all, list_any};
ghost use Rattle.dms_desc.specs.Shape.{shape_of, as_described};
ghost use Rattle.dms_desc_bytes.specs.Lists.{apart, total};
ghost use Rattle.dms_desc.specs.Kinds.{is_restart};
ghost use Rattle.dms_desc_bytes.specs.WellFormed.{is_open_behind, is_owned_well, is_shallow, stands_in, has_member, has_sound_items, has_sound_groups, has_sound_verify, lacks_set_fields, is_data_set_sound, is_placed, has_sound_fields, is_sound, stand_in_order, names_differ, not_both_restart, counted_in, has_parameters, are_sound};

use crate::conds::{is_condition, is_nothing};
use crate::finding::{is_plain_data_set, owner_of};
use crate::members::{
    are_groups_sound, are_items_sound, counted_links, groups_follow, is_name, members_differ,
};
use crate::sets::{MOST_RECORDS, is_set_sound};
use dms_base::StructureKind;
use dms_desc::{Description, Structure, record_width};

/// Whether structure `number` can be open behind structure `before`.
fn is_open_behind(structures: &[Structure], before: u16, number: u16) -> bool
    ensures { result ≡ is_open_behind (map shape_of structures.now) before number }
{
    let around = owner_of(structures, before);
    number == before || number == around || number == owner_of(structures, around)
}

#[tactic(auto, unfolding(crate::specs::WellFormed::is_owned_well))]
fn is_owned_well(structures: &[Structure], s: &Structure) -> bool
    ensures { result ≡ is_owned_well (map shape_of structures.now) (shape_of s.now) }
{
    s.owner == 0
        || (is_open_behind(structures, s.number.saturating_sub(1), s.owner)
            && is_plain_data_set(structures, s.owner))
}

#[tactic(auto, unfolding(crate::specs::WellFormed::is_shallow))]
fn is_shallow(structures: &[Structure], s: &Structure) -> bool
    ensures { result ≡ is_shallow (map shape_of structures.now) (shape_of s.now) }
{
    owner_of(structures, owner_of(structures, s.owner)) == 0
}

fn has_embedded(structures: &[Structure], number: u16) -> bool
    ensures { result ≡ list_any (stands_in number) (map shape_of structures.now) }
{
    for s in structures {
        if s.owner == number {
            return true;
        }
    }
    false
}

#[tactic(auto, unfolding(crate::specs::WellFormed::has_member))]
fn has_member(structures: &[Structure], s: &Structure) -> bool
    ensures { result ≡ has_member (map shape_of structures.now) (shape_of s.now) }
{
    !s.items.as_slice().is_empty() || has_embedded(structures, s.number)
}

#[tactic(auto, unfolding(crate::specs::WellFormed::has_sound_items))]
fn has_sound_items(structures: &[Structure], s: &Structure) -> bool
    ensures { result ≡ has_sound_items (map shape_of structures.now) (shape_of s.now) }
{
    let items = s.items.as_slice();
    items.len() <= 60 && are_items_sound(structures, items) && record_width(items) <= 480
}

#[tactic(auto, unfolding(crate::specs::WellFormed::has_sound_groups))]
fn has_sound_groups(s: &Structure) -> bool
    ensures { result ≡ has_sound_groups (shape_of s.now) }
{
    let items = s.items.as_slice();
    let groups = s.groups.as_slice();
    groups.len() <= items.len() && are_groups_sound(items, groups) && groups_follow(groups)
}

fn has_sound_verify(s: &Structure) -> bool
    ensures { result ≡ has_sound_verify (shape_of s.now) }
{
    is_nothing(&s.cond) || is_condition(s.items.as_slice(), &s.cond)
}

#[tactic(auto, using(crate::proofs::Numbered::no_form), unfolding(crate::specs::WellFormed::lacks_set_fields))]
fn lacks_set_fields(s: &Structure) -> bool
    ensures { result ≡ lacks_set_fields (shape_of s.now) }
{
    s.set == 0 && s.form.is_none() && !s.duplicates && s.parts.as_slice().is_empty()
}

#[tactic(auto, unfolding(crate::specs::WellFormed::is_data_set_sound))]
fn is_data_set_sound(structures: &[Structure], s: &Structure) -> bool
    ensures { result ≡ is_data_set_sound (map shape_of structures.now) (shape_of s.now) }
{
    1 <= s.population
        && s.population <= MOST_RECORDS
        && has_member(structures, s)
        && has_sound_items(structures, s)
        && has_sound_groups(s)
        && members_differ(s.items.as_slice(), s.groups.as_slice())
        && has_sound_verify(s)
        && lacks_set_fields(s)
}

fn is_placed(s: &Structure) -> bool
    ensures { result ≡ is_placed (shape_of s.now) }
{
    !s.is_restart() || s.owner == 0
}

/// Whether a structure has what its kind asks for.
fn has_sound_fields(structures: &[Structure], s: &Structure) -> bool
    ensures { result ≡ has_sound_fields (map shape_of structures.now) (shape_of s.now) }
{
    match s.kind {
        StructureKind::DataSet | StructureKind::RestartDataSet => is_data_set_sound(structures, s),
        StructureKind::Set | StructureKind::AutomaticSubset | StructureKind::ManualSubset => {
            is_set_sound(structures, s)
        }
    }
}

#[tactic(auto, using(crate::proofs::Numbered::kind_within), unfolding(crate::specs::WellFormed::is_sound))]
fn is_sound(structures: &[Structure], s: &Structure) -> bool
    ensures { result ≡ is_sound (map shape_of structures.now) (shape_of s.now) }
{
    is_name(&s.name)
        && is_owned_well(structures, s)
        && is_shallow(structures, s)
        && is_placed(s)
        && has_sound_fields(structures, s)
}

fn are_all_sound(structures: &[Structure]) -> bool
    ensures { result ≡ list_all (is_sound (map shape_of structures.now)) (map shape_of structures.now) }
{
    for s in structures {
        if !is_sound(structures, s) {
            return false;
        }
    }
    true
}

fn are_numbered(structures: &[Structure]) -> bool
    ensures { result ≡ stand_in_order 1 (map shape_of structures.now) }
{
    for (i, s) in structures.iter().enumerate() {
        if s.number as usize != i + 1 {
            return false;
        }
    }
    true
}

fn is_new_name(s: &Structure, others: &[Structure]) -> bool
    ensures { result ≡ list_all (names_differ (shape_of s.now)) (map shape_of others.now) }
{
    for other in others {
        if s.name.is(&other.name) {
            return false;
        }
    }
    true
}

fn names_differ(structures: &[Structure]) -> bool
    ensures { result ≡ apart names_differ (map shape_of structures.now) }
{
    for (i, s) in structures.iter().enumerate() {
        if !is_new_name(s, &structures[i + 1..]) {
            return false;
        }
    }
    true
}

fn has_restart(structures: &[Structure]) -> bool
    ensures { result ≡ list_any is_restart (map shape_of structures.now) }
{
    for s in structures {
        if s.is_restart() {
            return true;
        }
    }
    false
}

fn is_only_restart(s: &Structure, others: &[Structure]) -> bool
    ensures { result ≡ list_all (not_both_restart (shape_of s.now)) (map shape_of others.now) }
{
    for other in others {
        if s.is_restart() && other.is_restart() {
            return false;
        }
    }
    true
}

fn has_no_second_restart(structures: &[Structure]) -> bool
    ensures { result ≡ apart not_both_restart (map shape_of structures.now) }
{
    for (i, s) in structures.iter().enumerate() {
        if !is_only_restart(s, &structures[i + 1..]) {
            return false;
        }
    }
    true
}

/// The counted links of all data sets; the count stops at 2^32 - 1.
fn all_counted_links(structures: &[Structure]) -> u32
    ensures { result ≡ min (total counted_in (map shape_of structures.now)) 4294967295 }
{
    let mut count = 0u32;
    for s in structures {
        count = count.saturating_add(counted_links(s.items.as_slice()));
    }
    count
}

/// Whether each parameter is in its range.
#[tactic(auto, unfolding(crate::specs::WellFormed::has_parameters))]
pub fn has_parameters(desc: &Description) -> bool
    ensures { result ≡ has_parameters (as_described desc.now) }
{
    1 <= desc.syncpoint
        && desc.syncpoint <= 10_000
        && 1 <= desc.controlpoint
        && desc.controlpoint <= 10_000
        && 8 <= desc.buffers
        && desc.buffers <= 4096
        && 8 <= desc.blocks
        && desc.blocks <= 512
        && 2 <= desc.files
        && desc.files <= 9999
}

/// Whether the structures are sound.
#[tactic(auto, unfolding(crate::specs::WellFormed::are_sound))]
pub fn are_sound(structures: &[Structure]) -> bool
    ensures { result ≡ are_sound (map shape_of structures.now) }
{
    structures.len() <= 200
        && are_numbered(structures)
        && names_differ(structures)
        && has_restart(structures)
        && has_no_second_restart(structures)
        && all_counted_links(structures) <= 4000
        && are_all_sound(structures)
}
