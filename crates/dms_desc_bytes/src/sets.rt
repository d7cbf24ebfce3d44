ghost use Rattle.std.specs.Prelude.{◌≡◌, map, min};
ghost use Rattle.std.specs.List.{list_all};
ghost use Rattle.dms_desc.specs.Shape.{shape_of};
ghost use Rattle.dms_desc_bytes.specs.Finding.{item_at};
ghost use Rattle.dms_desc_bytes.specs.Lists.{apart, total};
ghost use Rattle.dms_desc_bytes.specs.WellFormed.{is_part_sound, parts_differ, part_width, is_key_sound, is_set_placed, is_populated, is_where_sound, is_set_sound};

use crate::conds::{is_condition, is_nothing};
use crate::finding::{is_data_set, item_at, items_at, owner_of};
use dms_desc::{Item, KeyPart, Structure, item_width};

/// The entries that a manual subset may have.
pub const MOST_RECORDS: u32 = 1_000_000;

fn is_part_sound(items: &[Item], part: &KeyPart) -> bool
    ensures { result ≡ is_part_sound items.now part.now }
{
    match item_at(items, part.item) {
        None => false,
        Some(item) => !item.is_link(),
    }
}

fn are_parts_sound(items: &[Item], parts: &[KeyPart]) -> bool
    ensures { result ≡ list_all (is_part_sound items.now) parts.now }
{
    parts.iter().all(|part| is_part_sound(items, part))
}

fn is_new_part(part: &KeyPart, others: &[KeyPart]) -> bool
    ensures { result ≡ list_all (parts_differ part.now) others.now }
{
    others.iter().all(|other| part.item != other.item)
}

fn parts_differ(parts: &[KeyPart]) -> bool
    ensures { result ≡ apart parts_differ parts.now }
{
    for (i, part) in parts.iter().enumerate() {
        if !is_new_part(part, &parts[i + 1..]) {
            return false;
        }
    }
    true
}

fn part_width(items: &[Item], part: &KeyPart) -> u32
    ensures { result ≡ part_width items.now part.now }
{
    match item_at(items, part.item) {
        None => 0,
        Some(item) => item_width(item.kind),
    }
}

/// The bytes of a key; the count stops at 2^32 - 1.
fn key_width(items: &[Item], parts: &[KeyPart]) -> u32
    ensures { result ≡ min (total (part_width items.now) parts.now) 4294967295 }
{
    let mut width = 0u32;
    for part in parts {
        width = width.saturating_add(part_width(items, part));
    }
    width
}

#[tactic(auto, unfolding(crate::specs::WellFormed::is_key_sound))]
fn is_key_sound(items: &[Item], parts: &[KeyPart]) -> bool
    ensures { result ≡ is_key_sound items.now parts.now }
{
    parts.len() <= 16
        && are_parts_sound(items, parts)
        && parts_differ(parts)
        && key_width(items, parts) <= 96
}

#[tactic(auto, unfolding(crate::specs::WellFormed::is_set_placed))]
fn is_set_placed(structures: &[Structure], s: &Structure) -> bool
    ensures { result ≡ is_set_placed (map shape_of structures.now) (shape_of s.now) }
{
    let owner = owner_of(structures, s.set);
    s.owner == owner || (s.is_manual() && owner == 0)
}

fn is_populated(s: &Structure) -> bool
    ensures { result ≡ is_populated (shape_of s.now) }
{
    if s.is_manual() {
        return 1 <= s.population && s.population <= MOST_RECORDS;
    }
    s.population == 0
}

fn is_where_sound(items: &[Item], s: &Structure) -> bool
    ensures { result ≡ is_where_sound items.now (shape_of s.now) }
{
    if s.is_automatic() {
        return is_condition(items, &s.cond);
    }
    is_nothing(&s.cond)
}

/// Whether a set or subset is sound.
#[tactic(auto, using(crate::proofs::Numbered::form_within), unfolding(crate::specs::WellFormed::is_set_sound))]
pub fn is_set_sound(structures: &[Structure], s: &Structure) -> bool
    ensures { result ≡ is_set_sound (map shape_of structures.now) (shape_of s.now) }
{
    let items = items_at(structures, s.set);
    let parts = s.parts.as_slice();
    is_data_set(structures, s.set)
        && is_set_placed(structures, s)
        && is_populated(s)
        && s.form.is_some()
        && is_key_sound(items, parts)
        && (s.is_manual() || !parts.is_empty())
        && (s.duplicates || !parts.is_empty())
        && is_where_sound(items, s)
        && s.items.as_slice().is_empty()
        && s.groups.as_slice().is_empty()
}
