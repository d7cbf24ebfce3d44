ghost use Rattle.std.specs.Prelude.{◌≡◌, ◌+◌, map, min};
ghost use Rattle.std.specs.List.{list_all};
ghost use Rattle.dms_base.specs.Name.{is_name};
ghost use Rattle.dms_base.specs.Spelling.{is_kind};
ghost use Rattle.dms_desc.specs.Shape.{shape_of};
ghost use Rattle.dms_desc_bytes.specs.Lists.{apart, total};
ghost use Rattle.dms_desc.specs.Conds.{is_null};
ghost use Rattle.dms_desc_bytes.specs.Members.{is_plain, is_link_sound, points_well, is_item_sound, items_differ, groups_differ, is_free_of, members_differ, items_in_group, is_no_link, is_group_sound, groups_follow, counted_one};

use crate::finding::{is_data_set, owner_of};
use dms_base::{ItemKind, Name, Value, fits, has_printable, is_kind, trim_spaces};
use dms_desc::{Group, Item, Structure, is_null};

/// Whether these bytes are a name.
pub fn is_name(name: &Name) -> bool
    ensures { result ≡ is_name name.now }
{
    Name::read(name.bytes()).is_some()
}

/// Whether a text has printable characters and no space at its end.
pub fn is_plain(value: &Value) -> bool
    ensures { result ≡ is_plain value.now }
{
    match value {
        Value::Text(text) => has_printable(text.bytes())
            && trim_spaces(text.bytes()) == text.bytes(),
        _ => true,
    }
}

#[tactic(auto, unfolding(crate::specs::Members::is_link_sound))]
fn is_link_sound(structures: &[Structure], target: u16, item: &Item) -> bool
    ensures { result ≡ is_link_sound (map shape_of structures.now) target item.now }
{
    is_data_set(structures, target)
        && owner_of(structures, target) == 0
        && !item.required
        && is_null(&item.initial)
}

fn points_well(structures: &[Structure], item: &Item) -> bool
    ensures { result ≡ points_well (map shape_of structures.now) item.now.kind item.now }
{
    match item.kind {
        ItemKind::Link(target, _) => is_link_sound(structures, target, item),
        _ => true,
    }
}

#[tactic(auto, unfolding(crate::specs::Members::is_item_sound))]
fn is_item_sound(structures: &[Structure], item: &Item) -> bool
    ensures { result ≡ is_item_sound (map shape_of structures.now) item.now }
{
    is_name(&item.name)
        && is_kind(&item.kind)
        && fits(&item.kind, &item.initial)
        && is_plain(&item.initial)
        && points_well(structures, item)
}

/// Whether each item and link is sound.
pub fn are_items_sound(structures: &[Structure], items: &[Item]) -> bool
    ensures { result ≡ list_all (is_item_sound (map shape_of structures.now)) items.now }
{
    items.iter().all(|item| is_item_sound(structures, item))
}

fn is_new_item(item: &Item, others: &[Item]) -> bool
    ensures { result ≡ list_all (items_differ item.now) others.now }
{
    others.iter().all(|other| !item.name.is(&other.name))
}

fn items_differ(items: &[Item]) -> bool
    ensures { result ≡ apart items_differ items.now }
{
    for (i, item) in items.iter().enumerate() {
        if !is_new_item(item, &items[i + 1..]) {
            return false;
        }
    }
    true
}

fn is_new_group(group: &Group, others: &[Group]) -> bool
    ensures { result ≡ list_all (groups_differ group.now) others.now }
{
    others.iter().all(|other| !group.name.is(&other.name))
}

fn groups_differ(groups: &[Group]) -> bool
    ensures { result ≡ apart groups_differ groups.now }
{
    for (i, group) in groups.iter().enumerate() {
        if !is_new_group(group, &groups[i + 1..]) {
            return false;
        }
    }
    true
}

fn is_free_of(items: &[Item], group: &Group) -> bool
    ensures { result ≡ is_free_of items.now group.now }
{
    items.iter().all(|item| !item.name.is(&group.name))
}

fn are_free_of(items: &[Item], groups: &[Group]) -> bool
    ensures { result ≡ list_all (is_free_of items.now) groups.now }
{
    groups.iter().all(|group| is_free_of(items, group))
}

/// Whether no name stands twice.
#[tactic(auto, unfolding(crate::specs::Members::members_differ))]
pub fn members_differ(items: &[Item], groups: &[Group]) -> bool
    ensures { result ≡ members_differ items.now groups.now }
{
    items_differ(items) && groups_differ(groups) && are_free_of(items, groups)
}

/// Whether no item of a group is a link.
fn lacks_links(items: &[Item], group: &Group) -> bool
    ensures { result ≡ list_all is_no_link (items_in_group items.now group.now) }
{
    items
        .iter()
        .skip((group.first as usize).saturating_sub(1))
        .take(group.count as usize)
        .all(|item| !item.is_link())
}

#[tactic(auto, unfolding(crate::specs::Members::is_group_sound))]
fn is_group_sound(items: &[Item], group: &Group) -> bool
    ensures { result ≡ is_group_sound items.now group.now }
{
    is_name(&group.name)
        && 1 <= group.first
        && 1 <= group.count
        && group.first as usize + group.count as usize <= items.len() + 1
        && lacks_links(items, group)
}

/// Whether each group is sound.
pub fn are_groups_sound(items: &[Item], groups: &[Group]) -> bool
    ensures { result ≡ list_all (is_group_sound items.now) groups.now }
{
    groups.iter().all(|group| is_group_sound(items, group))
}

fn is_before(group: &Group, others: &[Group]) -> bool
    ensures { result ≡ list_all (groups_follow group.now) others.now }
{
    others.iter().all(|other| u16::from(group.first) + u16::from(group.count)
        <= u16::from(other.first))
}

/// Whether the groups stand in the order of their items, and share none.
pub fn groups_follow(groups: &[Group]) -> bool
    ensures { result ≡ apart groups_follow groups.now }
{
    for (i, group) in groups.iter().enumerate() {
        if !is_before(group, &groups[i + 1..]) {
            return false;
        }
    }
    true
}

fn counted_one(kind: &ItemKind) -> u32
    ensures { result ≡ counted_one kind.now }
{
    match kind {
        ItemKind::Link(_, counted) => u32::from(*counted),
        _ => 0,
    }
}

/// The counted links among these; the count stops at 2^32 - 1.
pub fn counted_links(items: &[Item]) -> u32
    ensures { result ≡ min (total (λ i. counted_one i.kind) items.now) 4294967295 }
{
    let mut count = 0u32;
    for item in items {
        count = count.saturating_add(counted_one(&item.kind));
    }
    count
}
