ghost use Rattle.std.specs.Prelude.{◌≡◌};
ghost use Rattle.dms_desc.specs.Shape.{tree_of};
ghost use Rattle.dasdl_compile.specs.Widths.{size_of, value_width, condition_width, items_width, groups_width, parts_width, data_set_width, set_width, with_structure, structures_width, description_width};

use crate::draft::Draft;
use dms_base::Value;
use dms_desc::{Cond, Group, Item, KeyPart};

/// The count of bytes, up to 2^32 - 1.
fn size_of(bytes: &[u8]) -> u32
    ensures { result ≡ size_of bytes.now }
{
    if bytes.len() >= 4_294_967_295 {
        return 4_294_967_295;
    }
    bytes.len() as u32
}

#[tactic(auto, unfolding(crate::specs::Widths::value_width))]
fn value_width(value: &Value) -> u32
    ensures { result ≡ value_width value.now }
{
    match value {
        Value::Null => 1,
        Value::Text(text) => 2u32.saturating_add(size_of(text.bytes())),
        Value::Number(_) => 9,
        Value::Bool(_) => 2,
        Value::Bits(_) => 9,
        Value::Link(_) => 9,
    }
}

#[tactic(auto, unfolding(crate::specs::Widths::condition_width))]
fn condition_width(cond: &Cond) -> u32
    ensures { result ≡ condition_width (tree_of cond.now) }
{
    match cond {
        Cond::Nothing => 1,
        Cond::Compare(_, _, value) => 3u32.saturating_add(value_width(value)),
        Cond::And(a, b) => 1u32
            .saturating_add(condition_width(a))
            .saturating_add(condition_width(b)),
        Cond::Or(a, b) => 1u32
            .saturating_add(condition_width(a))
            .saturating_add(condition_width(b)),
        Cond::Not(a) => 1u32.saturating_add(condition_width(a)),
    }
}

#[tactic(auto, unfolding(crate::specs::Widths::items_width))]
fn items_width(before: u32, items: &[Item]) -> u32
    ensures { result ≡ items_width before items.now }
{
    let mut width = before;
    for item in items {
        width = width
            .saturating_add(6)
            .saturating_add(size_of(item.name.bytes()))
            .saturating_add(value_width(&item.initial));
    }
    width
}

#[tactic(auto, unfolding(crate::specs::Widths::groups_width))]
fn groups_width(before: u32, groups: &[Group]) -> u32
    ensures { result ≡ groups_width before groups.now }
{
    let mut width = before;
    for group in groups {
        width = width
            .saturating_add(3)
            .saturating_add(size_of(group.name.bytes()));
    }
    width
}

#[tactic(auto, unfolding(crate::specs::Widths::parts_width))]
fn parts_width(before: u32, parts: &[KeyPart]) -> u32
    ensures { result ≡ parts_width before parts.now }
{
    let mut width = before;
    for _part in parts {
        width = width.saturating_add(2);
    }
    width
}

#[tactic(auto, unfolding(crate::specs::Widths::data_set_width))]
fn data_set_width(before: u32, draft: &Draft) -> u32
    ensures { result ≡ data_set_width before draft.now }
{
    let items = items_width(before.saturating_add(6), draft.items.as_slice());
    let groups = groups_width(items, draft.groups.as_slice());
    groups.saturating_add(condition_width(draft.cond.cond()))
}

#[tactic(auto, unfolding(crate::specs::Widths::set_width))]
fn set_width(before: u32, draft: &Draft) -> u32
    ensures { result ≡ set_width before draft.now }
{
    let parts = parts_width(before.saturating_add(9), draft.parts.as_slice());
    if draft.is_automatic() {
        return parts.saturating_add(condition_width(draft.cond.cond()));
    }
    parts
}

#[tactic(auto, unfolding(crate::specs::Widths::with_structure))]
fn with_structure(before: u32, draft: &Draft) -> u32
    ensures { result ≡ with_structure before draft.now }
{
    let head = before
        .saturating_add(4)
        .saturating_add(size_of(draft.name.bytes()));
    if draft.is_data_set() {
        return data_set_width(head, draft);
    }
    set_width(head, draft)
}

/// The bytes of the description of these structures; the count stops at 2^32 - 1.
#[tactic(auto, unfolding(crate::specs::Widths::structures_width))]
pub fn description_width(drafts: &[Draft]) -> u32
    ensures { result ≡ description_width drafts.now }
{
    let mut width = 18u32;
    for draft in drafts {
        width = with_structure(width, draft);
    }
    width
}
