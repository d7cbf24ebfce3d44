//! Whether a database may be given a new description.

ghost use Rattle.std.specs.Prelude.{◌≡◌, ◌+◌, ◌↔◌, IsTrue, drop, length, option_map};
ghost use Rattle.std.specs.Option.{MatchOption};
ghost use Rattle.dms_desc.specs.Lookups.{items_of, structure_of};
ghost use Rattle.dms_desc.specs.Shape.{as_described, shape_of};
ghost use Rattle.dms_desc.specs.Sorted.{first};
ghost use Rattle.dms_reorg.specs.RefusalLaws.{EachGrows, HasOneReason};
ghost use Rattle.dms_reorg.specs.Refusals.{AllGiven, AllStand, IsFirstChanged, IsFirstLacking, IsFirstRefusal, KeepsAudit, Stands, lacks_value};

use crate::comparing::keeps_structure;
use dms_base::Name;
use dms_desc::{Description, Item, Structure, is_null};
use dms_status::ReorgFault;

/// Whether a structure stands in that of the new description with the same number, which is one above this place.
fn stands(s: &Structure, new: &Description, place: usize) -> bool
    ensures { IsTrue result ↔ Stands (as_described new.now) (place + 1) (shape_of s.now) }
{
    match new.structures.as_slice().get(place) {
        None => false,
        Some(t) => keeps_structure(s, t),
    }
}

/// The name of the first structure that doesn't stand in that of the new description with the same number.
fn first_changed(old: &Description, new: &Description) -> Option<Name>
    ensures { MatchOption result (AllStand (as_described old.now) (as_described new.now)) (IsFirstChanged (as_described old.now) (as_described new.now)) }
{
    for (place, s) in old.structures.as_slice().iter().enumerate() {
        if !stands(s, new, place) {
            return Some(s.name);
        }
    }
    None
}

/// The name of the first of these items, behind the first so many, that is REQUIRED and begins as null.
fn first_without_value(items: &[Item], count: usize) -> Option<Name>
    ensures { result ≡ option_map (λ i. i.name) (first lacks_value (drop count items.now)) }
{
    if items.len() < count {
        return None;
    }
    let further = &items[count..];
    for item in further {
        if item.required && is_null(&item.initial) {
            return Some(item.name);
        }
    }
    None
}

/// The same of the further items of a structure, whose number is one above this place.
fn first_further(s: &Structure, new: &Description, place: usize) -> Option<Name>
    ensures { result ≡ option_map (λ i. i.name) (first lacks_value (drop (length s.now.items) (items_of (structure_of (as_described new.now) (place + 1))))) }
{
    match new.structures.as_slice().get(place) {
        None => None,
        Some(t) => first_without_value(t.items.as_slice(), s.items.as_slice().len()),
    }
}

/// The same of the further items of all structures.
fn first_needed(old: &Description, new: &Description) -> Option<Name>
    ensures { MatchOption result (AllGiven (as_described old.now) (as_described new.now)) (IsFirstLacking (as_described old.now) (as_described new.now)) }
{
    for (place, s) in old.structures.as_slice().iter().enumerate() {
        match first_further(s, new, place) {
            Some(name) => return Some(name),
            None => {}
        }
    }
    None
}

/// Whether both name the same BLOCKS and FILES of the audit trail.
fn keeps_audit(old: &Description, new: &Description) -> bool
    ensures { IsTrue result ↔ KeepsAudit (as_described old.now) (as_described new.now) }
{
    new.blocks == old.blocks && new.files == old.files
}

/// Why a database under a description may not be given a new one: the first reason, or none where it may. It takes no memory.
pub fn check(old: &Description, new: &Description) -> Option<ReorgFault>
    ensures { IsFirstRefusal (as_described old.now) (as_described new.now) result }
{
    if !keeps_audit(old, new) {
        return Some(ReorgFault::AuditTrail);
    }
    match first_changed(old, new) {
        Some(name) => Some(ReorgFault::Changed(name)),
        None => match first_needed(old, new) {
            Some(name) => Some(ReorgFault::Required(name)),
            None => None,
        },
    }
}

/// A law: two descriptions have one first reason, or none. Where a schema can have a description that extends another one, each structure of the other one
/// stands in it, and is widened by the initial values of its further items.
pub fn refusal_law()
    ensures one { HasOneReason }
    ensures grows { EachGrows }
{}
