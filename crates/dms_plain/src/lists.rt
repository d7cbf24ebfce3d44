ghost use Rattle.std.specs.Prelude.{◌≡◌, ◌==◌, ◌&&◌, ◌||◌, ◌∷◌, ◌++◌, [], map, not, Some, IfOk, OnOk};
ghost use Rattle.std.specs.FinMap.{get};
ghost use Rattle.std.specs.List.Sorted.{IsStrictlySortedBy};
ghost use Rattle.std.specs.Option.{option_copied};
ghost use Rattle.dms_desc.specs.Kinds.{over};
ghost use Rattle.dms_desc.specs.Shape.{as_described, shape_of};
ghost use Rattle.dms_plain.specs.declared.member.Member.{Member};
ghost use Rattle.dms_plain.specs.Linkers.{linkers_in};
ghost use Rattle.dms_plain.specs.Listed.{AreLists, IsListOf, has, is_listed, is_member, member_cmp};
ghost use Rattle.dms_plain.specs.Removed.{removed_from};
ghost use Rattle.dms_plain.specs.Rows.{IsInOrder, entries_of, records_in, restore};

use crate::members::Members;
use crate::rows::{RecordRow, look};
use dms_base::{Memory, Value};
use dms_desc::{Description, Record, Structure};
use std::alloc::Global;

/// Whether a structure's list has records with these values. Entries of manual subsets are kept elsewhere.
fn is_listed(s: &Structure, values: &[Value]) -> bool
    ensures { result ≡ is_listed (shape_of s.now) values.now }
{
    !s.is_manual() && s.takes(values)
}

/// Adds a record to a list, where the structure takes it. Answers Err where memory is refused.
fn add_record(
    alloc: Global,
    s: &Structure,
    members: &mut Members,
    number: u64,
    rec: &Record,
) -> Result<(), Memory>
    requires { IsStrictlySortedBy (member_cmp s.now.parts) members.old }
    ensures rising { IsStrictlySortedBy (member_cmp s.now.parts) members.new }
    ensures has { OnOk result ((x : Member) → has s.now.parts x members.new ≡ (is_member (shape_of s.now) number (Some rec.now) x || has s.now.parts x members.old)) }
{
    let values = rec.values.as_slice();
    if !is_listed(s, values) {
        return Ok(());
    }
    members.add(alloc, s.parts.as_slice(), rec.owner, values, number)
}

/// Takes a record out of a list, where it is in it.
fn remove_record(s: &Structure, members: &mut Members, number: u64, rec: &Record)
    requires { IsStrictlySortedBy (member_cmp s.now.parts) members.old }
    ensures rising { IsStrictlySortedBy (member_cmp s.now.parts) members.new }
    ensures has { (x : Member) → has s.now.parts x members.new ≡ (not (is_member (shape_of s.now) number (Some rec.now) x) && has s.now.parts x members.old) }
{
    let values = rec.values.as_slice();
    if is_listed(s, values) {
        members.remove(s.parts.as_slice(), rec.owner, values, number);
    }
}

/// The same of what stands under a number, if anything.
fn remove_old(s: &Structure, members: &mut Members, number: u64, old: Option<&Record>)
    requires { IsStrictlySortedBy (member_cmp s.now.parts) members.old }
    ensures rising { IsStrictlySortedBy (member_cmp s.now.parts) members.new }
    ensures has { (x : Member) → has s.now.parts x members.new ≡ (not (is_member (shape_of s.now) number (option_copied old.entry) x) && has s.now.parts x members.old) }
{
    if let Some(rec) = old {
        remove_record(s, members, number, rec);
    }
}

/// Puts one record in the place of another in a list; there may be none. Answers Err where memory is refused.
fn change(
    alloc: Global,
    s: &Structure,
    members: &mut Members,
    number: u64,
    old: Option<&Record>,
    new: Option<&Record>,
) -> Result<(), Memory>
    requires { IsStrictlySortedBy (member_cmp s.now.parts) members.old }
    ensures rising { IsStrictlySortedBy (member_cmp s.now.parts) members.new }
    ensures has { OnOk result ((x : Member) → has s.now.parts x members.new ≡ (is_member (shape_of s.now) number (option_copied new.entry) x || (not (is_member (shape_of s.now) number (option_copied old.entry) x) && has s.now.parts x members.old))) }
{
    remove_old(s, members, number, old);
    match new {
        None => Ok(()),
        Some(rec) => add_record(alloc, s, members, number, rec),
    }
}

/// Makes the list of a structure that of the records in which one is changed, is new or goes. Answers Err where memory is refused.
fn follow_one(
    alloc: Global,
    s: &Structure,
    members: &mut Members,
    rows: &[RecordRow],
    set: u16,
    number: u64,
    new: Option<&Record>,
) -> Result<(), Memory>
    requires in_order { IsInOrder rows.now }
    requires listed { IsListOf (shape_of s.now) members.old (get (records_in rows.now)) }
    ensures { OnOk result (IsListOf (shape_of s.now) members.new (get (restore (set, number) (option_copied new.entry) (records_in rows.now)))) }
{
    if s.over() != set {
        return Ok(());
    }
    change(alloc, s, members, number, look(rows, set, number), new)
}

/// Makes all lists those of the records in which one is changed. Answers Err where memory is refused.
fn follow_all(
    alloc: Global,
    structures: &[Structure],
    lists: &mut Vec<Members>,
    rows: &[RecordRow],
    set: u16,
    number: u64,
    new: Option<&Record>,
) -> Result<(), Memory>
    requires in_order { IsInOrder rows.now }
    requires listed { AreLists (map shape_of structures.now) lists.old.items (records_in rows.now) }
    ensures { OnOk result (AreLists (map shape_of structures.now) lists.new.items (restore (set, number) (option_copied new.entry) (records_in rows.now))) }
{
    for i in 0..lists.len() {
        follow_one(alloc, &structures[i], &mut lists[i], rows, set, number, new)?;
    }
    Ok(())
}

/// Makes all lists those of the records in which one is changed. Where memory is refused no list is kept any more.
pub fn follow(
    alloc: Global,
    structures: &[Structure],
    lists: &mut Vec<Members>,
    rows: &[RecordRow],
    set: u16,
    number: u64,
    new: Option<&Record>,
)
    requires in_order { IsInOrder rows.now }
    requires listed { AreLists (map shape_of structures.now) lists.old.items (records_in rows.now) }
    ensures { AreLists (map shape_of structures.now) lists.new.items (restore (set, number) (option_copied new.entry) (records_in rows.now)) }
{
    match follow_all(alloc, structures, lists, rows, set, number, new) {
        Ok(()) => {}
        Err(_) => lists.clear(),
    }
}

/// Makes all lists those of the records of which one is removed, with the links to it. Where it has links to it no list is kept any more.
pub fn follow_removal(
    alloc: Global,
    desc: &Description,
    lists: &mut Vec<Members>,
    rows: &[RecordRow],
    set: u16,
    number: u64,
    places: &[(u16, u64)],
)
    requires in_order { IsInOrder rows.now }
    requires listed { AreLists (as_described desc.now).structures lists.old.items (records_in rows.now) }
    requires places { places.now ≡ linkers_in (as_described desc.now) set number (entries_of rows.now) ++ (set, number) ∷ [] }
    ensures { AreLists (as_described desc.now).structures lists.new.items (removed_from (as_described desc.now) set number (records_in rows.now)) }
{
    if places.len() == 1 {
        follow(
            alloc,
            desc.structures.as_slice(),
            lists,
            rows,
            set,
            number,
            None,
        );
    } else {
        lists.clear();
    }
}

/// Adds the record of a row to a list, where it is one of the structure's data set. Answers Err where memory is refused.
fn add_row(
    alloc: Global,
    s: &Structure,
    members: &mut Members,
    row: &RecordRow,
) -> Result<(), Memory>
    requires { IsStrictlySortedBy (member_cmp s.now.parts) members.old }
    ensures rising { IsStrictlySortedBy (member_cmp s.now.parts) members.new }
    ensures has { OnOk result ((x : Member) → has s.now.parts x members.new ≡ ((over (shape_of s.now) == row.now.set && is_member (shape_of s.now) row.now.number (Some row.now.rec) x) || has s.now.parts x members.old)) }
{
    if s.over() != row.set {
        return Ok(());
    }
    add_record(alloc, s, members, row.number, &row.rec)
}

/// The list of a structure. Answers Err where memory is refused.
fn list_of(alloc: Global, s: &Structure, rows: &[RecordRow]) -> Result<Members, Memory>
    requires { IsInOrder rows.now }
    ensures { IfOk result (λ ms. IsListOf (shape_of s.now) ms (get (records_in rows.now))) }
{
    let mut members = Members::new(alloc);
    for row in rows {
        add_row(alloc, s, &mut members, row)?;
    }
    Ok(members)
}

/// Makes the lists that aren't kept, as far as there is memory for them.
pub fn make(alloc: Global, structures: &[Structure], lists: &mut Vec<Members>, rows: &[RecordRow])
    requires in_order { IsInOrder rows.now }
    requires listed { AreLists (map shape_of structures.now) lists.old.items (records_in rows.now) }
    ensures { AreLists (map shape_of structures.now) lists.new.items (records_in rows.now) }
{
    for i in lists.len()..structures.len() {
        match list_of(alloc, &structures[i], rows) {
            Err(_) => return,
            Ok(members) => match lists.push(members) {
                Err(_) => return,
                Ok(()) => {}
            },
        }
    }
}
