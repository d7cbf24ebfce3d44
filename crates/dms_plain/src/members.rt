ghost use Rattle.std.specs.Prelude.{◌≡◌, ◌&&◌, ◌||◌, [], not, slice_get, OnOk};
ghost use Rattle.std.specs.List.Sorted.{IsStrictlySortedBy};
ghost use Rattle.std.specs.Ordering.{is_eq, is_lt};
ghost use Rattle.dms_plain.specs.declared.member.Member.{Member};
ghost use Rattle.dms_plain.specs.Listed.{IsFront, IsMemberAt, front_cmp, has, has_other, is_other_in, member_cmp, member_of};

use crate::clash::is_other;
use crate::member::{self, Member};
use dms_base::{Memory, Value};
use dms_desc::KeyPart;
use std::alloc::Global;
use std::cmp::Ordering;
use std::marker::Model;

/// Members in the order of their owners, keys and numbers.
#[derive(Drop)]
pub struct Members {
    kept: Vec<Member>,
}

impl Model for Members {
    ghost use Rattle.std.specs.Prelude.{List};
    ghost use Rattle.dms_plain.specs.declared.member.Member.{Member};

    ghost Value = { List Member };

    ghost view = { λ m. m.kept.items };
}

/// Where a member stands, or Err with where it would be.
fn find(
    kept: &[Member],
    parts: &[KeyPart],
    owner: u64,
    values: &[Value],
    number: u64,
) -> Result<usize, usize>
    requires { IsStrictlySortedBy (member_cmp parts.now) kept.now }
    ensures { IsMemberAt parts.now (member_of parts.now owner values.now number) kept.now result }
{
    kept.binary_search_by(
        |m| -> Ordering
            ensures { result ≡ member_cmp parts.entry.now m.now (member_of parts.entry.now owner values.entry.now number) }
        { member::order(m, parts, owner, values, number) },
    )
}

/// Whether another record than the one with the number stands at a place, with an owner and a key equal to that of these values.
fn is_other_at(
    kept: &[Member],
    i: usize,
    parts: &[KeyPart],
    number: Option<u64>,
    owner: u64,
    values: &[Value],
) -> bool
    ensures { result ≡ is_other_in parts.now number (member_of parts.now owner values.now 0) (slice_get kept.now i) }
{
    match kept.get(i) {
        None => false,
        Some(m) => {
            member::front_order(m, parts, owner, values).is_eq() && is_other(number, m.number)
        }
    }
}

/// Where the first member that isn't before an owner's key stands.
fn front_of(kept: &[Member], parts: &[KeyPart], owner: u64, values: &[Value]) -> usize
    requires { IsStrictlySortedBy (member_cmp parts.now) kept.now }
    ensures { IsFront parts.now (member_of parts.now owner values.now 0) kept.now result }
{
    kept.partition_point(
        |m| -> bool
            ensures { result ≡ is_lt (front_cmp parts.entry.now m.now (member_of parts.entry.now owner values.entry.now 0)) }
        { member::front_order(m, parts, owner, values).is_lt() },
    )
}

/// Adds a member, where it isn't there. Answers Err where memory is refused.
fn add(
    kept: &mut Vec<Member>,
    alloc: Global,
    parts: &[KeyPart],
    owner: u64,
    values: &[Value],
    number: u64,
) -> Result<(), Memory>
    requires { IsStrictlySortedBy (member_cmp parts.now) kept.old.items }
    ensures rising { IsStrictlySortedBy (member_cmp parts.now) kept.new.items }
    ensures has { OnOk result ((x : Member) → has parts.now x kept.new.items ≡ (is_eq (member_cmp parts.now (member_of parts.now owner values.now number) x) || has parts.now x kept.old.items)) }
{
    match find(kept.as_slice(), parts, owner, values, number) {
        Ok(_) => Ok(()),
        Err(i) => {
            let made = member::member_of(alloc, parts, owner, values, number)?;
            kept.insert(i, made)?;
            Ok(())
        }
    }
}

/// Takes a member out, if it is there.
fn remove(kept: &mut Vec<Member>, parts: &[KeyPart], owner: u64, values: &[Value], number: u64)
    requires { IsStrictlySortedBy (member_cmp parts.now) kept.old.items }
    ensures rising { IsStrictlySortedBy (member_cmp parts.now) kept.new.items }
    ensures has { (x : Member) → has parts.now x kept.new.items ≡ (not (is_eq (member_cmp parts.now (member_of parts.now owner values.now number) x)) && has parts.now x kept.old.items) }
{
    match find(kept.as_slice(), parts, owner, values, number) {
        Ok(i) => {
            let _member = kept.remove(i);
        }
        Err(_) => {}
    }
}

/// Whether another record than the one with the number has an owner and a key equal to that of these values. It is the first one
/// that isn't before them, or the next: members with one key have different numbers.
fn has_other(
    kept: &[Member],
    parts: &[KeyPart],
    number: Option<u64>,
    owner: u64,
    values: &[Value],
) -> bool
    requires { IsStrictlySortedBy (member_cmp parts.now) kept.now }
    ensures { result ≡ has_other parts.now number (member_of parts.now owner values.now 0) kept.now }
{
    let i = front_of(kept, parts, owner, values);
    is_other_at(kept, i, parts, number, owner, values)
        || (i < kept.len() && is_other_at(kept, i + 1, parts, number, owner, values))
}

impl Members {
    /// No member.
    pub fn new(alloc: Global) -> Members
        ensures { result ≡ [] }
    {
        Members {
            kept: Vec::new(alloc),
        }
    }

    /// Adds a member, where it isn't there. Answers Err where memory is refused.
    pub fn add(
        &mut self,
        alloc: Global,
        parts: &[KeyPart],
        owner: u64,
        values: &[Value],
        number: u64,
    ) -> Result<(), Memory>
        requires { IsStrictlySortedBy (member_cmp parts.now) self.old }
        ensures rising { IsStrictlySortedBy (member_cmp parts.now) self.new }
        ensures has { OnOk result ((x : Member) → has parts.now x self.new ≡ (is_eq (member_cmp parts.now (member_of parts.now owner values.now number) x) || has parts.now x self.old)) }
    {
        add(&mut self.kept, alloc, parts, owner, values, number)
    }

    /// Takes a member out, if it is there.
    pub fn remove(&mut self, parts: &[KeyPart], owner: u64, values: &[Value], number: u64)
        requires { IsStrictlySortedBy (member_cmp parts.now) self.old }
        ensures rising { IsStrictlySortedBy (member_cmp parts.now) self.new }
        ensures has { (x : Member) → has parts.now x self.new ≡ (not (is_eq (member_cmp parts.now (member_of parts.now owner values.now number) x)) && has parts.now x self.old) }
    {
        remove(&mut self.kept, parts, owner, values, number);
    }

    /// Whether another record than the one with the number has an owner and a key equal to that of these values.
    pub fn has_other(
        &self,
        parts: &[KeyPart],
        number: Option<u64>,
        owner: u64,
        values: &[Value],
    ) -> bool
        requires { IsStrictlySortedBy (member_cmp parts.now) self.now }
        ensures { result ≡ has_other parts.now number (member_of parts.now owner values.now 0) self.now }
    {
        has_other(self.kept.as_slice(), parts, number, owner, values)
    }
}
