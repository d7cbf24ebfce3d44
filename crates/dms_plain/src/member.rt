ghost use Rattle.std.specs.Prelude.{◌≡◌, IfOk};
ghost use Rattle.dms_plain.specs.Listed.{front_cmp, member_cmp, member_of};

use crate::keys::order_to_key;
use dms_base::{Memory, Value};
use dms_desc::{KeyPart, Values};
use dms_model::key_of;
use std::alloc::Global;
use std::cmp::Ordering;

/// A record in the list of a structure: its owner, its key there, and its number.
#[derive(Drop)]
pub struct Member {
    pub owner: u64,
    pub key: Values,
    pub number: u64,
}

/// The member that a record with these values is.
pub fn member_of(
    alloc: Global,
    parts: &[KeyPart],
    owner: u64,
    values: &[Value],
    number: u64,
) -> Result<Member, Memory>
    ensures { IfOk result (λ m. m ≡ member_of parts.now owner values.now number) }
{
    Ok(Member {
        owner,
        key: key_of(alloc, parts, values)?,
        number,
    })
}

/// How a member stands to a record of an owner with these values: by owner, then by key.
pub fn front_order(member: &Member, parts: &[KeyPart], owner: u64, values: &[Value]) -> Ordering
    ensures { result ≡ front_cmp parts.now member.now (member_of parts.now owner values.now 0) }
{
    let keys = order_to_key(parts, values, member.key.as_slice());
    member.owner.cmp(&owner).then(keys.reverse())
}

/// The same, and then by number.
pub fn order(
    member: &Member,
    parts: &[KeyPart],
    owner: u64,
    values: &[Value],
    number: u64,
) -> Ordering
    ensures { result ≡ member_cmp parts.now member.now (member_of parts.now owner values.now number) }
{
    front_order(member, parts, owner, values).then(member.number.cmp(&number))
}
