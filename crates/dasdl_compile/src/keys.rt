ghost use Rattle.std.specs.Prelude.{◌≡◌};
ghost use Rattle.dasdl_compile.specs.Answers.{CompileGives};
ghost use Rattle.dasdl_compile.specs.Keys.{is_part, key_item_at, run_items, run_of, part_at, short_key, key_at};
ghost use Rattle.dasdl_compile.specs.Tables.{no_title};

use crate::draft::Draft;
use crate::fault::CompileFault;
use crate::steps::{Stepwise, all_steps};
use dasdl_phrases::PartDecl;
use dms_base::Name;
use dms_desc::{Item, KeyPart, KeyParts, after_item, group_named, item_named, item_width};
use std::alloc::Global;

/// The parts that a key may have.
const PARTS: usize = 16;

/// The bytes that a key may have.
const KEY_BYTES: u32 = 96;

/// The items that a part of a key names: so many, from the first on, counted from 1.
#[derive(Clone, Copy, Debug, PartialEq, Eq)]
pub struct Run {
    pub first: u8,
    pub count: u8,
    pub descending: bool,
}

/// A key as far as it was judged: its parts and their bytes, and the number of the item that is looked at next.
#[derive(Drop)]
pub struct KeySoFar {
    pub next: u8,
    pub bytes: u32,
    pub parts: KeyParts,
}

/// Whether an item is among the parts.
#[tactic(auto, unfolding(crate::specs::Keys::is_part))]
fn is_part(parts: &[KeyPart], number: u8) -> bool
    ensures { result ≡ is_part number parts.now }
{
    for part in parts {
        if part.item == number {
            return true;
        }
    }
    false
}

/// The items of a run.
fn run_items(run: Run, items: &[Item]) -> &[Item]
    ensures { result.now ≡ run_items run items.now }
{
    let before = usize::from(run.first).saturating_sub(1).min(items.len());
    let rest = &items[before..];
    &rest[..usize::from(run.count).min(rest.len())]
}

impl Stepwise<Run, Item> for KeySoFar {
    ghost step_at = { key_item_at };

    ghost fixed = { no_title };

    #[tactic(auto, unfolding(crate::specs::Keys::key_item_at))]
    fn step(&mut self, _alloc: Global, run: &Run, item: &Item) -> Result<(), CompileFault> {
        let number = self.next;
        if item.is_link() || is_part(self.parts.as_slice(), number) {
            return Err(CompileFault::KeyItem(item.name));
        }
        self.parts.push(KeyPart {
            item: number,
            descending: run.descending,
        })?;
        self.bytes = self.bytes.saturating_add(item_width(item.kind));
        self.next = after_item(number);
        Ok(())
    }
}

/// The items that a part names.
#[tactic(auto, unfolding(crate::specs::Keys::run_of))]
fn run_of(draft: &Draft, part: &PartDecl) -> Result<Run, CompileFault>
    ensures { CompileGives result (run_of draft.now part.now) }
{
    let item = item_named(draft.items.as_slice(), &part.name);
    let group = group_named(draft.groups.as_slice(), &part.name);
    let descending = part.descending;
    match (item, group) {
        (None, None) => Err(CompileFault::Unknown(part.name)),
        (Some(found), None) => Ok(Run {
            first: found.number,
            count: 1,
            descending,
        }),
        (None, Some(group)) => Ok(Run {
            first: group.first,
            count: group.count,
            descending,
        }),
        (Some(found), Some(group)) => {
            if group.first <= found.number {
                return Ok(Run {
                    first: group.first,
                    count: group.count,
                    descending,
                });
            }
            Ok(Run {
                first: found.number,
                count: 1,
                descending,
            })
        }
    }
}

impl Stepwise<Draft, PartDecl> for KeySoFar {
    ghost step_at = { part_at };

    ghost fixed = { no_title };

    #[tactic(auto, unfolding(crate::specs::Keys::part_at))]
    fn step(
        &mut self,
        alloc: Global,
        data_set: &Draft,
        part: &PartDecl,
    ) -> Result<(), CompileFault> {
        let run = run_of(data_set, part)?;
        self.next = run.first;
        all_steps(self, alloc, &run, run_items(run, data_set.items.as_slice()))
    }
}

/// The parts, where they are few enough and not too long together.
#[tactic(auto, unfolding(crate::specs::Keys::short_key))]
fn short_key(name: &Name, key: KeySoFar) -> Result<KeyParts, CompileFault>
    ensures { CompileGives result (short_key name.now key) }
{
    if key.parts.as_slice().len() > PARTS {
        return Err(CompileFault::KeyItem(*name));
    }
    if key.bytes > KEY_BYTES {
        return Err(CompileFault::KeyLong(key.bytes));
    }
    Ok(key.parts)
}

/// The key of the set of this name over a data set, at most 16 parts of 96 bytes together, or its first fault:
/// Unknown with a name that is no item or group, KeyItem with that of a link or of an item that stands twice, then
/// KeyItem with the set's name where there are more parts, and KeyLong with the bytes where there are more.
#[tactic(auto, unfolding(crate::specs::Keys::key_at))]
pub fn key_at(
    alloc: Global,
    name: &Name,
    data_set: &Draft,
    parts: &[PartDecl],
) -> Result<KeyParts, CompileFault>
    ensures { CompileGives result (key_at name.now data_set.now parts.now) }
{
    let mut key = KeySoFar {
        next: 1,
        bytes: 0,
        parts: KeyParts::new(alloc),
    };
    all_steps(&mut key, alloc, data_set, parts)?;
    short_key(name, key)
}
