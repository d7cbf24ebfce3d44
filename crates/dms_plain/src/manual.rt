ghost use Rattle.std.specs.Prelude.{◌≡◌, [], false, filter, length, OnErr, OnOk, IfOk};
ghost use Rattle.std.specs.List.{list_any};
ghost use Rattle.dms_desc.specs.Sorted.{place_in};
ghost use Rattle.dms_model.specs.Members.{names};
ghost use Rattle.dms_model.specs.Uses.{entry_before, entry_of, is_in_subset, is_not_entry};
ghost use Rattle.dms_model.specs.Valid.{AreRising, entry_cmp};
ghost use Rattle.dms_plain.specs.Moves.{IsEntryAt, before_moves, moved_back, stands, with_entry, without_entry};

use crate::entry::Entry;
use dms_base::Memory;
use std::alloc::Global;
use std::cmp::Ordering;
use std::marker::Model;

/// An entry that was made, or taken out.
#[derive(Drop)]
pub struct EntryMove {
    pub subset: u16,
    pub owner: u64,
    pub number: u64,
    /// Whether it was made.
    pub entered: bool,
}

/// The entries of manual subsets in order, with what was moved since the last quiet point.
#[derive(Drop)]
pub struct Manual {
    kept: Vec<Entry>,
    moves: Vec<EntryMove>,
}

impl Model for Manual {
    ghost use Rattle.dms_model.specs.Valid.{AreRising};
    ghost use Rattle.dms_plain.specs.Entered.{Entered};
    ghost use Rattle.dms_plain.specs.Moves.{before_moves};

    ghost Value = { Entered };

    ghost view = { λ m. record { entries = m.kept.items; mark = before_moves m.moves.items m.kept.items } };

    ghost invariant = { λ m. AreRising m.kept.items };
}

/// Where an entry stands among entries in order, or Err with where it would be.
fn find(kept: &[Entry], subset: u16, owner: u64, number: u64) -> Result<usize, usize>
    requires { AreRising kept.now }
    ensures { IsEntryAt subset owner number kept.now result }
{
    kept.binary_search_by(
        |entry| -> Ordering
            ensures { result ≡ entry_cmp entry.now (entry_of subset owner number) }
        { entry.order(subset, owner, number) },
    )
}

/// Makes an entry in its place, where it doesn't stand. Answers Err where memory is refused.
fn insert(kept: &mut Vec<Entry>, subset: u16, owner: u64, number: u64) -> Result<(), Memory>
    requires { AreRising kept.old.items }
    ensures rising { AreRising kept.new.items }
    ensures ok { OnOk result (kept.new.items ≡ with_entry subset owner number kept.old.items) }
    ensures err { OnErr result (kept.new.items ≡ kept.old.items) }
{
    match find(kept.as_slice(), subset, owner, number) {
        Ok(_) => Ok(()),
        Err(i) => {
            kept.insert(i, Entry::new(subset, owner, number))?;
            Ok(())
        }
    }
}

/// Takes an entry out, if it stands.
fn remove(kept: &mut Vec<Entry>, subset: u16, owner: u64, number: u64)
    requires { AreRising kept.old.items }
    ensures rising { AreRising kept.new.items }
    ensures left { kept.new.items ≡ without_entry subset owner number kept.old.items }
{
    kept.retain(
        |entry| -> bool
            ensures { result ≡ is_not_entry subset owner number entry.now }
        { !entry.names(subset, owner, number) },
    );
}

/// Takes one move back.
fn move_back(kept: &mut Vec<Entry>, was: EntryMove) -> Result<(), Memory>
    requires { AreRising kept.old.items }
    ensures rising { AreRising kept.new.items }
    ensures back { OnOk result (kept.new.items ≡ moved_back was kept.old.items) }
{
    if was.entered {
        remove(kept, was.subset, was.owner, was.number);
        return Ok(());
    }
    insert(kept, was.subset, was.owner, was.number)
}

/// Takes all moves back, the newest first. Answers Err where memory is refused.
fn move_all_back(kept: &mut Vec<Entry>, moves: &mut Vec<EntryMove>) -> Result<(), Memory>
    requires { AreRising kept.old.items }
    ensures rising { AreRising kept.new.items }
    ensures back { OnOk result (kept.new.items ≡ before_moves moves.old.items kept.old.items) }
    ensures moves { OnOk result (moves.new.items ≡ []) }
{
    for _turn in 0..moves.len() {
        match moves.pop() {
            None => return Ok(()),
            Some(was) => move_back(kept, was)?,
        }
    }
    Ok(())
}

/// How many of these entries, which are in order, are those of a subset.
fn count_of(kept: &[Entry], subset: u16) -> usize
    requires { AreRising kept.now }
    ensures { result ≡ length (filter (is_in_subset subset) kept.now) }
{
    let from = kept.partition_point(|entry| entry.subset() < subset);
    let end = kept.partition_point(|entry| entry.subset() <= subset);
    end - from
}

impl Manual {
    /// No entry.
    pub fn new(alloc: Global) -> Manual
        ensures entries { result.entries ≡ [] }
        ensures mark { result.mark ≡ [] }
    {
        Manual {
            kept: Vec::new(alloc),
            moves: Vec::new(alloc),
        }
    }

    /// All entries, in their order.
    pub fn entries(&self) -> &[Entry]
        ensures { result.now ≡ self.now.entries }
    {
        self.kept.as_slice()
    }

    /// Whether an entry stands.
    pub fn has(&self, subset: u16, owner: u64, number: u64) -> bool
        ensures { result ≡ list_any (names subset owner number) self.now.entries }
    {
        find(self.kept.as_slice(), subset, owner, number).is_ok()
    }

    /// How many entries a subset has.
    pub fn count(&self, subset: u16) -> usize
        ensures { result ≡ length (filter (is_in_subset subset) self.now.entries) }
    {
        count_of(self.kept.as_slice(), subset)
    }

    /// Makes an entry that doesn't stand. Answers Err where memory is refused.
    pub fn enter(&mut self, subset: u16, owner: u64, number: u64) -> Result<(), Memory>
        requires { list_any (names subset owner number) self.old.entries ≡ false }
        ensures ok { OnOk result (self.new.entries ≡ place_in entry_before (entry_of subset owner number) self.old.entries) }
        ensures err { OnErr result (self.new.entries ≡ self.old.entries) }
        ensures mark { self.new.mark ≡ self.old.mark }
    {
        self.moves.push(EntryMove {
            subset,
            owner,
            number,
            entered: true,
        })?;
        match insert(&mut self.kept, subset, owner, number) {
            Ok(()) => Ok(()),
            Err(e) => {
                let _was = self.moves.pop();
                Err(e)
            }
        }
    }

    /// Takes an entry out, and answers whether it stood. Answers Err where memory is refused.
    pub fn leave(&mut self, subset: u16, owner: u64, number: u64) -> Result<bool, Memory>
        ensures stood { IfOk result (λ b. b ≡ list_any (names subset owner number) self.old.entries) }
        ensures ok { OnOk result (self.new.entries ≡ filter (is_not_entry subset owner number) self.old.entries) }
        ensures err { OnErr result (self.new.entries ≡ self.old.entries) }
        ensures mark { self.new.mark ≡ self.old.mark }
    {
        if !self.has(subset, owner, number) {
            return Ok(false);
        }
        self.moves.push(EntryMove {
            subset,
            owner,
            number,
            entered: false,
        })?;
        remove(&mut self.kept, subset, owner, number);
        Ok(true)
    }

    /// Forgets what was moved.
    pub fn settle(&mut self)
        ensures entries { self.new.entries ≡ self.old.entries }
        ensures mark { self.new.mark ≡ self.old.entries }
    {
        self.moves.clear();
    }

    /// Takes all moves back. Answers Err where memory is refused; nothing is promised of the entries then.
    pub fn take_back(&mut self) -> Result<(), Memory>
        ensures entries { OnOk result (self.new.entries ≡ self.old.mark) }
        ensures mark { OnOk result (self.new.mark ≡ self.old.mark) }
    {
        move_all_back(&mut self.kept, &mut self.moves)
    }
}
