ghost use Rattle.std.specs.Prelude.{◌≡◌, ◌^◌, ◌<◌, ℕ, List, None, Some};
ghost use Rattle.std.specs.FinMap.{get};
ghost use Rattle.std.specs.declared.option.Option.{Option};
ghost use Rattle.dms_desc.specs.Kinds.{over};
ghost use Rattle.dms_desc.specs.Shape.{Shape, Described};
ghost use Rattle.dms_desc.specs.declared.bound.Bound.{Bound};
ghost use Rattle.dms_desc.specs.declared.record.Record.{Record};
ghost use Rattle.dms_model.specs.Db.{Db};
ghost use Rattle.dms_model.specs.Members.{first_member, last_member};
ghost use Rattle.dms_model.specs.Stores.{put_answer, put_after, record_to_store};
ghost use Rattle.dms_model.specs.declared.put.Put.{Put};
ghost use Rattle.dms_model.specs.declared.put.Put.TheVariants.{Stored};
ghost use Rattle.dms_chain.specs.Lists.{AreInByteOrder};
ghost use Rattle.dms_sets.specs.Kept.{IsStoredSmall};
ghost use Rattle.dms_sets.specs.Sets.{entries_of};
ghost use Rattle.dms_sets.specs.Spots.{RecordsHaveSpots};
ghost use Rattle.dms_sets.specs.Stated.{AreMembersOf, AreSetEntries, IfBehind, IfBounded, IfComes, IfKept, IfNamed, IfPut, IsListing, LeavesEntries, answer_seen, clash_in, first_seen, last_seen};
ghost use Rattle.dms_sets.specs.Told.{db_with};

/// A law: the entries of a set rise, each is an owner, a key and a record, and those of an owner are the bytes of the
/// members for that owner in their order. No other rising list of entries has that.
pub fn sets_are_their_members()
    ensures rise { (desc : Described) (db : Db) (s : Shape) → AreInByteOrder (entries_of desc db s) }
    ensures members { (desc : Described) (db : Db) (s : Shape) (owner : ℕ)
        → IfKept desc db s (AreMembersOf desc db s owner (entries_of desc db s)) }
    ensures shaped { (desc : Described) (db : Db) (s : Shape) → IfNamed desc db s (AreSetEntries desc s (entries_of desc db s)) }
    ensures only { (desc : Described) (db : Db) (s : Shape) (xs : List (List ℕ))
        → IfKept desc db s (IsListing desc db s xs → xs ≡ entries_of desc db s) }
{}

/// A law: one put leaves in each set of the data set the old entries without that of the record that it replaces and
/// with its own, for the owner that is stored, each where it belongs there. All records fit after it.
pub fn one_put_changes()
    ensures entries { (desc : Described) (db : Db) (s : Shape) (set n : ℕ) (rec : Record)
        → IfNamed desc db s (n < 2 ^ 32 → over s ≡ set → LeavesEntries desc db s set n rec) }
    ensures fits { (p : Put) (desc : Described) (db : Db) (set : ℕ) (rec : Record) → IsStoredSmall p
        → IfComes desc db set rec (RecordsHaveSpots desc (put_after p desc db set rec)) }
{}

/// A law: storing a record answers a duplicate for the first set without DUPLICATES, in number order, in which an
/// entry has the owner and key of what would be stored: not that of the record that it replaces, and the first that
/// isn't below them; or for the first manual subset that refuses it, where that comes before.
/// For a new record the number under which it is stored makes no difference.
pub fn duplicate_by_one_look()
    ensures answer { (desc : Described) (db : Db) (set : ℕ) (n : Option ℕ) (rec : Record)
        → IfPut desc db set n rec (put_answer desc db set n rec ≡ answer_seen desc db set n rec) }
    ensures fresh { (desc : Described) (db : Db) (set n : ℕ) (rec : Record) → get db.records (set, n) ≡ None
        → clash_in desc db set None rec ≡ clash_in desc db set (Some n) rec }
{}

/// A law: storing a record is one change of the stored record, which has the owner and the links of the one that it replaces.
pub fn one_put_is_a_change()
    ensures { (desc : Described) (db : Db) (set n : ℕ) (rec : Record)
        → put_after (Stored n) desc db set rec ≡ db_with db set n (Some (record_to_store desc db set (Some n) rec)) }
{}

/// A law: the first member behind a bound is that of the first entry not below the bound's bytes, where that entry is
/// the owner's, and the last member before a bound that of the last entry below them.
pub fn members_by_bounds()
    ensures first { (desc : Described) (db : Db) (path : ℕ) (s : Shape) (n : ℕ) (b : Bound)
        → IfBehind desc db path s n b (first_member desc db path n b ≡ first_seen desc db s n b) }
    ensures last { (desc : Described) (db : Db) (path : ℕ) (s : Shape) (n : ℕ) (b : Bound)
        → IfBounded desc db path s n b (last_member desc db path n b ≡ last_seen desc db s n b) }
{}
