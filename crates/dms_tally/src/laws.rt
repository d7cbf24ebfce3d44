ghost use Rattle.std.specs.Prelude.{◌≡◌, ◌+◌, ◌||◌, ℕ, Some, true, nat_lt};
ghost use Rattle.std.specs.List.{list_any};
ghost use Rattle.std.specs.FinMap.{get, remove};
ghost use Rattle.std.specs.declared.option.Option.{Option};
ghost use Rattle.dms_desc.specs.Shape.{Described};
ghost use Rattle.dms_desc.specs.declared.record.Record.{Record};
ghost use Rattle.dms_model.specs.Db.{Db, Place};
ghost use Rattle.dms_model.specs.Uses.{after_enter, after_leave, after_link, entry_of, in_use, is_entered};
ghost use Rattle.dms_model.specs.Valid.{AreRising};
ghost use Rattle.dms_model.specs.declared.put.Put.TheVariants.{Stored};
ghost use Rattle.dms_tally.specs.Counts.{counted_in, entries_at, owned_in};
ghost use Rattle.dms_tally.specs.Gone.{LinksStand, MayGo, OwnerStands};
ghost use Rattle.dms_tally.specs.Tally.{CountsNewLink, HasValue, TakesItsLinks, TakesItsOwner, left_at};

/// A law: a record is in use exactly where a counted link refers to it, an entry of a manual subset names it, or it
/// owns records or entries.
pub fn in_use_law()
    ensures { (desc : Described) (db : Db) (set n : ℕ) → in_use desc db set n
        ≡ ((nat_lt 0 (counted_in desc db set n) || list_any (is_entered desc set n) db.entries) || nat_lt 0 (owned_in desc db set n)) }
{}

/// A law: where one link of a record is set, each record is counted one time less where the old value referred to it,
/// and one time more where the new one does. What each record owns stays.
pub fn link_law()
    ensures counted { (desc : Described) (db : Db) (set number item : ℕ) (to : Option ℕ) (r : Record) (t m : ℕ) → HasValue desc db set number item r
        → CountsNewLink desc db set number item to r t m }
    ensures owned { (desc : Described) (db : Db) (set number item : ℕ) (to : Option ℕ) (r : Record) (t m : ℕ) → get db.records (set, number) ≡ Some r
        → owned_in desc (after_link db set number item to) t m ≡ owned_in desc db t m }
{}

/// A law: a record that goes takes from each count what its own links and its own owner added.
pub fn removal_law()
    ensures counted { (desc : Described) (db : Db) (set number : ℕ) (r : Record) (t m : ℕ) → get db.records (set, number) ≡ Some r
        → TakesItsLinks desc db set number r t m }
    ensures owned { (desc : Described) (db : Db) (set number : ℕ) (r : Record) (t m : ℕ) → get db.records (set, number) ≡ Some r
        → TakesItsOwner desc db set number r t m }
{}

/// A law: an entry that comes adds one to what its owner owns, and one that goes takes it away.
pub fn entry_law()
    ensures comes { (desc : Described) (db : Db) (subset owner number t m : ℕ)
        → owned_in desc (after_enter (Stored number) db subset owner) t m ≡ owned_in desc db t m + entries_at desc t m (entry_of subset owner number) }
    ensures goes { (desc : Described) (db : Db) (subset owner number t m : ℕ) → AreRising db.entries
        → owned_in desc (after_leave db subset owner number) t m + left_at desc db subset owner number t m ≡ owned_in desc db t m }
{}

/// A law: without a record that is not in use, and to which no self-correcting link refers, the links and the owner of
/// each record stand as they did.
pub fn standing_law()
    ensures links { (desc : Described) (db : Db) (set number : ℕ) (p : Place) (r : Record) → MayGo desc db set number → get db.records p ≡ Some r
        → LinksStand desc db.records p r → LinksStand desc (remove db.records (set, number)) p r }
    ensures owner { (desc : Described) (db : Db) (set number : ℕ) (p : Place) (r : Record) → MayGo desc db set number → get db.records p ≡ Some r
        → OwnerStands desc db.records p r → OwnerStands desc (remove db.records (set, number)) p r }
{}
