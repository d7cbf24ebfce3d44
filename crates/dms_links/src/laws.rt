ghost use Rattle.std.specs.Prelude.{◌≡◌, ℕ, Bool, List};
ghost use Rattle.std.specs.FinMap.{get, remove};
ghost use Rattle.std.specs.declared.option.Option.{Option};
ghost use Rattle.dms_desc.specs.Shape.{Shape, Described};
ghost use Rattle.dms_model.specs.Db.{Db, Place};
ghost use Rattle.dms_model.specs.Uses.{after_remove, linkers};
ghost use Rattle.dms_block.specs.Content.{Content};
ghost use Rattle.dms_links.specs.Cleared.{cleared, cleared_at};
ghost use Rattle.dms_links.specs.Linking.{TellLinkers};
ghost use Rattle.dms_links.specs.Rows.{AreNumbered};
ghost use Rattle.dms_layout.specs.declared.slot.Slot.{Slot};
ghost use Rattle.dms_links.specs.AlteredLaws.{CorrectsLinks, CountsFewer, CountsMore, OwnsFewer, OwnsMore, SetsLink};
ghost use Rattle.dms_links.specs.Changed.{FreesSlot, WritesSlot};
ghost use Rattle.dms_links.specs.ClearingLaws.{ClearsLinksOf};
ghost use Rattle.dms_links.specs.SettingLaws.{SetsLinkOf};
ghost use Rattle.dms_links.specs.Stands.{RecordsStand, Tally};

/// A law: what the removal of a record leaves is the database in which the records that link to it were corrected, one
/// after another, and then without the record. Each of them stands corrected, and each other record as it was.
pub fn removal_is_its_steps()
    ensures steps { (desc : Described) (db : Db) (set number : ℕ)
        → after_remove desc db set number ≡ record db { records = remove (cleared desc set number (linkers desc db set number) db.records) (set, number) } }
    ensures each { (desc : Described) (db : Db) (set number : ℕ) (ps : List Place) (p : Place)
        → get (cleared desc set number ps db.records) p ≡ cleared_at desc set number ps db.records p }
{}

/// A law: where the slots of a content have the records of a database, those whose self-correcting link refers to a
/// record are told by the slots of the data sets that have an item for such links.
pub fn linkers_by_slots()
    ensures { (desc : Described) (db : Db) (own : Tally) (c : Content) (set number : ℕ) → AreNumbered 1 desc.structures → RecordsStand desc db own c
        → TellLinkers desc db c set number }
{}

/// A law: where the slots of a content have the records of a database, and the slot of a record that may go is free now,
/// they have the records without it, and count what they counted.
pub fn freed_slot_law()
    ensures { (desc : Described) (db : Db) (own : Tally) (c d : Content) (set number : ℕ) (s : Shape) → FreesSlot desc db own c d set number s }
{}

/// A law: where the slot of one record was written, and those of all others are as they were, the slots have the records
/// of the database with that record, and count what is told of each.
pub fn written_slot_law()
    ensures { (desc : Described) (db after : Db) (own moved : Tally) (c d : Content) (set number : ℕ) (s : Shape) (x : Slot) → WritesSlot desc db after own moved c d set number s x }
{}

/// A law: where one slot was altered, the slots have the records of the database with what was altered: the record
/// counts a link more or fewer, one of its links is set, its self-correcting links to a record are null, or it owns one
/// record or entry more or fewer.
pub fn altered_slot_law()
    ensures counted { (desc : Described) (db : Db) (own : Tally) (c d : Content) (set number : ℕ) (s : Shape) → CountsMore desc db own c d set number s }
    ensures uncounted { (desc : Described) (db : Db) (own : Tally) (c d : Content) (set number : ℕ) (s : Shape) → CountsFewer desc db own c d set number s }
    ensures linked { (desc : Described) (db : Db) (own : Tally) (c d : Content) (set number : ℕ) (s : Shape) (item : ℕ) (to : Option ℕ) → SetsLink desc db own c d set number s item to }
    ensures corrected { (desc : Described) (db : Db) (own : Tally) (c d : Content) (set number : ℕ) (s : Shape) (t n : ℕ) → CorrectsLinks desc db own c d set number s t n }
    ensures owned { (desc : Described) (db : Db) (own : Tally) (c d : Content) (set number : ℕ) (s : Shape) → OwnsMore desc db own c d set number s }
    ensures disowned { (desc : Described) (db : Db) (own : Tally) (c d : Content) (set number : ℕ) (s : Shape) → OwnsFewer desc db own c d set number s }
{}

/// A law: where a link of a record may be set, `set_link` sets it, and then the slots have the records of the database
/// after it and count what that has.
pub fn set_link_law()
    ensures { (desc : Described) (db : Db) (own : Tally) (c d : Content) (set number item : ℕ) (to : Option ℕ) (s : Shape) (done : Bool) → SetsLinkOf desc db own c d set number item to s done }
{}

/// A law: where the slots at the places of records were corrected one after another, the slots have the records of the
/// database in which these were corrected, and count what they counted.
pub fn clear_law()
    ensures { (desc : Described) (db : Db) (own : Tally) (c d : Content) (set number : ℕ) (ps : List Place) → ClearsLinksOf desc db own c d set number ps }
{}
