ghost use Rattle.std.specs.Prelude.{◌≡◌, ◌^◌, ◌<◌, ℕ, Some};
ghost use Rattle.std.specs.FinMap.{get};
ghost use Rattle.dms_desc.specs.Shape.{Shape, Described};
ghost use Rattle.dms_desc.specs.declared.bound.Bound.{Bound};
ghost use Rattle.dms_desc.specs.declared.record.Record.{Record};
ghost use Rattle.dms_model.specs.Db.{Db};
ghost use Rattle.dms_model.specs.Uses.{enter_answer};
ghost use Rattle.dms_sets.specs.Sets.{kinds_over};
ghost use Rattle.dms_manual.specs.CountedFor.{EntriesRise, TellsAsMany};
ghost use Rattle.dms_manual.specs.Entered.{IsSmallPair, manual_of};
ghost use Rattle.dms_manual.specs.Entering.{entry_put};
ghost use Rattle.dms_manual.specs.Judged.{IfMember, IfTold, ListGains, ListLoses, NamesIn};
ghost use Rattle.dms_manual.specs.Listed.{SameIn, bytes_for};
ghost use Rattle.dms_manual.specs.Members.{FirstByEntries, LastByEntries};
ghost use Rattle.dms_manual.specs.Moves.{SmallIn};

/// A law: the list of a manual subset, after an entry that didn't stand came, is the old one with the bytes of that
/// entry in their place; after one that stood went, the old one without them. A subset with the same entries, and the
/// same records where they name one, has the same list.
pub fn lists_follow_entries()
    ensures comes { (desc : Described) (s : Shape) (db : Db) (o n : ℕ) (r : Record) → IfMember s db o n r (ListGains desc s db o n r) }
    ensures goes { (desc : Described) (s : Shape) (db : Db) (o n : ℕ) (r : Record) → IfMember s db o n r (ListLoses desc s db o n r) }
    ensures stays { (desc : Described) (s : Shape) (db d : Db) → SameIn s db d → manual_of desc d s ≡ manual_of desc db s }
{}

/// A law: what the list of a manual subset answers to an entry that is to be made is what the database answers: a
/// duplicate where the entry stands or another member of the owner has an equal key and the subset has NO DUPLICATES,
/// else that it is full where it has as many entries as its POPULATION.
pub fn answers_by_the_list()
    ensures { (desc : Described) (s : Shape) (db : Db) (o n : ℕ) (r : Record) → IfMember s db o n r (IfTold desc s db
        (entry_put (kinds_over desc s) s n (record r { owner = o }) (manual_of desc db s) ≡ enter_answer desc db s.number o n)) }
{}

/// A law: the list of a manual subset has an entry that ends with a record's number exactly where the database has an
/// entry of the subset that names the record.
pub fn lists_name_records()
    ensures { (desc : Described) (s : Shape) (db : Db) (n : ℕ) (r : Record) → get db.records (s.set, n) ≡ Some r → SmallIn s db → n < 2 ^ 32 → NamesIn desc s db n }
{}

/// A law: the list of a manual subset has as many entries that end with a record's number as the database has entries of
/// the subset that name the record.
pub fn lists_count_records()
    ensures { (desc : Described) (s : Shape) (db : Db) (n : ℕ) → SmallIn s db → n < 2 ^ 32 → EntriesRise s db → TellsAsMany desc s db n }
{}

/// A law: the first member of a manual subset behind a bound is that of the first entry of its list not below the
/// bound's bytes, and the last member before a bound that of the last entry below them, where the entry is the owner's.
pub fn members_by_entries()
    ensures first { (desc : Described) (db : Db) (path : ℕ) (s : Shape) (o : ℕ) (b : Bound) → FirstByEntries desc db path s o b }
    ensures last { (desc : Described) (db : Db) (path : ℕ) (s : Shape) (o : ℕ) (b : Bound) → LastByEntries desc db path s o b }
{}
