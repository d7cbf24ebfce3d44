ghost use Rattle.std.specs.Prelude.{◌≡◌, ℕ, [], Some};
ghost use Rattle.dms_block.specs.Content.{Content};
ghost use Rattle.dms_desc.specs.Shape.{Described};
ghost use Rattle.dms_desc_bytes.specs.WellFormed.{IsWellFormed};
ghost use Rattle.dms_model.specs.Db.{Db, empty_db};
ghost use Rattle.dms_sets.specs.Spots.{RecordsHaveSpots};
ghost use Rattle.dms_spelling.specs.Serving.{IsServed};
ghost use Rattle.dms_spelling.specs.Spelled.{database_in};
ghost use Rattle.dms_spelling.specs.Stands.{EntriesStand};
ghost use Rattle.dms_store.specs.SpelledLaws.{IfSpells, RecordsSpelled};

/// A law: files without blocks spell the database of no record.
pub fn empty_law()
    ensures { (desc : Described) (c : Content) → ((f : ℕ) → c f ≡ []) → database_in desc c ≡ Some empty_db }
{}

/// A law: files spell one database at most. Each of its records is of a data set, has a number from 1 to POPULATION,
/// and stands in a slot that fits and counts what refers to it and what it owns. All its values fit. Its entries rise
/// strictly, each of a manual subset, and of a record and an owner that stand; no subset has more than its POPULATION.
pub fn spelled_law()
    ensures one { (desc : Described) (c : Content) (a b : Db) → database_in desc c ≡ Some a → database_in desc c ≡ Some b → a ≡ b }
    ensures records { (desc : Described) (c : Content) (db : Db) → IfSpells desc c db (RecordsSpelled desc db) }
    ensures fits { (desc : Described) (c : Content) (db : Db) → IfSpells desc c db (RecordsHaveSpots desc db) }
    ensures entries { (desc : Described) (c : Content) (db : Db) → IfSpells desc c db (EntriesStand desc db) }
{}

/// A law: each description that a schema can have is one that a store on blocks can keep a database under.
pub fn served_law()
    ensures { (desc : Described) → IsWellFormed desc → IsServed desc }
{}
