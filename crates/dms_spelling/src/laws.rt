ghost use Rattle.std.specs.Prelude.{◌≡◌, ℕ, Some};
ghost use Rattle.dms_block.specs.Content.{Content};
ghost use Rattle.dms_desc.specs.Shape.{Described};
ghost use Rattle.dms_links.specs.Stands.{Counts, Tally, tally_of};
ghost use Rattle.dms_model.specs.Db.{Db};
ghost use Rattle.dms_spelling.specs.Few.{HasRoom};
ghost use Rattle.dms_spelling.specs.Serving.{IsServed};
ghost use Rattle.dms_spelling.specs.Spelled.{database_in};
ghost use Rattle.dms_spelling.specs.Stands.{StandsFiles};

/// A law: the files of a content that spells a database are those of the database, field by field; and a content whose
/// files are those of a database, and count what it has, spells it.
pub fn spelling_law()
    ensures files { (desc : Described) (c : Content) (db : Db) → IsServed desc → database_in desc c ≡ Some db → StandsFiles desc db (tally_of desc db) c }
    ensures spells { (desc : Described) (db : Db) (own : Tally) (c : Content) → IsServed desc → StandsFiles desc db own c → Counts desc db own → database_in desc c ≡ Some db }
{}

/// A law: what slots count has room for one more where the files are those of a database.
pub fn room_law()
    ensures { (desc : Described) (db : Db) (own : Tally) (c : Content) (set number : ℕ) → IsServed desc → StandsFiles desc db own c → HasRoom desc db set number }
{}
