ghost use Rattle.dms_reorg.specs.EqualKeys.{RefusesNoRecord, ToldByKeys};
ghost use Rattle.dms_reorg.specs.InPlace.{EachInPlace};
ghost use Rattle.dms_reorg.specs.Laws.{ExtendsGives, StaysCounted};
ghost use Rattle.dms_reorg.specs.Records.{HoldsSet, KeepsNumbers, SpelledHolds, WidensRecords};
ghost use Rattle.dms_reorg.specs.Rewritten.{SpellsExtended, StaysItself};
ghost use Rattle.dms_reorg.specs.Widened.{EachReadsBefore, WidenedFits, WidensFile};

/// A law: each record of the extended database is that of the database, extended; and each record counts and owns what it did.
pub fn extension_law()
    ensures gives { ExtendsGives }
    ensures counted { StaysCounted }
{}

/// A law: a file whose blocks are widened is that of the data set with further items, and from the last block to the first each is made of blocks that
/// aren't behind it.
pub fn widening_law()
    ensures file { WidensFile }
    ensures fits { WidenedFits }
    ensures before { EachReadsBefore }
    ensures in_place { EachInPlace }
{}

/// A law: the files of a database hold its records; where a file does, the file that is widened holds those of the extended database; and the file of a set that
/// holds the entries of all records is kept as the entries of the set.
pub fn records_law()
    ensures spelled { SpelledHolds }
    ensures widens { WidensRecords }
    ensures numbers { KeepsNumbers }
    ensures set { HoldsSet }
{}

/// A law: where the files of a database are rewritten one by one they spell the extended database; and the file of a data set without further items is its own.
pub fn rewritten_law()
    ensures spells { SpellsExtended }
    ensures itself { StaysItself }
{}

/// A law: where files spell a database, two slots of a data set have one key in a new set or automatic subset exactly where two records of the extended database have
/// equal keys; and such a structure with DUPLICATES, or in which none have, refuses none of the records of the widened file.
pub fn keys_law()
    ensures told { ToldByKeys }
    ensures none { RefusesNoRecord }
{}
