//! Laws of the definitions. Each stands on a function with an empty body, so that the check proves it.

ghost use Rattle.dms_history.specs.Copied.{CopiedDumpServes, TrueDumpIsCopied};
ghost use Rattle.dms_history.specs.LawsOfPoints.{ChoiceGivesContent, EachPoint, EachLivePoint, OpeningNeverCounts};
ghost use Rattle.dms_history.specs.LawsOfBase.{AgreesHasBase, AgreesLeadsToBase, BaseAgrees, AgreesIsSteady, SteadyAgrees, OpeningStays, PrefixGoes};
ghost use Rattle.dms_history.specs.LawsOfRunning.{ChangesBlock, Quiets, WritesEarly, Controls, RunsSteady, SealsRun, PointsGoOn, QuietIsLive, LevelIsLive, ControlStands};
ghost use Rattle.dms_history.specs.Sizes.{SizedReplay, SizedBase};
ghost use Rattle.dms_history.specs.Told.{EachTold, EachFromFile};
ghost use Rattle.dms_history.specs.LawsOfPointLists.{PointsListed, OneList, PointsPrefix, PointsStay, ListsChange, ListsQuiet, ListsControl, ListsLevel, ListsBegin, LastKeepsAll};
ghost use Rattle.dms_history.specs.LawsOfSchemas.{EachSchema, SchemaStays, SchemaOfNew, LiveHasSchema};
ghost use Rattle.dms_history.specs.Judge.{EachJudged};
ghost use Rattle.dms_history.specs.LawsOfRestores.{RestoreBegins, RestoreWrites, RestoreEnds, EndsFirst, PendingWritesFirst, NoDumpCounts, PendingCuts, HereFixed};
ghost use Rattle.dms_history.specs.Often.{HoweverOften, FromAnything};
ghost use Rattle.dms_history.specs.Numbers.{RollsBack, EachLast, LastLives, NextStays, EachNext, UsedOnce, NumbersChange, NumbersQuiet, NumbersBegin, NumbersControl, NumbersLevel, NumbersFirst, TrueDumpServes};
ghost use Rattle.dms_history.specs.LawsOfEntries.{WholeSchemas, LiveOfEntries, RowsOfBlocks, SchemaSealed, ImageSealed, RangeSealed, QuietSealed, ControlSealed, BeginSealed, OneMoreEvent, PartsSayNothing, SchemaInParts, HistoryAppends, EntriesAlone};
ghost use Rattle.dms_history.specs.LawsOfKept.{KeptFirst, KeptImage, KeptRange, KeptQuiet, KeptSchema, KeptControl, KeptLevel, KeptBegin, KeptEnds, KeptWrites, KeptRestores, KeptAgrees, AgreesKept, KeptInParts, FirstAgrees};
ghost use Rattle.dms_history.specs.LawsOfRanges.{NoRanges, LiveOfRanges, LeftOut, RangeChanges, RangesSteady, RangesSplit, ImagesGoOn, RangeFits};

/// Each live point has exactly the content that the entries up to its place give: changes before it are redone, changes after it undone.
pub fn points_have_content()
    ensures choice { ChoiceGivesContent }
    ensures points { EachPoint }
    ensures live_points { EachLivePoint }
    ensures opening { OpeningNeverCounts }
{}

/// Where the entries and the blocks agree, the entries tell how all blocks came from a base; and where they do, the two agree.
pub fn agrees_has_base()
    ensures base { AgreesHasBase }
    ensures opening { AgreesLeadsToBase }
    ensures agrees { BaseAgrees }
{}

/// What agrees is steady, with its dumps and a restore that may be pending, and the other way round. Where none is pending, entries may be removed from the
/// front of the list of live entries.
pub fn stays_steady()
    ensures steady { AgreesIsSteady }
    ensures agrees { SteadyAgrees }
    ensures opening { OpeningStays }
    ensures front { PrefixGoes }
{}

/// A database that runs keeps steady over a change, a quiet point, an early write and a control point.
pub fn running_keeps()
    ensures changes { ChangesBlock }
    ensures quiets { Quiets }
    ensures writes_early { WritesEarly }
    ensures controls { Controls }
    ensures steady { RunsSteady }
    ensures seals { SealsRun }
{}

/// While a database runs each live point stays live with its content, a new quiet point is live with the content of now, and behind a control point
/// the files hold the content.
pub fn points_go_on()
    ensures points { PointsGoOn }
    ensures quiet { QuietIsLive }
    ensures level { LevelIsLive }
    ensures control { ControlStands }
{}

/// A restore of any kind keeps the chosen point and each point that stays live, at its Begin, at each of its writes and at its end.
pub fn restores_keep()
    ensures begins { RestoreBegins }
    ensures writes { RestoreWrites }
    ensures ends { RestoreEnds }
    ensures ends_first { EndsFirst }
    ensures writes_first { PendingWritesFirst }
{}

/// There is one list of the live points, and each step keeps it: a quiet point adds its own, a restore leaves those up to its point.
pub fn points_are_listed()
    ensures listed { PointsListed }
    ensures one { OneList }
    ensures front { PointsPrefix }
    ensures stay { PointsStay }
    ensures change { ListsChange }
    ensures quiet { ListsQuiet }
    ensures control { ListsControl }
    ensures level { ListsLevel }
    ensures begin { ListsBegin }
    ensures last { LastKeepsAll }
{}

/// The Schema at a point is the last whole one before its place: it stays, whatever is appended or cut off behind, and each live point has one.
pub fn points_have_schemas()
    ensures reads { EachSchema }
    ensures stays { SchemaStays }
    ensures new { SchemaOfNew }
    ensures lives { LiveHasSchema }
{}

/// Each answer on a point comes exactly where its sentence holds.
pub fn points_are_judged()
    ensures { EachJudged }
{}

/// A block at a point is what the audit tells of it, and else what is stored; which blocks come from the structure files is known, a restore pending or not.
pub fn blocks_are_told()
    ensures told { EachTold }
    ensures files { EachFromFile }
{}

/// While a restore is pending its point is the last one; where none is pending no dump counts.
pub fn pending_is_last()
    ensures last { PendingCuts }
    ensures dumps { NoDumpCounts }
    ensures here { HereFixed }
{}

/// However often restores are stopped and begun anew, each point that is live in the end has the content that it had.
pub fn however_often()
    ensures often { HoweverOften }
    ensures anything { FromAnything }
{}

/// Behind a restore no later point is live, no live point is above the last one, the next number never falls, and no number is used twice.
pub fn keeps_numbers()
    ensures rolls_back { RollsBack }
    ensures last_points { EachLast }
    ensures last_lives { LastLives }
    ensures next_stays { NextStays }
    ensures next_steps { EachNext }
    ensures used_once { UsedOnce }
    ensures change { NumbersChange }
    ensures quiet { NumbersQuiet }
    ensures begin { NumbersBegin }
    ensures control { NumbersControl }
    ensures level { NumbersLevel }
    ensures first { NumbersFirst }
    ensures dump { TrueDumpServes }
    ensures copied { CopiedDumpServes }
    ensures true_is_copied { TrueDumpIsCopied }
{}

/// Entries with Ranges are a list of changes with whole images.
pub fn ranges_are_changes()
    ensures plain { NoRanges }
    ensures live { LiveOfRanges }
    ensures left_out { LeftOut }
    ensures changes { RangeChanges }
    ensures steady { RangesSteady }
    ensures splits { RangesSplit }
    ensures goes_on { ImagesGoOn }
    ensures fits { RangeFits }
{}

/// A whole Schema is its parts 1 to the last, one directly after another; the live events are those of the live entries; a row is 16 blocks.
pub fn entries_are_read()
    ensures schemas { WholeSchemas }
    ensures live { LiveOfEntries }
    ensures rows { RowsOfBlocks }
{}

/// One more entry that is sealed is one more event: an Image a change, a Range a change with whole images, a Control after its whole Schema a described one.
pub fn entries_are_sealed()
    ensures schema { SchemaSealed }
    ensures image { ImageSealed }
    ensures range { RangeSealed }
    ensures quiet { QuietSealed }
    ensures control { ControlSealed }
    ensures begin { BeginSealed }
    ensures event { OneMoreEvent }
    ensures parts { PartsSayNothing }
    ensures in_parts { SchemaInParts }
    ensures history { HistoryAppends }
    ensures alone { EntriesAlone }
{}

/// All that a database keeps between two calls is kept by each entry that it seals and by each block that it writes, and it is kept exactly where
/// the entries agree with the dumps and blocks.
pub fn kept_goes_on()
    ensures first { KeptFirst }
    ensures image { KeptImage }
    ensures range { KeptRange }
    ensures quiet { KeptQuiet }
    ensures schema { KeptSchema }
    ensures control { KeptControl }
    ensures level { KeptLevel }
    ensures begin { KeptBegin }
    ensures ends { KeptEnds }
    ensures writes { KeptWrites }
    ensures restores { KeptRestores }
    ensures agrees { KeptAgrees }
    ensures kept { AgreesKept }
    ensures in_parts { KeptInParts }
    ensures first_agrees { FirstAgrees }
{}

/// Over whole blocks whole images tell whole blocks, and where the content has whole blocks so had the base.
pub fn blocks_stay_whole()
    ensures replay { SizedReplay }
    ensures base { SizedBase }
{}
