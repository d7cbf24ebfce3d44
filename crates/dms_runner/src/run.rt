ghost use Rattle.std.specs.Prelude.{◌≡◌, ◌≢◌, ◌≤◌, ◌<◌, ◌+◌, ◌^◌, ◌⊎◌, [], ℕ, List, true, IfOk, OnOk, IsErr, IsErrOf, length};
ghost use Rattle.dms_block.specs.declared.block_fault.BlockFault.{BlockFault as Fault};
ghost use Rattle.dms_base.specs.Causes.{Rose};
ghost use Rattle.dms_desc.specs.Shape.{as_described};
ghost use Rattle.dms_feed.specs.Feeds.{Remains};
ghost use Rattle.dms_feed.specs.Lines.{first_line};
ghost use Rattle.dms_feed.specs.Raws.{CutLine, IsUnended, has_end};
ghost use Rattle.dms_block.specs.Texts.{Prints, PrintsPrefix};
ghost use Rattle.dms_model.specs.Session.{Session, end_session, someone_works};
ghost use Rattle.dms_storeverbs.specs.View.{EngineLasts, SameSession, StandsFor, engine_view, view};
ghost use Rattle.dms_runner.specs.Events.{text_of, Performs, PerformsPrefix, fate_of};
ghost use Rattle.dms_runner.specs.Answers.{unanswered_events, end_events};
ghost use Rattle.dms_runner.specs.Firsts.{AreFirst, AreHeld, lines_of};
ghost use Rattle.dms_runner.specs.Starting.{AnswersAll, AtInput, AtStart, CarriesOut, HeldTooMany, InputEnds, LineOfInputTaken, LinePart, OnInput, StandsAtEnd, TakesAll, events_at};
ghost use Rattle.dms_runner.specs.Blaming.{LastsRun, run_fate};
ghost use Rattle.dms_runner.specs.Running.{FitsScript, HasTooManyBytes, HasTooManyLines, InputBreaks, TakesRawLine};

use crate::lines::take_line;
use crate::slots::{into_lines, no_lines};
use crate::{WaitingLine, WaitingLines};
use dms_base::Memory;
use dms_block::BlockFault;
use dms_feed::{Feed, RawFault, next_raw};
use dms_model::Store;
use dms_script::unanswered_text;
use dms_site::Source;
use dms_storeverbs::Engine;
use std::alloc::Global;

/// The lines that a script may have.
pub const SCRIPT_LINES: u32 = 1_000_000;

/// The bytes that a script may have.
pub const SCRIPT_BYTES: u64 = 2_147_483_648;

/// So many bytes of a line are kept: a line with more is bad whatever it holds, since more than 2,000 bytes stand before its
/// end.
const KEPT_BYTES: u64 = 2003;

/// Why a run stops before its script's end.
#[derive(Clone, Copy, Debug, PartialEq, Eq)]
pub enum RunFault {
    Block(BlockFault),
    /// Taking from the source failed.
    Input,
    /// The script has more lines than it may have.
    Lines,
    /// The script has more bytes than it may have.
    Bytes,
    /// A line would be held that is one too many.
    Held,
    Memory,
}

/// Says of each line that it is still held.
fn say_waiting<St: Store>(
    alloc: Global,
    engine: &mut Engine<St>,
    waiting: &[WaitingLine],
) -> Result<(), BlockFault>
    requires sound { (engine_view engine.old).sound }
    ensures text { OnOk result (Prints (engine_view engine.old).said (engine_view engine.new).said (text_of (unanswered_events waiting.now))) }
    ensures front { PrintsPrefix (engine_view engine.old).said (engine_view engine.new).said (text_of (unanswered_events waiting.now)) }
    ensures ran { OnOk result ((engine_view engine.old).next + 1 < 2 ^ 64 → Performs (engine_view engine.old) (engine_view engine.new) (unanswered_events waiting.now)) }
    ensures part { (engine_view engine.old).next + 1 < 2 ^ 64 → PerformsPrefix (fate_of result) (engine_view engine.old) (engine_view engine.new) (unanswered_events waiting.now) }
    ensures number { (engine_view engine.new).next ≡ (engine_view engine.old).next }
    ensures programs { engine.new.programs ≡ engine.old.programs }
    ensures stands { OnOk result (SameSession engine.old engine.new) }
    ensures lasts { EngineLasts result engine.old engine.new }
{
    for line in waiting {
        let text = unanswered_text(alloc, line.line, &line.program)?;
        engine.say(text.as_slice())?;
    }
    Ok(())
}

/// Says of each line that it is still held, and goes back to the last quiet point where a program is in
/// transaction state.
fn end_run<St: Store>(
    alloc: Global,
    engine: &mut Engine<St>,
    waiting: &[WaitingLine],
) -> Result<(), RunFault>
    requires sound { (engine_view engine.old).sound }
    ensures text { OnOk result (Prints (engine_view engine.old).said (engine_view engine.new).said (text_of (unanswered_events waiting.now))) }
    ensures front { PrintsPrefix (engine_view engine.old).said (engine_view engine.new).said (text_of (unanswered_events waiting.now)) }
    ensures ran { OnOk result ((engine_view engine.old).next + 1 < 2 ^ 64 → Performs (engine_view engine.old) (engine_view engine.new) (end_events (someone_works engine.old.programs.items) waiting.now)) }
    ensures part { (engine_view engine.old).next + 1 < 2 ^ 64 → PerformsPrefix (run_fate result) (engine_view engine.old) (engine_view engine.new) (end_events (someone_works engine.old.programs.items) waiting.now) }
    ensures ended { OnOk result ((s : Session) → StandsFor (view engine.old) s → StandsFor (view engine.new) (end_session s)) }
    ensures limits { (IsErrOf result RunFault.Lines → ⊥) × (IsErrOf result RunFault.Bytes → ⊥) × (IsErrOf result RunFault.Held → ⊥) }
    ensures lasts { LastsRun result engine.old engine.new }
    ensures input { IsErrOf result RunFault.Input → ⊥ }
{
    match say_waiting(alloc, engine, waiting) {
        Err(fault) => Err(RunFault::Block(fault)),
        Ok(()) => match engine.end(alloc) {
            Err(fault) => Err(RunFault::Block(fault)),
            Ok(()) => Ok(()),
        },
    }
}

/// The same, of the lines that are held.
fn end_lines<St: Store>(
    alloc: Global,
    engine: &mut Engine<St>,
    waiting: WaitingLines,
) -> Result<(), RunFault>
    requires sound { (engine_view engine.old).sound }
    ensures text { OnOk result (Prints (engine_view engine.old).said (engine_view engine.new).said (text_of (unanswered_events (lines_of waiting)))) }
    ensures front { PrintsPrefix (engine_view engine.old).said (engine_view engine.new).said (text_of (unanswered_events (lines_of waiting))) }
    ensures ran { OnOk result ((engine_view engine.old).next + 1 < 2 ^ 64 → Performs (engine_view engine.old) (engine_view engine.new) (end_events (someone_works engine.old.programs.items) (lines_of waiting))) }
    ensures part { (engine_view engine.old).next + 1 < 2 ^ 64 → PerformsPrefix (run_fate result) (engine_view engine.old) (engine_view engine.new) (end_events (someone_works engine.old.programs.items) (lines_of waiting)) }
    ensures ended { OnOk result ((s : Session) → StandsFor (view engine.old) s → StandsFor (view engine.new) (end_session s)) }
    ensures limits { (IsErrOf result RunFault.Lines → ⊥) × (IsErrOf result RunFault.Bytes → ⊥) × (IsErrOf result RunFault.Held → ⊥) }
    ensures lasts { LastsRun result engine.old engine.new }
    ensures input { IsErrOf result RunFault.Input → ⊥ }
{
    match into_lines(alloc, waiting) {
        Err(Memory) => Err(RunFault::Memory),
        Ok(lines) => end_run(alloc, engine, lines.as_slice()),
    }
}

/// What was taken of an input: a line with its line feed, the last line without one, or nothing, at its end.
#[derive(Clone, Copy, Debug, PartialEq, Eq)]
enum TakenLine {
    Ended,
    Last,
    Nothing,
}

/// Takes the next line, where there is one. At most `room` bytes of the input are its own; what it has is taken from them.
fn one_line<St: Store, I: Source>(
    alloc: Global,
    engine: &mut Engine<St>,
    feed: &mut Feed,
    source: &mut I,
    waiting: &mut WaitingLines,
    line: u32,
    room: &mut u64,
) -> Result<TakenLine, RunFault>
    requires sound { (engine_view engine.old).sound }
    requires verbs { AreHeld (as_described engine.old.desc) waiting.old }
    requires room { room.old ≤ 2147483648 }
    requires line { line < 4294967295 }
    ensures read { IfOk result (λ t. t ≢ TakenLine.Nothing → OnInput feed.old (I.left source.old) (TakesRawLine room.old room.new feed.new (I.left source.new))) }
    ensures took { IfOk result (λ t. t ≢ TakenLine.Nothing → AtInput engine.old (lines_of waiting.old) line feed.old (I.left source.old) (LineOfInputTaken engine.old engine.new (lines_of waiting.new))) }
    ensures ended { IfOk result (λ t. t ≡ TakenLine.Ended → OnInput feed.old (I.left source.old) (λ all. has_end (first_line all) ≡ true)) }
    ensures last { IfOk result (λ t. t ≡ TakenLine.Last → OnInput feed.old (I.left source.old) (λ all. IsUnended (first_line all))) }
    ensures none { IfOk result (λ t. t ≡ TakenLine.Nothing → (engine.new ≡ engine.old) × (waiting.new ≡ waiting.old) × InputEnds feed.old (I.left source.old) feed.new (I.left source.new)) }
    ensures part { (f : Fault) → IsErrOf result (RunFault.Block f) → AtInput engine.old (lines_of waiting.old) line feed.old (I.left source.old) (LinePart result engine.old engine.new room.old) }
    ensures untouched { (IsErrOf result RunFault.Input ⊎ (IsErrOf result RunFault.Memory ⊎ IsErrOf result RunFault.Bytes)) → engine.new ≡ engine.old }
    ensures bytes { IsErrOf result RunFault.Bytes → OnInput feed.old (I.left source.old) (λ all. room.old < length (first_line all)) }
    ensures full_list { IsErrOf result RunFault.Held → AtInput engine.old (lines_of waiting.old) line feed.old (I.left source.old) (HeldTooMany engine.old engine.new room.old) }
    ensures no_lines { IsErrOf result RunFault.Lines → ⊥ }
    ensures failed { IsErrOf result RunFault.Input → OnInput feed.old (I.left source.old) (CutLine room.old (I.left source.new)) }
    ensures rest { OnOk result ((all : List ℕ) → Remains feed.old (I.left source.old) all → (rest : List ℕ) × Remains feed.new (I.left source.new) rest) }
    ensures verbs { OnOk result (AreHeld (as_described engine.old.desc) waiting.new) }
    ensures lasts { LastsRun result engine.old engine.new }
    ensures room { room.new ≤ room.old }
    ensures same_source { I.same_source source.old source.new }
    ensures taken { I.faults source.old ≤ I.faults source.new }
    ensures input { IsErrOf result RunFault.Input → Rose (I.faults source.old) (I.faults source.new) }
    ensures once { I.faults source.new ≤ I.faults source.old + 1 }
    ensures clean { (IsErrOf result RunFault.Input → ⊥) → I.faults source.new ≡ I.faults source.old }
{
    match next_raw(alloc, feed, source, KEPT_BYTES, *room) {
        Err(RawFault::Input) => Err(RunFault::Input),
        Err(RawFault::Memory) => Err(RunFault::Memory),
        Err(RawFault::Bytes) => Err(RunFault::Bytes),
        Ok(None) => Ok(TakenLine::Nothing),
        Ok(Some(raw)) => {
            *room = room.saturating_sub(raw.length);
            match take_line(alloc, engine, waiting, line + 1, raw.kept.as_slice()) {
                Ok(true) => {
                    if raw.ended {
                        Ok(TakenLine::Ended)
                    } else {
                        Ok(TakenLine::Last)
                    }
                }
                Ok(false) => Err(RunFault::Held),
                Err(fault) => Err(RunFault::Block(fault)),
            }
        }
    }
}

/// What follows the last line that a script may have: the input's end, or a line too many.
fn after_last<I: Source>(alloc: Global, feed: &mut Feed, source: &mut I) -> Result<(), RunFault>
    ensures end { OnOk result ((all : List ℕ) → Remains feed.old (I.left source.old) all → (all ≡ []) × Remains feed.new (I.left source.new) []) }
    ensures lines { IsErrOf result RunFault.Lines → (all : List ℕ) → Remains feed.old (I.left source.old) all → all ≢ [] }
    ensures failed { IsErrOf result RunFault.Input → (all : List ℕ) → Remains feed.old (I.left source.old) all → CutLine 0 (I.left source.new) all }
    ensures limits { (IsErrOf result RunFault.Bytes → ⊥) × (IsErrOf result RunFault.Held → ⊥) }
    ensures same_source { I.same_source source.old source.new }
    ensures taken { I.faults source.old ≤ I.faults source.new }
    ensures input { IsErrOf result RunFault.Input → Rose (I.faults source.old) (I.faults source.new) }
    ensures once { I.faults source.new ≤ I.faults source.old + 1 }
    ensures clean { (IsErrOf result RunFault.Input → ⊥) → I.faults source.new ≡ I.faults source.old }
    ensures block { (e : Fault) → IsErrOf result (RunFault.Block e) → ⊥ }
{
    match next_raw(alloc, feed, source, KEPT_BYTES, 0) {
        Err(RawFault::Input) => return Err(RunFault::Input),
        Err(RawFault::Memory) => return Err(RunFault::Memory),
        Err(RawFault::Bytes) => return Err(RunFault::Lines),
        Ok(Some(_)) => return Err(RunFault::Lines),
        Ok(None) => return Ok(()),
    }
}

/// Takes the lines that a feed and its source have left, up to the input's end, and prints what they answer. Behind a last line without a line
/// feed nothing more is taken from the source.
fn take_lines<St: Store, I: Source>(
    alloc: Global,
    engine: &mut Engine<St>,
    feed: &mut Feed,
    source: &mut I,
    waiting: &mut WaitingLines,
) -> Result<(), RunFault>
    requires sound { (engine_view engine.old).sound }
    requires none { lines_of waiting.old ≡ [] }
    requires held { AreFirst waiting.old }
    ensures all { OnOk result (AtStart engine.old feed.old (I.left source.old) (TakesAll engine.old engine.new (lines_of waiting.new))) }
    ensures stops { IsErr result → AtStart engine.old feed.old (I.left source.old) (CarriesOut result (I.left source.new) engine.old engine.new) }
    ensures fits { OnOk result (OnInput feed.old (I.left source.old) FitsScript) }
    ensures too_many_lines { IsErrOf result RunFault.Lines → OnInput feed.old (I.left source.old) HasTooManyLines }
    ensures too_many_bytes { IsErrOf result RunFault.Bytes → OnInput feed.old (I.left source.old) HasTooManyBytes }
    ensures breaks { IsErrOf result RunFault.Input → OnInput feed.old (I.left source.old) (InputBreaks (I.left source.new)) }
    ensures lasts { LastsRun result engine.old engine.new }
    ensures end { OnOk result ((all : List ℕ) → Remains feed.old (I.left source.old) all → Remains feed.new (I.left source.new) []) }
    ensures same_source { I.same_source source.old source.new }
    ensures taken { I.faults source.old ≤ I.faults source.new }
    ensures input { IsErrOf result RunFault.Input → Rose (I.faults source.old) (I.faults source.new) }
    ensures once { I.faults source.new ≤ I.faults source.old + 1 }
    ensures clean { (IsErrOf result RunFault.Input → ⊥) → I.faults source.new ≡ I.faults source.old }
{
    let mut room = SCRIPT_BYTES;
    for line in 0..SCRIPT_LINES {
        match one_line(alloc, engine, feed, source, waiting, line, &mut room) {
            Err(fault) => return Err(fault),
            Ok(TakenLine::Ended) => {}
            Ok(TakenLine::Last) => return Ok(()),
            Ok(TakenLine::Nothing) => return Ok(()),
        }
    }
    after_last(alloc, feed, source)
}

/// Runs the lines that a feed and its source have left, and prints what they answer. At the end each
/// line that is still held is answered, and the database goes back to the last quiet point where a
/// program is in transaction state. Where taking from the source fails, the whole lines before that place are answered, and no
/// waiting line is.
pub fn run_lines<St: Store, I: Source>(
    alloc: Global,
    engine: &mut Engine<St>,
    feed: &mut Feed,
    source: &mut I,
) -> Result<(), RunFault>
    requires sound { (engine_view engine.old).sound }
    ensures answers { OnOk result (AtStart engine.old feed.old (I.left source.old) (AnswersAll engine.old engine.new)) }
    ensures ran { OnOk result (AtStart engine.old feed.old (I.left source.old) (λ db first all. Performs (engine_view engine.old) (engine_view engine.new) (events_at engine.old db first all))) }
    ensures ended { OnOk result (AtStart engine.old feed.old (I.left source.old) (StandsAtEnd engine.old engine.new)) }
    ensures carried { AtStart engine.old feed.old (I.left source.old) (CarriesOut result (I.left source.new) engine.old engine.new) }
    ensures fits { OnOk result (OnInput feed.old (I.left source.old) FitsScript) }
    ensures too_many_lines { IsErrOf result RunFault.Lines → OnInput feed.old (I.left source.old) HasTooManyLines }
    ensures too_many_bytes { IsErrOf result RunFault.Bytes → OnInput feed.old (I.left source.old) HasTooManyBytes }
    ensures breaks { IsErrOf result RunFault.Input → OnInput feed.old (I.left source.old) (InputBreaks (I.left source.new)) }
    ensures lasts { LastsRun result engine.old engine.new }
    ensures end { OnOk result ((all : List ℕ) → Remains feed.old (I.left source.old) all → Remains feed.new (I.left source.new) []) }
    ensures same_source { I.same_source source.old source.new }
    ensures taken { I.faults source.old ≤ I.faults source.new }
    ensures input { IsErrOf result RunFault.Input → Rose (I.faults source.old) (I.faults source.new) }
    ensures once { I.faults source.new ≤ I.faults source.old + 1 }
    ensures clean { (IsErrOf result RunFault.Input → ⊥) → I.faults source.new ≡ I.faults source.old }
{
    let mut waiting = no_lines(alloc);
    match take_lines(alloc, engine, feed, source, &mut waiting) {
        Err(fault) => Err(fault),
        Ok(()) => end_lines(alloc, engine, waiting),
    }
}
