ghost use Rattle.std.specs.Prelude.{true, false, IfOk, OnOk};
ghost use Rattle.dms_desc.specs.Shape.{as_described};
ghost use Rattle.dms_storeverbs.specs.View.{EngineLasts, engine_view};
ghost use Rattle.dms_script.specs.declared.line.Line.TheVariants.{Verb as Spoken, Bad};
ghost use Rattle.dms_runner.specs.Answers.{tried_first};
ghost use Rattle.dms_model.specs.Verbs.{IsVerbOf};
ghost use Rattle.dms_runner.specs.Firsts.{AreHeld, lines_of};
ghost use Rattle.dms_runner.specs.Starting.{AtRawLine, AtRunState, LineTaken, PartHappened, effect_at, step_at};

use crate::retrying::retry_all;
use crate::saying::{is_waits, say_answer};
use crate::slots::{has_line, hold};
use crate::{WaitingLine, WaitingLines};
use dms_base::{Memory, Name};
use dms_block::BlockFault;
use dms_feed::line_text;
use dms_model::{Store, Verb};
use dms_script::{Line, bad_text, read_line};
use dms_storeverbs::Engine;
use std::alloc::Global;

/// So many lines are held at most.
pub const WAITING_LINES: usize = 10_000;

/// Says that a line is bad at a place, and retries over the waiting lines.
fn bad_line<St: Store>(
    alloc: Global,
    engine: &mut Engine<St>,
    waiting: &mut WaitingLines,
    line: u32,
    place: u32,
) -> Result<bool, BlockFault>
    requires sound { (engine_view engine.old).sound }
    requires verbs { AreHeld (as_described engine.old.desc) waiting.old }
    ensures lined { IfOk result (λ on. AtRunState engine.old (lines_of waiting.old) line (λ g. LineTaken engine.old engine.new (lines_of waiting.new) on (effect_at engine.old g (Bad place)))) }
    ensures part { AtRunState engine.old (lines_of waiting.old) line (λ g. PartHappened result engine.old engine.new (effect_at engine.old g (Bad place)).events) }
    ensures verbs { OnOk result (AreHeld (as_described engine.old.desc) waiting.new) }
    ensures lasts { EngineLasts result engine.old engine.new }
{
    let text = bad_text(alloc, line, place)?;
    engine.say(text.as_slice())?;
    retry_all(alloc, engine, waiting)?;
    Ok(true)
}

/// Tries a line for the first time. The answer is whether there was room to hold it where it waits.
fn first_try<St: Store>(
    alloc: Global,
    engine: &mut Engine<St>,
    waiting: &mut WaitingLines,
    line: u32,
    name: Name,
    verb: Verb,
) -> Result<bool, BlockFault>
    requires sound { (engine_view engine.old).sound }
    requires verbs { AreHeld (as_described engine.old.desc) waiting.old }
    requires verb { IsVerbOf (as_described engine.old.desc) verb }
    ensures lined { IfOk result (λ on. AtRunState engine.old (lines_of waiting.old) line (λ g. LineTaken engine.old engine.new (lines_of waiting.new) on (tried_first (as_described engine.old.desc) g name verb))) }
    ensures part { AtRunState engine.old (lines_of waiting.old) line (λ g. PartHappened result engine.old engine.new (tried_first (as_described engine.old.desc) g name verb).events) }
    ensures verbs { OnOk result (AreHeld (as_described engine.old.desc) waiting.new) }
    ensures lasts { EngineLasts result engine.old engine.new }
{
    let answer = engine.call(alloc, &name, &verb)?;
    if !is_waits(&answer.reply) {
        say_answer(alloc, engine, line, &name, &answer)?;
        retry_all(alloc, engine, waiting)?;
        return Ok(true);
    }
    if waiting.count >= WAITING_LINES {
        return Ok(false);
    }
    say_answer(alloc, engine, line, &name, &answer)?;
    let held = WaitingLine {
        line,
        program: name,
        verb,
        printed: true,
    };
    hold(waiting, held)?;
    Ok(true)
}

/// Takes what a line says. A line whose program has a waiting line is held without a try.
fn spoken_line<St: Store>(
    alloc: Global,
    engine: &mut Engine<St>,
    waiting: &mut WaitingLines,
    line: u32,
    name: Name,
    verb: Verb,
) -> Result<bool, BlockFault>
    requires sound { (engine_view engine.old).sound }
    requires verbs { AreHeld (as_described engine.old.desc) waiting.old }
    requires verb { IsVerbOf (as_described engine.old.desc) verb }
    ensures lined { IfOk result (λ on. AtRunState engine.old (lines_of waiting.old) line (λ g. LineTaken engine.old engine.new (lines_of waiting.new) on (effect_at engine.old g (Spoken name verb)))) }
    ensures part { AtRunState engine.old (lines_of waiting.old) line (λ g. PartHappened result engine.old engine.new (effect_at engine.old g (Spoken name verb)).events) }
    ensures verbs { OnOk result (AreHeld (as_described engine.old.desc) waiting.new) }
    ensures lasts { EngineLasts result engine.old engine.new }
{
    if !has_line(waiting, &name) {
        return first_try(alloc, engine, waiting, line, name, verb);
    }
    if waiting.count >= WAITING_LINES {
        return Ok(false);
    }
    let held = WaitingLine {
        line,
        program: name,
        verb,
        printed: false,
    };
    hold(waiting, held)?;
    Ok(true)
}

/// Takes a line of the script, given by its first 2,003 bytes. The answer is whether there was room to hold it where it waits.
#[tactic(auto, unfolding(crate::specs::Answers::line_step))]
pub fn take_line<St: Store>(
    alloc: Global,
    engine: &mut Engine<St>,
    waiting: &mut WaitingLines,
    line: u32,
    raw: &[u8],
) -> Result<bool, BlockFault>
    requires sound { (engine_view engine.old).sound }
    requires verbs { AreHeld (as_described engine.old.desc) waiting.old }
    ensures lined { IfOk result (λ on. AtRawLine engine.old (lines_of waiting.old) line raw.now (λ g whole. LineTaken engine.old engine.new (lines_of waiting.new) on (step_at engine.old g whole))) }
    ensures part { AtRawLine engine.old (lines_of waiting.old) line raw.now (λ g whole. PartHappened result engine.old engine.new (step_at engine.old g whole).events) }
    ensures verbs { OnOk result (AreHeld (as_described engine.old.desc) waiting.new) }
    ensures lasts { EngineLasts result engine.old engine.new }
{
    match read_line(alloc, engine.description(), line_text(raw))? {
        Line::Empty => Ok(true),
        Line::Bad(place) => bad_line(alloc, engine, waiting, line, place),
        Line::Verb(name, verb) => spoken_line(alloc, engine, waiting, line, name, verb),
    }
}
