ghost use Rattle.std.specs.Prelude.{◌≡◌, ◌+◌, ◌<◌, ◌^◌, [], Some, IfOk, OnOk, length};
ghost use Rattle.dms_desc.specs.Shape.{as_described};
ghost use Rattle.dms_storeverbs.specs.View.{EngineLasts, engine_view};
ghost use Rattle.dms_runner.specs.Firsts.{AreHeld, lines_of, standing};
ghost use Rattle.dms_runner.specs.Waiting.{AreVerbs, retry};
ghost use Rattle.dms_runner.specs.Starting.{RetriesMade, AtRetries, AtSession, AtSlot, LineTried, PartHappened, RetryMade, retries_at, tries_at};

use crate::saying::try_line;
use crate::slots::{line_in, note_waiting, take_out};
use crate::{WaitingLine, WaitingLines};
use dms_block::BlockFault;
use dms_model::Store;
use dms_storeverbs::Engine;
use std::alloc::Global;

/// Tries the waiting line in a slot, and answers whether it was answered.
fn try_at<St: Store>(
    alloc: Global,
    engine: &mut Engine<St>,
    slots: &[Option<WaitingLine>],
    slot: usize,
) -> Result<bool, BlockFault>
    requires sound { (engine_view engine.old).sound }
    requires verbs { AreVerbs (as_described engine.old.desc) (standing slots.now) }
    ensures tried { IfOk result (λ answered. AtSlot slots.now slot (λ h. AtSession engine.old (λ s. LineTried engine.old engine.new s h answered))) }
    ensures part { AtSlot slots.now slot (λ h. AtSession engine.old (λ s. PartHappened result engine.old engine.new (tries_at engine.old s h))) }
    ensures lasts { EngineLasts result engine.old engine.new }
{
    match line_in(slots, slot) {
        Some(line) => try_line(alloc, engine, line),
        None => Ok(false),
    }
}

/// Tries the first line of each program from the front, up to the first that is answered, which leaves. The others are passed over.
/// Answers whether a line was answered.
fn pass<St: Store>(
    alloc: Global,
    engine: &mut Engine<St>,
    waiting: &mut WaitingLines,
) -> Result<bool, BlockFault>
    requires sound { (engine_view engine.old).sound }
    requires verbs { AreHeld (as_described engine.old.desc) waiting.old }
    ensures passes { IfOk result (λ answered. AtSession engine.old (λ s. RetryMade engine.old engine.new (lines_of waiting.new) answered (retry (as_described engine.old.desc) s [] (lines_of waiting.old)))) }
    ensures part { AtSession engine.old (λ s. PartHappened result engine.old engine.new (retry (as_described engine.old.desc) s [] (lines_of waiting.old)).events) }
    ensures verbs { OnOk result (AreHeld (as_described engine.old.desc) waiting.new) }
    ensures lasts { EngineLasts result engine.old engine.new }
{
    for j in 0..waiting.firsts.len() {
        let slot = waiting.firsts[j];
        if try_at(alloc, engine, waiting.slots.as_slice(), slot)? {
            take_out(waiting, j)?;
            return Ok(true);
        }
        note_waiting(&mut waiting.slots, slot);
    }
    Ok(false)
}

/// Retries the waiting lines until nothing in them is answered.
pub fn retry_all<St: Store>(
    alloc: Global,
    engine: &mut Engine<St>,
    waiting: &mut WaitingLines,
) -> Result<(), BlockFault>
    requires sound { (engine_view engine.old).sound }
    requires verbs { AreHeld (as_described engine.old.desc) waiting.old }
    ensures retries { OnOk result (AtRetries engine.old (lines_of waiting.old) (λ s. RetriesMade engine.old engine.new (lines_of waiting.new) (retries_at engine.old s (lines_of waiting.old)))) }
    ensures part { AtRetries engine.old (lines_of waiting.old) (λ s. PartHappened result engine.old engine.new (retries_at engine.old s (lines_of waiting.old)).events) }
    ensures verbs { OnOk result (AreHeld (as_described engine.old.desc) waiting.new) }
    ensures lasts { EngineLasts result engine.old engine.new }
{
    for _turn in 0..waiting.count {
        if !pass(alloc, engine, waiting)? {
            return Ok(());
        }
    }
    Ok(())
}
