ghost use Rattle.std.specs.Prelude.{◌≡◌, ◌<◌, ◌+◌, ◌^◌, ◌++◌, [], ◌∷◌, true, false, ◌&&◌, Some, None, IfOk, OnOk};
ghost use Rattle.dms_desc.specs.Shape.{as_described};
ghost use Rattle.dms_block.specs.Texts.{Prints, PrintsPrefix};
ghost use Rattle.dms_model.specs.Session.{is_waits};
ghost use Rattle.dms_model.specs.Verbs.{IsVerbOf};
ghost use Rattle.dms_storeverbs.specs.View.{EngineLasts, SameSession, engine_view};
ghost use Rattle.dms_runner.specs.Events.{says, Performs};
ghost use Rattle.dms_runner.specs.Waiting.{answer_text, said_of, sync_text};
ghost use Rattle.dms_runner.specs.Starting.{AtSession, LineTried, PartHappened, tries_at};

use crate::WaitingLine;
use dms_base::{Bytes, Memory, Name};
use dms_block::BlockFault;
use dms_model::{Answer, Reply, Store};
use dms_script::{reply_text, syncpoint_text};
use dms_storeverbs::Engine;
use std::alloc::Global;

/// Whether a line waits.
pub fn is_waits(reply: &Reply) -> bool
    ensures { result ≡ is_waits reply.now }
{
    match reply {
        Reply::Done(_) => false,
        Reply::Exception(_, _) => false,
        Reply::Waits(_) => true,
    }
}

/// Adds the text of the syncpoint that a step took.
fn push_sync(alloc: Global, text: &mut Bytes, sync: Option<u64>) -> Result<(), Memory>
    ensures { OnOk result (text.new ≡ text.old ++ sync_text sync) }
{
    match sync {
        None => Ok(()),
        Some(number) => {
            let more = syncpoint_text(alloc, number)?;
            text.extend(more.as_slice())
        }
    }
}

/// A reply, and then the syncpoint that its step took.
#[tactic(auto, unfolding(crate::specs::Waiting::answer_text))]
fn answer_text(alloc: Global, line: u32, program: &Name, answer: &Answer) -> Result<Bytes, Memory>
    ensures { IfOk result (λ t. t ≡ answer_text line program.now answer.now.reply answer.now.sync) }
{
    let mut text = reply_text(alloc, line, program, &answer.reply)?;
    push_sync(alloc, &mut text, answer.sync)?;
    Ok(text)
}

/// Says a reply, and then the syncpoint that its step took.
pub fn say_answer<St: Store>(
    alloc: Global,
    engine: &mut Engine<St>,
    line: u32,
    program: &Name,
    answer: &Answer,
) -> Result<(), BlockFault>
    requires sound { (engine_view engine.old).sound }
    ensures text { OnOk result (Prints (engine_view engine.old).said (engine_view engine.new).said (answer_text line program.now answer.now.reply answer.now.sync)) }
    ensures front { PrintsPrefix (engine_view engine.old).said (engine_view engine.new).said (answer_text line program.now answer.now.reply answer.now.sync) }
    ensures ran { OnOk result ((engine_view engine.old).next + 1 < 2 ^ 64 → Performs (engine_view engine.old) (engine_view engine.new) (says (answer_text line program.now answer.now.reply answer.now.sync) ∷ [])) }
    ensures part { (engine_view engine.old).next + 1 < 2 ^ 64 → PartHappened result engine.old engine.new (says (answer_text line program.now answer.now.reply answer.now.sync) ∷ []) }
    ensures effort { (engine_view engine.new).effort ≡ (engine_view engine.old).effort }
    ensures number { (engine_view engine.new).next ≡ (engine_view engine.old).next }
    ensures stands { OnOk result (SameSession engine.old engine.new) }
    ensures lasts { EngineLasts result engine.old engine.new }
{
    let text = answer_text(alloc, line, program, answer)?;
    engine.say(text.as_slice())
}

/// Says what a waiting line was answered; that it waits is said once.
fn say_tried<St: Store>(
    alloc: Global,
    engine: &mut Engine<St>,
    waiting: &WaitingLine,
    answer: &Answer,
) -> Result<(), BlockFault>
    requires sound { (engine_view engine.old).sound }
    ensures text { OnOk result (Prints (engine_view engine.old).said (engine_view engine.new).said (said_of waiting.now answer.now.reply answer.now.sync)) }
    ensures front { PrintsPrefix (engine_view engine.old).said (engine_view engine.new).said (said_of waiting.now answer.now.reply answer.now.sync) }
    ensures ran { OnOk result ((engine_view engine.old).next + 1 < 2 ^ 64 → Performs (engine_view engine.old) (engine_view engine.new) (says (said_of waiting.now answer.now.reply answer.now.sync) ∷ [])) }
    ensures part { (engine_view engine.old).next + 1 < 2 ^ 64 → PartHappened result engine.old engine.new (says (said_of waiting.now answer.now.reply answer.now.sync) ∷ []) }
    ensures effort { (engine_view engine.new).effort ≡ (engine_view engine.old).effort }
    ensures number { (engine_view engine.new).next ≡ (engine_view engine.old).next }
    ensures stands { OnOk result (SameSession engine.old engine.new) }
    ensures lasts { EngineLasts result engine.old engine.new }
{
    if is_silent(&answer.reply, waiting.printed) {
        return Ok(());
    }
    say_answer(alloc, engine, waiting.line, &waiting.program, answer)
}

/// Whether nothing is said: a line waits, of which that was said.
fn is_silent(reply: &Reply, printed: bool) -> bool
    ensures { result ≡ (is_waits reply.now && printed) }
{
    is_waits(reply) && printed
}

/// Tries a waiting line, and answers whether it was answered.
pub fn try_line<St: Store>(
    alloc: Global,
    engine: &mut Engine<St>,
    waiting: &WaitingLine,
) -> Result<bool, BlockFault>
    requires sound { (engine_view engine.old).sound }
    requires verb { IsVerbOf (as_described engine.old.desc) waiting.now.verb }
    ensures tried { IfOk result (λ answered. AtSession engine.old (λ s. LineTried engine.old engine.new s waiting.now answered)) }
    ensures part { AtSession engine.old (λ s. PartHappened result engine.old engine.new (tries_at engine.old s waiting.now)) }
    ensures lasts { EngineLasts result engine.old engine.new }
{
    let answer = engine.call(alloc, &waiting.program, &waiting.verb)?;
    say_tried(alloc, engine, waiting, &answer)?;
    Ok(!is_waits(&answer.reply))
}
