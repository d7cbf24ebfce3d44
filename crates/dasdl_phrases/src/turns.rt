ghost use Rattle.std.specs.Prelude.{◌≡◌, List, Bool};
ghost use Rattle.dms_tokens.specs.declared.token.Lexeme.{Lexeme};
ghost use Rattle.dasdl_phrases.specs.Reads.{Read, Takes};
ghost use Rattle.dasdl_phrases.specs.Cursors.{turns_at};

use crate::expect::fault;
use crate::fault::ParseFault;
use dms_tokens::Cursor;

/// A part of the grammar that is read by turns: what was read so far.
pub trait Turns: Drop {
    /// Where it ends.
    ghost done_at: { Self → List Lexeme → Bool };
    /// What a turn reads.
    ghost turn_at: { Self → List Lexeme → Read Self };

    /// Whether it ends here.
    fn is_done(&self, cursor: &Cursor<'_>) -> bool
        ensures { result ≡ done_at self.now cursor.now };

    /// What was read, with one turn more, or the first fault.
    fn turn(self, cursor: &mut Cursor<'_>) -> Result<Self, ParseFault>
        ensures { Takes result cursor.new (turn_at self cursor.old) };
}

/// Reads turn by turn up to where it ends. Answers the first fault of a turn, and else BadCharacter or Expected where
/// as many turns as there were tokens don't end it.
#[tactic(auto, unfolding(crate::specs::Cursors::turns_at))]
pub fn read_turns<T: Turns>(start: T, cursor: &mut Cursor<'_>) -> Result<T, ParseFault>
    ensures { Takes result cursor.new (turns_at T.done_at T.turn_at start cursor.old) }
{
    let mut state = start;
    for _turn in 0..cursor.rest().len() {
        if state.is_done(cursor) {
            return Ok(state);
        }
        state = state.turn(cursor)?;
    }
    if state.is_done(cursor) {
        return Ok(state);
    }
    Err(fault(cursor))
}
