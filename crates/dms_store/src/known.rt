ghost use Rattle.std.specs.Prelude.{◌≡◌, slice_set};
ghost use Rattle.dms_store.specs.Taken.{Learns, Lowers, StaysKnown, none_known, taken_of};

use dms_block::BlockFault;
use dms_model::Put;

/// Of each structure how many record numbers, from 1 on, are known to be taken. A description has at most 200.
#[derive(Drop)]
pub struct Known {
    pub counts: [u64; 201],
    /// What was known at the last quiet point.
    pub marked: [u64; 201],
}

impl Known {
    /// Nothing is known yet.
    pub fn nothing() -> Known
        ensures counts { result.counts ≡ none_known }
        ensures marked { result.marked ≡ none_known }
    {
        Known {
            counts: [0; 201],
            marked: [0; 201],
        }
    }

    /// How many numbers of a structure are known to be taken.
    pub fn of(&self, structure: u16) -> u64
        ensures { result ≡ taken_of self.now.counts structure }
    {
        match self.counts.get(structure as usize) {
            None => 0,
            Some(taken) => *taken,
        }
    }

    // Nothing is known any more.
    fn forget(&mut self)
        ensures counts { self.new.counts ≡ none_known }
        ensures marked { self.new.marked ≡ none_known }
    {
        self.counts = [0; 201];
        self.marked = [0; 201];
    }

    // So many numbers of a structure are known to be taken.
    fn learn(&mut self, structure: u16, taken: u64)
        ensures counts { self.new.counts ≡ slice_set self.old.counts structure taken }
        ensures marked { self.new.marked ≡ self.old.marked }
    {
        let at = structure as usize;
        if at < 201 {
            self.counts[at] = taken;
        }
    }

    /// After a call that changes no slot: what is known stays so, but for a fault.
    pub fn keep<T>(&mut self, answer: &Result<T, BlockFault>)
        ensures counts { StaysKnown answer.now self.old.counts self.new.counts }
        ensures marked { StaysKnown answer.now self.old.marked self.new.marked }
    {
        if answer.is_err() {
            self.forget();
        }
    }

    /// After a quiet point was to be made.
    pub fn mark(&mut self, answer: &Result<u64, BlockFault>)
        ensures counts { StaysKnown answer.now self.old.counts self.new.counts }
        ensures marked { StaysKnown answer.now self.old.counts self.new.marked }
    {
        match answer {
            Err(_) => self.forget(),
            Ok(_) => self.marked = self.counts,
        }
    }

    /// After a way back to the last quiet point.
    pub fn go_back(&mut self, answer: &Result<(), BlockFault>)
        ensures counts { StaysKnown answer.now self.old.marked self.new.counts }
        ensures marked { StaysKnown answer.now self.old.marked self.new.marked }
    {
        match answer {
            Err(_) => self.forget(),
            Ok(_) => self.counts = self.marked,
        }
    }

    /// After a record was to be stored: the numbers before that of a new one are taken.
    pub fn note_put(&mut self, set: u16, number: Option<u64>, answer: &Result<Put, BlockFault>)
        ensures counts { Learns set number answer.now self.old.counts self.new.counts }
        ensures marked { StaysKnown answer.now self.old.marked self.new.marked }
    {
        match answer {
            Err(_) => self.forget(),
            Ok(Put::Stored(stored)) => {
                if number.is_none() {
                    self.learn(set, stored.saturating_sub(1));
                }
            }
            Ok(Put::Duplicate(_)) => {}
            Ok(Put::Full) => {}
        }
    }

    /// After a record was to be removed: its number may be free.
    pub fn note_gone(&mut self, set: u16, number: u64, answer: &Result<bool, BlockFault>)
        ensures counts { Lowers set number answer.now self.old.counts self.new.counts }
        ensures marked { StaysKnown answer.now self.old.marked self.new.marked }
    {
        match answer {
            Err(_) => self.forget(),
            Ok(_done) => {
                let taken = self.of(set).min(number.saturating_sub(1));
                self.learn(set, taken);
            }
        }
    }
}
