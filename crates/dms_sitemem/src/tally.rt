ghost use Rattle.std.specs.Prelude.{◌≡◌, ◌≤◌, ◌+◌, ◌-◌, ◌^◌, min, nat_lt, if◌then◌else◌, OnOk, OnErr};
ghost use Rattle.dms_base.specs.Causes.{Rose, HasCause};
ghost use Rattle.dms_sitemem.specs.Plans.{Succeeded, Failing};

use dms_site::Failed;
use std::alloc::AllocError;

/// How often calls failed, how often for want of memory, and how much was read of structure files. Each count stays at 2^64 - 1.
#[derive(Drop)]
pub struct Tally {
    pub disk_faults: u64,
    pub say_faults: u64,
    /// The failures for want of memory, counted above too.
    pub refused: u64,
    /// The number of bytes that reads of files above 30,000 gave.
    pub given: u64,
}

impl Tally {
    /// Nothing was counted.
    pub fn new() -> Tally
        ensures disk_faults { result.disk_faults ≡ 0 }
        ensures say_faults { result.say_faults ≡ 0 }
        ensures refused { result.refused ≡ 0 }
        ensures given { result.given ≡ 0 }
    {
        Tally {
            disk_faults: 0,
            say_faults: 0,
            refused: 0,
            given: 0,
        }
    }

    /// Counts how a call on the files ended. Answers Err where the call failed by plan or memory was refused.
    pub fn of_disk(&mut self, kept: Result<bool, AllocError>) -> Result<(), Failed>
        ensures done { OnOk result (Succeeded kept) }
        ensures failed { OnErr result (Failing kept) }
        ensures faults { HasCause self.old.disk_faults self.new.disk_faults result }
        ensures say_faults { self.new.say_faults ≡ self.old.say_faults }
        ensures refused { OnErr kept (Rose self.old.refused self.new.refused) }
        ensures later { self.old.refused ≤ self.new.refused }
        ensures given { self.new.given ≡ self.old.given }
    {
        match kept {
            Ok(true) => return Ok(()),
            Ok(false) => {}
            Err(_) => self.refused = self.refused.saturating_add(1),
        }
        self.disk_faults = self.disk_faults.saturating_add(1);
        Err(Failed)
    }

    /// Counts how a call that prints ended. Answers Err where the call failed by plan or memory was refused.
    pub fn of_say(&mut self, kept: Result<bool, AllocError>) -> Result<(), Failed>
        ensures done { OnOk result (Succeeded kept) }
        ensures failed { OnErr result (Failing kept) }
        ensures faults { HasCause self.old.say_faults self.new.say_faults result }
        ensures disk_faults { self.new.disk_faults ≡ self.old.disk_faults }
        ensures refused { OnErr kept (Rose self.old.refused self.new.refused) }
        ensures later { self.old.refused ≤ self.new.refused }
        ensures given { self.new.given ≡ self.old.given }
    {
        match kept {
            Ok(true) => return Ok(()),
            Ok(false) => {}
            Err(_) => self.refused = self.refused.saturating_add(1),
        }
        self.say_faults = self.say_faults.saturating_add(1);
        Err(Failed)
    }

    /// Counts what a read gave.
    pub fn gave(&mut self, file: u32, count: usize)
        ensures given { self.new.given ≡ (if nat_lt 30000 file then min (self.old.given + count) (2 ^ 64 - 1) else self.old.given) }
        ensures disk_faults { self.new.disk_faults ≡ self.old.disk_faults }
        ensures say_faults { self.new.say_faults ≡ self.old.say_faults }
        ensures refused { self.new.refused ≡ self.old.refused }
    {
        if file > 30000 {
            self.given = self.given.saturating_add(count as u64);
        }
    }
}
