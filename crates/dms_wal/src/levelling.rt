//! A control point that makes a point, under another description.

ghost use Rattle.std.specs.Prelude.{◌≡◌, ◌⊎◌, ◌+◌, ◌++◌, [], ◌∷◌, IfErr, IfOk, IsErrOf, IsTrue, OnOk};
ghost use Rattle.dms_block.specs.Held.{HasCauses, HasNextNumber, IfTold, Leaves};
ghost use Rattle.dms_restore.specs.Logging.{Ends, trail_of};
ghost use Rattle.dms_restore.specs.Views.{view_of};
ghost use Rattle.dms_wal.specs.Controls.{IsSettled};
ghost use Rattle.dms_wal.specs.Database.{running_held};
ghost use Rattle.dms_wal.specs.Faults.{StandsFull};
ghost use Rattle.dms_wal.specs.Growing.{TrailGrows};
ghost use Rattle.dms_wal.specs.LevelPoints.{level_of, MakesLevel};
ghost use Rattle.dms_wal.specs.Marks.{IsDescription};

use crate::Running;
use crate::faults::append_fault;
use dms_block::BlockFault;
use dms_restore::count_bytes;
use dms_site::Site;

impl<S: Site> Running<S> {
    /// Seals the Schema of another description and a Control of the next number. Each block is written and stable.
    fn seal_level(&mut self, schema: &[u8]) -> Result<u64, BlockFault>
        requires sound { (running_held S.Site self.old).sound }
        requires described { IsDescription schema.now }
        requires settled { IsTrue S.tells → IsSettled (view_of S.Site self.old.log) }
        ensures number { IfOk result (λ n. n ≡ self.old.next) }
        ensures level { OnOk result (IsTrue S.tells → MakesLevel (view_of S.Site self.old.log) (view_of S.Site self.new.log) schema.now self.old.counts.items) }
        ensures leaves { let a = running_held S.Site self.old in IfTold a (Leaves a (running_held S.Site self.new) (a.points ++ level_of a schema.now ∷ []) (a.next + 1)) }
        ensures memory { HasNextNumber (running_held S.Site self.old) → IsErrOf result BlockFault.Memory → ⊥ }
        ensures only { IfErr result (λ e. (e ≡ BlockFault.Disk) ⊎ ((e ≡ BlockFault.Memory) ⊎ (e ≡ BlockFault.Full self.old.log.end.limit))) }
        ensures full { (n : _) → IsErrOf result (BlockFault.Full n) → StandsFull self.new.log.end n }
        ensures ends { (n : _) → IsErrOf result (BlockFault.Full n) → IsTrue S.tells → Ends (view_of S.Site self.new.log) }
        ensures causes { HasCauses result (running_held S.Site self.old) (running_held S.Site self.new) }
        ensures silent { IsErrOf result BlockFault.Say → ⊥ }
        ensures said { (running_held S.Site self.new).said ≡ (running_held S.Site self.old).said }
        ensures kind { trail_of (view_of S.Site self.new.log) ≡ trail_of (view_of S.Site self.old.log) }
        ensures grown { TrailGrows S.Site 18 self.old self.new }
        ensures same { S.same_site self.old.log.site self.new.log.site }
    {
        let number = self.next;
        self.broken = true;
        if number == u64::MAX {
            return Err(BlockFault::Memory);
        }
        let mut room = [0u8; 1600];
        let used = count_bytes(&self.counts, &mut room);
        match self.log.level(schema, number, &room[..used]) {
            Ok(()) => Ok(number),
            Err(fault) => Err(append_fault(fault, &mut self.full)),
        }
    }

    /// Makes a point with the content of now under another description, and answers its number: writes each changed block, syncs, and then seals
    /// the whole Schema and a Control of the next number. Takes no memory. After it the object is only taken apart.
    ///
    /// Answers Memory where there is no next number, Disk, and Full where the audit has no room: then no point was made.
    pub fn level(&mut self, schema: &[u8]) -> Result<u64, BlockFault>
        requires sound { (running_held S.Site self.old).sound }
        requires described { IsDescription schema.now }
        ensures number { IfOk result (λ n. n ≡ self.old.next) }
        ensures level { OnOk result (IsTrue S.tells → MakesLevel (view_of S.Site self.old.log) (view_of S.Site self.new.log) schema.now self.old.counts.items) }
        ensures leaves { let a = running_held S.Site self.old in IfTold a (Leaves a (running_held S.Site self.new) (a.points ++ level_of a schema.now ∷ []) (a.next + 1)) }
        ensures memory { HasNextNumber (running_held S.Site self.old) → IsErrOf result BlockFault.Memory → ⊥ }
        ensures only { IfErr result (λ e. (e ≡ BlockFault.Disk) ⊎ ((e ≡ BlockFault.Memory) ⊎ (e ≡ BlockFault.Full self.old.log.end.limit))) }
        ensures full { (n : _) → IsErrOf result (BlockFault.Full n) → StandsFull self.new.log.end n }
        ensures ends { (n : _) → IsErrOf result (BlockFault.Full n) → IsTrue S.tells → Ends (view_of S.Site self.new.log) }
        ensures causes { HasCauses result (running_held S.Site self.old) (running_held S.Site self.new) }
        ensures silent { IsErrOf result BlockFault.Say → ⊥ }
        ensures said { (running_held S.Site self.new).said ≡ (running_held S.Site self.old).said }
        ensures kind { trail_of (view_of S.Site self.new.log) ≡ trail_of (view_of S.Site self.old.log) }
        ensures grown { TrailGrows S.Site 18 self.old self.new }
        ensures same { S.same_site self.old.log.site self.new.log.site }
    {
        let settled = self.settle();
        match settled {
            Ok(()) => {}
            Err(fault) => return Err(fault),
        }
        self.seal_level(schema)
    }
}
