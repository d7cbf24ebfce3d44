//! Blocks that are sealed as they stand.

ghost use Rattle.std.specs.Prelude.{◌≡◌, ◌+◌, ◌*◌, ◌<◌, ◌≤◌, ℕ, length, OnOk, IsTrue};
ghost use Rattle.dms_base.specs.Causes.{HasCause};
ghost use Rattle.dms_site.specs.Files.{Only};
ghost use Rattle.dms_audfile.specs.Gates.{blocks_from};
ghost use Rattle.dms_audfile.specs.Sealing.{GainsBlocks, LeavesBlocks};
ghost use Rattle.dms_audfile.specs.Ends.{WritesAt};

use crate::AuditEnd;
use crate::bytes::make_header;
use crate::sealing::seal_blocks;
use dms_site::{Failed, Site};

impl AuditEnd {
    /// Seals blocks as they stand, one behind the other, in the file that is written. No entry may wait. It takes no memory.
    ///
    /// A stop at any moment leaves the trail of before, and the first so many of them behind it.
    pub fn put_blocks<S: Site>(
        &mut self,
        site: &mut S,
        blocks: u32,
        contents: &[u8],
    ) -> Result<(), Failed>
        requires some { 0 < blocks }
        requires size { 4096 * blocks ≤ length contents.now }
        requires room { self.old.count + blocks ≤ self.old.total }
        requires empty { self.old.used ≡ 0 }
        requires allowed { self.old.file < 20000 }
        ensures moments { LeavesBlocks S.tells self.old.total self.old.tag self.old.file self.old.count (blocks_from blocks 0 contents.now) (S.files site.old) (S.clock site.old) (S.clock site.new) }
        ensures sealed { OnOk result (GainsBlocks S.tells self.old.total self.old.tag self.old.file self.old.count (blocks_from blocks 0 contents.now) (S.files site.old) (S.files site.new)) }
        ensures writes { OnOk result ((first : ℕ) → IsTrue S.tells → WritesAt self.old first (S.files site.old) → WritesAt self.new first (S.files site.new)) }
        ensures before { OnOk result (IsTrue S.tells → (g : ℕ) → g < self.old.file → S.files site.new g ≡ S.files site.old g) }
        ensures behind { OnOk result (IsTrue S.tells → (g : ℕ) → self.old.file + 1 < g → S.files site.new g ≡ S.files site.old g) }
        ensures place { (self.old.file ≤ self.new.file) × (self.new.file ≤ self.old.file + 1) }
        ensures durable { OnOk result (IsTrue S.tells → Only (S.files site.new) (S.clock site.new)) }
        ensures empty { (self.new.used ≡ 0) × (self.new.full ≡ self.old.full) }
        ensures kind { (self.new.total ≡ self.old.total) × (self.new.tag ≡ self.old.tag) × (self.new.limit ≡ self.old.limit) }
        ensures said { S.said site.new ≡ S.said site.old }
        ensures same_site { S.same_site site.old site.new }
        ensures faults { HasCause (S.disk_faults site.old) (S.disk_faults site.new) result }
        ensures say_faults { S.say_faults site.new ≡ S.say_faults site.old }
    {
        make_header(
            &mut self.head,
            self.file - 9999,
            self.total as u16,
            self.tag,
        );
        seal_blocks(
            site, self.file, self.total, self.count, blocks, contents, &self.head,
        )?;
        if self.count + blocks == self.total {
            self.file += 1;
            self.count = 0;
        } else {
            self.count += blocks;
        }
        Ok(())
    }
}
