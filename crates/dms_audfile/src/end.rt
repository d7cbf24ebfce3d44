//! Entries that wait at the end of an audit trail, and their block.

ghost use Rattle.std.specs.Prelude.{◌≡◌, ◌+◌, ◌-◌, ◌<◌, ◌≤◌, ◌++◌, ℕ, length, OnOk, IsTrue};
ghost use Rattle.dms_base.specs.Causes.{HasCause};
ghost use Rattle.dms_site.specs.Files.{Only};
ghost use Rattle.dms_audrec.specs.Spelling.{spelling, IsEntry};
ghost use Rattle.dms_audrec.specs.Seen.{entry_seen};
ghost use Rattle.dms_audfile.specs.Sealing.{GainsBlocks, LeavesBlocks};
ghost use Rattle.dms_audfile.specs.Ends.{unsealed_bytes, full_blocks, waiting_blocks, WritesAt, file_behind};

use crate::AuditEnd;
use crate::bytes::{fill_group, make_header, put_entry};
use crate::sealing::seal_blocks;
use dms_audrec::{Entry, length};
use dms_site::{Failed, Site};

impl AuditEnd {
    /// Puts an entry behind those that aren't sealed. Where it has no room in the block that is filled, this one waits as a full one, and the
    /// entry begins the next.
    pub(crate) fn hold(&mut self, entry: &Entry<'_>)
        requires entry { IsEntry (entry_seen entry.now) }
        requires size { length (spelling (entry_seen entry.now)) ≤ 4094 }
        requires room { 4094 < self.old.used + length (spelling (entry_seen entry.now)) → (self.old.full + 1 < 16) × (self.old.count + self.old.full + 1 < self.old.total) }
        requires allowed { self.old.file < 20000 }
        ensures held { self.old.used + length (spelling (entry_seen entry.now)) ≤ 4094 → (full_blocks self.new ≡ full_blocks self.old) × (unsealed_bytes self.new ≡ unsealed_bytes self.old ++ spelling (entry_seen entry.now)) }
        ensures begun { 4094 < self.old.used + length (spelling (entry_seen entry.now))
            → (full_blocks self.new ≡ waiting_blocks self.old) × (unsealed_bytes self.new ≡ spelling (entry_seen entry.now)) }
        ensures some { 0 < self.new.used }
        ensures place { (self.new.file ≡ self.old.file) × (self.new.count ≡ self.old.count) }
        ensures kind { (self.new.total ≡ self.old.total) × (self.new.tag ≡ self.old.tag) × (self.new.limit ≡ self.old.limit) }
    {
        if usize::from(self.used) + length(entry) > 4094 {
            fill_group(&mut self.block, &mut self.group, self.full, self.used);
            let taken = put_entry(&mut self.block, 2, entry);
            self.full += 1;
            self.used = taken as u16;
        } else {
            let at = 2 + usize::from(self.used);
            let taken = put_entry(&mut self.block, at, entry);
            self.used += taken as u16;
        }
    }

    /// Seals the entries that wait: the full blocks, and the one that is filled.
    pub(crate) fn seal_group<S: Site>(&mut self, site: &mut S) -> Result<(), Failed>
        requires allowed { self.old.file < 20000 }
        ensures moments { LeavesBlocks S.tells self.old.total self.old.tag self.old.file self.old.count (waiting_blocks self.old) (S.files site.old) (S.clock site.old) (S.clock site.new) }
        ensures sealed { OnOk result (GainsBlocks S.tells self.old.total self.old.tag self.old.file self.old.count (waiting_blocks self.old) (S.files site.old) (S.files site.new)) }
        ensures writes { OnOk result ((first : ℕ) → IsTrue S.tells → WritesAt self.old first (S.files site.old) → WritesAt self.new first (S.files site.new)) }
        ensures before { OnOk result (IsTrue S.tells → (g : ℕ) → g < self.old.file → S.files site.new g ≡ S.files site.old g) }
        ensures behind { OnOk result (IsTrue S.tells → (g : ℕ) → self.new.file < g → S.files site.new g ≡ S.files site.old g) }
        ensures place { (self.old.file ≤ self.new.file) × (self.new.file ≤ self.old.file + 1) }
        ensures durable { OnOk result (IsTrue S.tells → Only (S.files site.new) (S.clock site.new)) }
        ensures empty { OnOk result ((self.new.used ≡ 0) × (self.new.full ≡ 0)) }
        ensures next { OnOk result (self.new.file ≡ file_behind self.old) }
        ensures kind { (self.new.total ≡ self.old.total) × (self.new.tag ≡ self.old.tag) × (self.new.limit ≡ self.old.limit) }
        ensures said { S.said site.new ≡ S.said site.old }
        ensures same_site { S.same_site site.old site.new }
        ensures faults { HasCause (S.disk_faults site.old) (S.disk_faults site.new) result }
        ensures say_faults { S.say_faults site.new ≡ S.say_faults site.old }
    {
        fill_group(&mut self.block, &mut self.group, self.full, self.used);
        make_header(
            &mut self.head,
            self.file - 9999,
            self.total as u16,
            self.tag,
        );
        let blocks = self.full + 1;
        seal_blocks(
            site,
            self.file,
            self.total,
            self.count,
            blocks,
            &self.group,
            &self.head,
        )?;
        self.used = 0;
        self.full = 0;
        if self.count + blocks == self.total {
            self.file += 1;
            self.count = 0;
        } else {
            self.count += blocks;
        }
        Ok(())
    }
}
