//! The end of a trail, read from one of its blocks on.

ghost use Rattle.std.specs.Prelude.{◌≡◌, ◌≤◌, IfOk, IfErr, IsErrOf, IsTrue};
ghost use Rattle.dms_audfile.specs.Counting.{CountedAt};
ghost use Rattle.dms_audfile.specs.Reads.{NotRead, ReadsAlone};
ghost use Rattle.dms_audfile.specs.Tails.{sealed_in, tail_read, ReadsPlaces};

use crate::gathered::Gathered;
use crate::scanning::{read_blocks, read_files};
use crate::{AudFault, AuditEnd, EntryPlace};
use dms_site::Site;
use std::alloc::Global;

impl AuditEnd {
    /// How many blocks are sealed of a file of the trail, by its number as a file.
    pub fn sealed_in(&self, file: u32) -> u32
        ensures { result ≡ sealed_in self.now.total self.now.file self.now.count file }
    {
        if file == self.file {
            self.count
        } else {
            self.total
        }
    }

    /// Where the entries begin that stand in the trail from a block of a file on, by its number as a file; 1 is its first block. Reads
    /// these blocks alone, and the headers of the files behind that one.
    ///
    /// Nothing changes. Answers Disk where a call of the site failed, Memory, and Damaged where a block or a header isn't in its grammar.
    pub fn places_from<S: Site>(
        &self,
        alloc: Global,
        site: &mut S,
        file: u32,
        block: u32,
    ) -> Result<Vec<EntryPlace>, AudFault>
        requires low { 10001 ≤ file }
        requires order { file ≤ self.now.file }
        ensures read { IfOk result (λ v. IsTrue S.tells → ReadsPlaces (tail_read self.now.total self.now.file self.now.count file block (S.files site.old)) v.items) }
        ensures refused { IfErr result (λ e. IsTrue S.tells → NotRead (tail_read self.now.total self.now.file self.now.count file block (S.files site.old)) e) }
        ensures reads { ReadsAlone S.Site site.old site.new }
        ensures same_site { S.same_site site.old site.new }
        ensures disk { CountedAt (IsErrOf result AudFault.Disk) (S.disk_faults site.old) (S.disk_faults site.new) }
    {
        let mut buffer = match Vec::from_elem(alloc, 0u8, 4096) {
            Ok(buffer) => buffer,
            Err(_) => return Err(AudFault::Memory),
        };
        let mut known = Gathered::new(alloc);
        let count = self.sealed_in(file);
        match read_blocks(site, file, block, count, &mut buffer, &mut known) {
            Ok(()) => {}
            Err(fault) => return Err(fault),
        }
        match read_files(
            site,
            file + 1,
            self.file + 1,
            self.total,
            &mut buffer,
            &mut known,
        ) {
            Ok(()) => Ok(known.places),
            Err(fault) => Err(fault),
        }
    }
}
