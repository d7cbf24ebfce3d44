//! How many blocks each structure file has at a point.

ghost use Rattle.std.specs.Prelude.{◌≡◌, ◌⊎◌, ◌≤◌, ◌/◌, ◌+◌, ◌<◌, ◌^◌, [], ◌∷◌, ℕ, length, drop, slice_index_or, false, OnOk, IfOk, IfErr, IsErrOf, IsTrue};
ghost use Rattle.dms_site.specs.Files.{Files, range};
ghost use Rattle.dms_history.specs.Entries.{counts_in};
ghost use Rattle.dms_history.specs.Pick.{reached_count};
ghost use Rattle.dms_audrec.specs.Reading.{counts_at};
ghost use Rattle.dms_audrec.specs.Spelling.{counts_rise};
ghost use Rattle.dms_audfile.specs.Counting.{CountedAt};
ghost use Rattle.dms_audfile.specs.Reads.{ReadsAlone};
ghost use Rattle.dms_restore.specs.Counts.{count_of, AllAtMost};
ghost use Rattle.dms_opening.specs.PointCounts.{HasNoCounts, HasNoCount, IsNoCount, IsNoCountAmong};
ghost use Rattle.dms_restore.specs.LiveEntries.{events_at};
ghost use Rattle.dms_restore.specs.declared.live.LiveEntry.TheVariants.{Changed};

use dms_audfile::AudFault;
use dms_audrec::pair_at;
use dms_restore::{ControlAt, ImageAt, LiveEntry, is_control};
use dms_site::Site;
use std::alloc::Global;

/// No list of a Control has more bytes than a block of the audit.
const LIST_BYTES: usize = 4096;

/// No block of an audit file stands behind this position, which is 2 ^ 39.
const MOST_PLACE: u64 = 549_755_813_888;

/// Makes all counts of a table 0.
fn clear(counts: &mut [u32])
    ensures { (i : ℕ) → slice_index_or counts.new i 0 ≡ 0 }
{
    for count in counts.iter_mut() {
        *count = 0;
    }
}

/// Takes the counts that a Control's list says into a table of 200 files. Whether they are counts of structure files, rising.
fn take_counts(list: &[u8], counts: &mut [u32]) -> bool
    requires { length counts.old ≡ 200 }
    ensures rises { result ≡ counts_rise 30001 (counts_at (length list.now / 8) list.now) }
    ensures counts { IsTrue result → (f : ℕ) → count_of counts.new f ≡ counts_in (counts_at (length list.now / 8) list.now) f }
    ensures small { IsTrue result → AllAtMost counts.new }
{
    clear(counts);
    let mut low = 30_001;
    let mut rest = list;
    for _pair in 0..list.len() / 8 {
        let (file, blocks, after) = pair_at(rest);
        if file < low || file > 30_200 || blocks > 2_097_152 {
            return false;
        }
        counts[(file - 30_001) as usize] = blocks;
        low = file + 1;
        rest = after;
    }
    true
}

/// Reads the bytes of a Control's list. Whether all are there.
fn read_list<S: Site>(site: &mut S, control: &ControlAt, list: &mut [u8]) -> Result<bool, AudFault>
    requires { control.now.at + length list.old < 2 ^ 40 }
    ensures bytes { IfOk result (λ whole. IsTrue whole → IsTrue S.tells → list.new ≡ range control.now.at (length list.old) (S.files site.old control.now.audit)) }
    ensures short { IfOk result (λ whole. whole ≡ false → IsTrue S.tells → length (range control.now.at (length list.old) (S.files site.old control.now.audit)) < length list.old) }
    ensures only { IfErr result (λ e. e ≡ AudFault.Disk) }
    ensures reads { ReadsAlone S.Site site.old site.new }
    ensures same_site { S.same_site site.old site.new }
    ensures disk { CountedAt (IsErrOf result AudFault.Disk) (S.disk_faults site.old) (S.disk_faults site.new) }
{
    match site.read(control.audit, control.at, list) {
        Ok(read) => Ok(read == list.len()),
        Err(_) => Err(AudFault::Disk),
    }
}

/// Reads the counts of a Control into a table of 200 files.
///
/// Answers Disk where a call of the site failed, and Damaged where no such counts stand there.
fn read_counts<S: Site>(
    site: &mut S,
    control: &ControlAt,
    counts: &mut [u32],
) -> Result<(), AudFault>
    requires { length counts.old ≡ 200 }
    ensures counts { OnOk result (IsTrue S.tells → (f : ℕ)
        → count_of counts.new f ≡ counts_in (counts_at (control.now.size / 8) (range control.now.at control.now.size (S.files site.old control.now.audit))) f) }
    ensures small { OnOk result (AllAtMost counts.new) }
    ensures only { IfErr result (λ e. (e ≡ AudFault.Disk) ⊎ ((e ≡ AudFault.Damaged control.now.audit 0) × HasNoCounts S.tells (S.files site.old) control.now)) }
    ensures reads { ReadsAlone S.Site site.old site.new }
    ensures same_site { S.same_site site.old site.new }
    ensures disk { CountedAt (IsErrOf result AudFault.Disk) (S.disk_faults site.old) (S.disk_faults site.new) }
{
    let mut buffer = [0u8; LIST_BYTES];
    if usize::from(control.size) > LIST_BYTES || control.at > MOST_PLACE {
        return Err(AudFault::Damaged(control.audit, 0));
    }
    let list = &mut buffer[..usize::from(control.size)];
    match read_list(site, control, list) {
        Ok(true) => {}
        Ok(false) => return Err(AudFault::Damaged(control.audit, 0)),
        Err(fault) => return Err(fault),
    }
    if take_counts(list, counts) {
        Ok(())
    } else {
        Err(AudFault::Damaged(control.audit, 0))
    }
}

/// Raises the count of a file by a new block. Whether the Image is of a block of a structure file.
fn raise(counts: &mut [u32], image: &ImageAt) -> bool
    requires { length counts.old ≡ 200 }
    ensures raised { IsTrue result → (files : Files) (f : ℕ) → count_of counts.new f ≡ reached_count f (count_of counts.old f) (events_at files (Changed image.now ∷ [])) }
    ensures small { IsTrue result → AllAtMost counts.old → AllAtMost counts.new }
    ensures none { result ≡ false → HasNoCount image.now }
{
    if image.file <= 30_000 || image.file > 30_200 || image.block >= 2_097_152 {
        return false;
    }
    if image.is_new {
        let at = (image.file - 30_001) as usize;
        counts[at] = counts[at].max(image.block + 1);
    }
    true
}

/// Counts one more live entry.
fn count_entry<S: Site>(site: &mut S, entry: &LiveEntry, counts: &mut [u32]) -> Result<(), AudFault>
    requires { length counts.old ≡ 200 }
    ensures counts { OnOk result (IsTrue S.tells → (f : ℕ) → count_of counts.new f ≡ reached_count f (count_of counts.old f) (events_at (S.files site.old) (entry.now ∷ []))) }
    ensures small { OnOk result (AllAtMost counts.old → AllAtMost counts.new) }
    ensures only { IfErr result (λ e. (e ≡ AudFault.Disk) ⊎ IsNoCount S.tells (S.files site.old) entry.now e) }
    ensures reads { ReadsAlone S.Site site.old site.new }
    ensures same_site { S.same_site site.old site.new }
    ensures disk { CountedAt (IsErrOf result AudFault.Disk) (S.disk_faults site.old) (S.disk_faults site.new) }
{
    match entry {
        LiveEntry::Changed(image) => {
            if raise(counts, image) {
                Ok(())
            } else {
                Err(AudFault::Damaged(image.audit, 0))
            }
        }
        LiveEntry::Ranged(_) => Ok(()),
        LiveEntry::Quiet(_) => Ok(()),
        LiveEntry::Controlled(control) => read_counts(site, control, counts),
    }
}

/// How many entries stand before the last Control; none count where there is one.
fn counted_from(live: &[LiveEntry]) -> usize
    ensures within { result ≤ length live.now }
    ensures counts { (files : Files) (f : ℕ) → reached_count f 0 (events_at files live.now) ≡ reached_count f 0 (events_at files (drop result live.now)) }
{
    let mut from = 0;
    for (i, entry) in live.iter().enumerate() {
        if is_control(entry) {
            from = i;
        }
    }
    from
}

/// Counts some live entries, one after another.
fn count_all<S: Site>(site: &mut S, live: &[LiveEntry], counts: &mut [u32]) -> Result<(), AudFault>
    requires { length counts.old ≡ 200 }
    ensures counts { OnOk result (IsTrue S.tells → (f : ℕ) → count_of counts.new f ≡ reached_count f (count_of counts.old f) (events_at (S.files site.old) live.now)) }
    ensures small { OnOk result (AllAtMost counts.old → AllAtMost counts.new) }
    ensures only { IfErr result (λ e. (e ≡ AudFault.Disk) ⊎ IsNoCountAmong S.tells (S.files site.old) live.now e) }
    ensures reads { ReadsAlone S.Site site.old site.new }
    ensures same_site { S.same_site site.old site.new }
    ensures disk { CountedAt (IsErrOf result AudFault.Disk) (S.disk_faults site.old) (S.disk_faults site.new) }
{
    for entry in live {
        match count_entry(site, entry, counts) {
            Ok(()) => {}
            Err(fault) => return Err(fault),
        }
    }
    Ok(())
}

/// How many blocks each of the files 30,001 to 30,200 has after some live entries, in a table of 200 files.
///
/// Nothing changes. Answers Disk where a call of the site failed, Memory, and Damaged where an entry is an Image of no block of a
/// structure file, or a Control whose list isn't one of counts of structure files.
pub(crate) fn counts_after<S: Site>(
    alloc: Global,
    site: &mut S,
    live: &[LiveEntry],
) -> Result<Vec<u32>, AudFault>
    ensures counts { IfOk result (λ v. IsTrue S.tells → (f : ℕ) → count_of v.items f ≡ reached_count f 0 (events_at (S.files site.old) live.now)) }
    ensures size { IfOk result (λ v. length v.items ≡ 200) }
    ensures small { IfOk result (λ v. AllAtMost v.items) }
    ensures only { IfErr result (λ e. (e ≡ AudFault.Disk) ⊎ ((e ≡ AudFault.Memory) ⊎ IsNoCountAmong S.tells (S.files site.old) live.now e)) }
    ensures reads { ReadsAlone S.Site site.old site.new }
    ensures same_site { S.same_site site.old site.new }
    ensures disk { CountedAt (IsErrOf result AudFault.Disk) (S.disk_faults site.old) (S.disk_faults site.new) }
{
    let mut table = [0u32; 200];
    clear(&mut table);
    match count_all(site, &live[counted_from(live)..], &mut table) {
        Ok(()) => {}
        Err(fault) => return Err(fault),
    }
    match table.as_slice().to_vec(alloc) {
        Ok(counts) => Ok(counts),
        Err(_) => Err(AudFault::Memory),
    }
}
