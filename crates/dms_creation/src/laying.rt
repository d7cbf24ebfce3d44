//! The first entries of a new audit trail.

ghost use Rattle.std.specs.Prelude.{◌≡◌, ◌+◌, ◌*◌, ◌/◌, ◌<◌, ◌≤◌, ◌++◌, [], ◌∷◌, length, take, drop, false, OnOk, IsTrue};
ghost use Rattle.dms_base.specs.Causes.{HasCause};
ghost use Rattle.dms_moments.specs.Moments.{Steps};
ghost use Rattle.dms_site.specs.Files.{Files, Only};
ghost use Rattle.dms_history.specs.Entries.{is_begin};
ghost use Rattle.dms_history.specs.Schemas.{schema_entries};
ghost use Rattle.dms_audrec.specs.Reading.{counts_at};
ghost use Rattle.dms_audrec.specs.Spelling.{spelling, IsEntry, IsControl};
ghost use Rattle.dms_audrec.specs.Seen.{entry_seen};
ghost use Rattle.dms_creation.specs.Clearing.{KeepsApart, IsClear, ApartStay};
ghost use Rattle.dms_audrec.specs.Bodies.{part_count, bodies};
ghost use Rattle.dms_creation.specs.FirstEntries.{schema_control};
ghost use Rattle.dms_creation.specs.Laid.{Laid, AtLaid};
ghost use Rattle.dms_creation.specs.Creation.{IsFirstTrail};

use dms_audfile::AuditEnd;
use dms_audrec::Entry;
use dms_site::{Failed, Site};

/// Appends an entry to a new trail, which is far from its limit.
fn lay_entry<S: Site>(end: &mut AuditEnd, site: &mut S, entry: &Entry<'_>) -> Result<(), Failed>
    requires entry { IsEntry (entry_seen entry.now) }
    requires size { length (spelling (entry_seen entry.now)) ≤ 4094 }
    requires plain { is_begin (entry_seen entry.now) ≡ false }
    requires near { end.old.file ≤ 15000 }
    requires limit { end.old.limit ≡ 9999 }
    ensures moments { AtLaid end.old S.tells (S.files site.old) (S.clock site.old) (λ entries old. Steps KeepsApart (S.clock site.old) (S.clock site.new)) }
    ensures laid { OnOk result (AtLaid end.old S.tells (S.files site.old) (S.clock site.old) (λ entries old. Laid end.new (entries ++ entry_seen entry.now ∷ []) old (S.files site.new) (S.clock site.new))) }
    ensures kind { (end.new.total ≡ end.old.total) × (end.new.tag ≡ end.old.tag) × (end.new.limit ≡ end.old.limit) }
    ensures waits { OnOk result (0 < end.new.used) }
    ensures place { end.new.file ≤ end.old.file + 2 }
    ensures said { S.said site.new ≡ S.said site.old }
    ensures same_site { S.same_site site.old site.new }
    ensures faults { HasCause (S.disk_faults site.old) (S.disk_faults site.new) result }
    ensures say_faults { S.say_faults site.new ≡ S.say_faults site.old }
{
    match end.append(site, entry) {
        Ok(()) => Ok(()),
        Err(_) => Err(Failed),
    }
}

/// The bytes of part `number`, from 0, of a description in so many parts.
fn part_of(bytes: &[u8], number: usize, count: usize) -> &[u8]
    requires few { length bytes.now ≤ 65535 }
    requires count { count ≡ part_count (length bytes.now) }
    requires within { number < count }
    ensures part { result.now ≡ take 4000 (drop (4000 * number) bytes.now) }
    ensures short { length result.now ≤ 4000 }
    ensures whole { number + 1 < count → length result.now ≡ 4000 }
{
    let start = 4000 * number;
    if number + 1 == count {
        &bytes[start..]
    } else {
        &bytes[start..start + 4000]
    }
}

/// Appends all parts of a description to a new trail.
fn lay_parts<S: Site>(end: &mut AuditEnd, site: &mut S, bytes: &[u8]) -> Result<(), Failed>
    requires few { length bytes.now ≤ 65535 }
    requires near { end.old.file ≤ 10001 }
    requires limit { end.old.limit ≡ 9999 }
    ensures moments { IsTrue S.tells → (old : Files) → Laid end.old [] old (S.files site.old) (S.clock site.old)
        → Steps KeepsApart (S.clock site.old) (S.clock site.new) }
    ensures laid { OnOk result (IsTrue S.tells → (old : Files) → Laid end.old [] old (S.files site.old) (S.clock site.old)
        → Laid end.new (schema_entries (bodies bytes.now)) old (S.files site.new) (S.clock site.new)) }
    ensures kind { (end.new.total ≡ end.old.total) × (end.new.tag ≡ end.old.tag) × (end.new.limit ≡ end.old.limit) }
    ensures place { end.new.file ≤ 10100 }
    ensures said { S.said site.new ≡ S.said site.old }
    ensures same_site { S.same_site site.old site.new }
    ensures faults { HasCause (S.disk_faults site.old) (S.disk_faults site.new) result }
    ensures say_faults { S.say_faults site.new ≡ S.say_faults site.old }
{
    let count = (bytes.len() + 3999) / 4000;
    for number in 0..count {
        let part = part_of(bytes, number, count);
        lay_entry(
            end,
            site,
            &Entry::Schema(number as u16 + 1, count as u16, part),
        )?;
    }
    Ok(())
}

/// Makes the first audit file, and seals a description and the control point 0 in the trail that begins with it.
pub(crate) fn lay_trail<S: Site>(
    end: &mut AuditEnd,
    site: &mut S,
    bytes: &[u8],
    counts: &[u8],
) -> Result<(), Failed>
    requires few { length bytes.now ≤ 65535 }
    requires low { 8 ≤ end.old.total }
    requires limit { end.old.limit ≡ 9999 }
    requires front { end.old.file ≡ 10001 }
    requires none { end.old.count ≡ 0 }
    requires empty { end.old.used ≡ 0 }
    requires control { IsControl 0 1 (counts_at (length counts.now / 8) counts.now) }
    requires size { length counts.now ≤ 1600 }
    ensures moments { IsTrue S.tells → IsClear (S.files site.old) → Steps KeepsApart (S.clock site.old) (S.clock site.new) }
    ensures stands { OnOk result (IsTrue S.tells → IsClear (S.files site.old)
        → IsFirstTrail end.old.tag end.old.total (schema_control bytes.now counts.now) (S.files site.new)) }
    ensures apart { OnOk result (IsTrue S.tells → IsClear (S.files site.old) → ApartStay (S.files site.old) (S.files site.new)) }
    ensures durable { OnOk result (IsTrue S.tells → Only (S.files site.new) (S.clock site.new)) }
    ensures said { S.said site.new ≡ S.said site.old }
    ensures same_site { S.same_site site.old site.new }
    ensures faults { HasCause (S.disk_faults site.old) (S.disk_faults site.new) result }
    ensures say_faults { S.say_faults site.new ≡ S.say_faults site.old }
{
    end.start(site)?;
    lay_parts(end, site, bytes)?;
    lay_entry(end, site, &Entry::Control(0, 1, counts))?;
    match end.seal(site) {
        Ok(()) => Ok(()),
        Err(_) => Err(Failed),
    }
}
