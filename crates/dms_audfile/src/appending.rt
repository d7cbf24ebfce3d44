//! Entries that are appended to an audit trail, and sealed.

ghost use Rattle.std.specs.Prelude.{◌≡◌, ◌⊎◌, ◌+◌, ◌<◌, ◌≤◌, ◌==◌, ◌&&◌, ◌||◌, nat_lt, true, false, ◌++◌, [], ◌∷◌, ℕ, length, OnOk, IfErr, IsTrue, IsErrOf};
ghost use Rattle.dms_base.specs.Causes.{HasCause};
ghost use Rattle.dms_moments.specs.Moments.{Steps};
ghost use Rattle.dms_site.specs.Files.{Only};
ghost use Rattle.dms_history.specs.Entries.{is_begin};
ghost use Rattle.dms_audrec.specs.Spelling.{spelling, IsEntry};
ghost use Rattle.dms_audrec.specs.Seen.{entry_seen};
ghost use Rattle.dms_audfile.specs.Ends.{EndsAt, AtEnd, AtPlainEnd, GainsEntries, Seals, SealsAll, Appends, Grown, next_file, is_past};
ghost use Rattle.dms_audfile.specs.Counting.{CountedAt};

use crate::{AudFault, AuditEnd};
use dms_audrec::{Entry, length};
use dms_site::Site;

impl AuditEnd {
    /// Seals the entries that wait, as one block; where none waits nothing is done.
    ///
    /// A stop at any moment leaves a trail of the same kind, which holds the old entries, and those that wait or none of
    /// them. Answers Disk alone, where a call of the site failed.
    pub fn seal<S: Site>(&mut self, site: &mut S) -> Result<(), AudFault>
        ensures moments { AtEnd self.old S.tells (S.files site.old) (S.clock site.old) (λ first waiting. Steps (Seals self.old.total self.old.tag first waiting) (S.clock site.old) (S.clock site.new)) }
        ensures sealed { OnOk result (AtEnd self.old S.tells (S.files site.old) (S.clock site.old) (λ first waiting. GainsEntries self.old.total first waiting (S.files site.old) (S.files site.new))) }
        ensures ends { OnOk result (AtEnd self.old S.tells (S.files site.old) (S.clock site.old) (λ first waiting. EndsAt self.new first [] (S.files site.new) (S.clock site.new))) }
        ensures durable { OnOk result (0 < self.old.used → IsTrue S.tells → Only (S.files site.new) (S.clock site.new)) }
        ensures empty { OnOk result (self.new.used ≡ 0) }
        ensures next { OnOk result (self.new.file ≡ next_file self.old) }
        ensures grown { OnOk result (AtEnd self.old S.tells (S.files site.old) (S.clock site.old) (λ first waiting. Grown self.old.total first (S.files site.old) (S.files site.new))) }
        ensures before { OnOk result (IsTrue S.tells → (g : ℕ) → g < self.old.file → S.files site.new g ≡ S.files site.old g) }
        ensures behind { OnOk result (IsTrue S.tells → (g : ℕ) → self.new.file < g → S.files site.new g ≡ S.files site.old g) }
        ensures place { (self.old.file ≤ self.new.file) × (self.new.file ≤ self.old.file + 1) }
        ensures idle { self.old.used ≡ 0 → (self.new ≡ self.old) × (site.new ≡ site.old) }
        ensures kind { (self.new.total ≡ self.old.total) × (self.new.tag ≡ self.old.tag) × (self.new.limit ≡ self.old.limit) }
        ensures only { IfErr result (λ e. e ≡ AudFault.Disk) }
        ensures said { S.said site.new ≡ S.said site.old }
        ensures same_site { S.same_site site.old site.new }
        ensures faults { HasCause (S.disk_faults site.old) (S.disk_faults site.new) result }
        ensures say_faults { S.say_faults site.new ≡ S.say_faults site.old }
    {
        if self.used == 0 {
            return Ok(());
        }
        match self.seal_group(site) {
            Ok(()) => Ok(()),
            Err(_) => Err(AudFault::Disk),
        }
    }

    /// Seals the entries that wait where that is needed.
    fn seal_where<S: Site>(&mut self, site: &mut S, needed: bool) -> Result<(), AudFault>
        ensures moments { AtEnd self.old S.tells (S.files site.old) (S.clock site.old) (λ first waiting. Steps (Seals self.old.total self.old.tag first waiting) (S.clock site.old) (S.clock site.new)) }
        ensures sealed { OnOk result (IsTrue needed → AtEnd self.old S.tells (S.files site.old) (S.clock site.old) (λ first waiting. GainsEntries self.old.total first waiting (S.files site.old) (S.files site.new))) }
        ensures ends { OnOk result (IsTrue needed → AtEnd self.old S.tells (S.files site.old) (S.clock site.old) (λ first waiting. EndsAt self.new first [] (S.files site.new) (S.clock site.new))) }
        ensures empty { OnOk result (IsTrue needed → self.new.used ≡ 0) }
        ensures next { OnOk result (IsTrue needed → self.new.file ≡ next_file self.old) }
        ensures grown { OnOk result (AtEnd self.old S.tells (S.files site.old) (S.clock site.old) (λ first waiting. Grown self.old.total first (S.files site.old) (S.files site.new))) }
        ensures before { OnOk result (IsTrue S.tells → (g : ℕ) → g < self.old.file → S.files site.new g ≡ S.files site.old g) }
        ensures behind { OnOk result (IsTrue S.tells → (g : ℕ) → self.new.file < g → S.files site.new g ≡ S.files site.old g) }
        ensures place { (self.old.file ≤ self.new.file) × (self.new.file ≤ self.old.file + 1) }
        ensures idle { needed ≡ false → (self.new ≡ self.old) × (site.new ≡ site.old) }
        ensures kind { (self.new.total ≡ self.old.total) × (self.new.tag ≡ self.old.tag) × (self.new.limit ≡ self.old.limit) }
        ensures only { IfErr result (λ e. e ≡ AudFault.Disk) }
        ensures said { S.said site.new ≡ S.said site.old }
        ensures same_site { S.same_site site.old site.new }
        ensures faults { HasCause (S.disk_faults site.old) (S.disk_faults site.new) result }
        ensures say_faults { S.say_faults site.new ≡ S.say_faults site.old }
    {
        if needed { self.seal(site) } else { Ok(()) }
    }

    /// Whether a block would have to be begun behind the last file that may be written.
    fn is_full(&self) -> bool
        ensures { result ≡ (self.now.used == 0 && nat_lt (10000 + self.now.limit) self.now.file) }
    {
        self.used == 0 && self.file > 10000 + self.limit
    }

    /// Whether one more block may wait behind those that do: in the same file, in the group, and where a block may be begun.
    fn goes_on(&self) -> bool
        ensures { IsTrue result → (self.now.full + 1 < 16) × (self.now.count + self.now.full + 1 < self.now.total) × (self.now.file ≤ 10000 + self.now.limit) }
    {
        self.full + 1 < 16
            && self.count + self.full + 1 < self.total
            && self.file <= 10000 + self.limit
    }

    /// Whether what waits has to be sealed before an entry of that size, which may have to stand alone in its block.
    fn must_seal(&self, size: usize, alone: bool) -> bool
        requires { size ≤ 4094 }
        ensures seals { IsTrue result → (alone || nat_lt 4094 (self.now.used + size)) ≡ true }
        ensures waits { result ≡ false → (alone || nat_lt 4094 (self.now.used + size)) ≡ false
            ⊎ ((alone ≡ false) × (self.now.full + 1 < 16) × (self.now.count + self.now.full + 1 < self.now.total) × (self.now.file ≤ 10000 + self.now.limit)) }
    {
        if alone {
            return true;
        }
        if !needs_block(self.used, size, alone) {
            return false;
        }
        !self.goes_on()
    }

    /// Makes room for an entry of that size, which may have to stand alone in its block.
    fn make_room<S: Site>(&mut self, site: &mut S, size: usize, alone: bool) -> Result<(), AudFault>
        requires { size ≤ 4094 }
        ensures moments { AtEnd self.old S.tells (S.files site.old) (S.clock site.old) (λ first waiting. Steps (Seals self.old.total self.old.tag first waiting) (S.clock site.old) (S.clock site.new)) }
        ensures appends { OnOk result (AtPlainEnd self.old S.tells (S.files site.old) (S.clock site.old) (λ first waiting. Appends self.new first waiting (S.files site.old) (S.files site.new) (S.clock site.new))) }
        ensures room { OnOk result (4094 < self.new.used + size → (self.new.full + 1 < 16) × (self.new.count + self.new.full + 1 < self.new.total)) }
        ensures alone { OnOk result (IsTrue alone → self.new.used ≡ 0) }
        ensures allowed { OnOk result (self.new.file < 20000) }
        ensures before { OnOk result (IsTrue S.tells → (g : ℕ) → g < self.old.file → S.files site.new g ≡ S.files site.old g) }
        ensures behind { OnOk result (IsTrue S.tells → (g : ℕ) → self.new.file < g → S.files site.new g ≡ S.files site.old g) }
        ensures place { (self.old.file ≤ self.new.file) × (self.new.file ≤ self.old.file + 1) }
        ensures kind { (self.new.total ≡ self.old.total) × (self.new.tag ≡ self.old.tag) × (self.new.limit ≡ self.old.limit) }
        ensures only { IfErr result (λ e. (e ≡ AudFault.Disk) ⊎ (e ≡ AudFault.Full self.old.limit)) }
        ensures full { IsErrOf result (AudFault.Full self.old.limit) → (self.new.used ≡ 0) × (10000 + self.old.limit < self.new.file) }
        ensures past { IsErrOf result (AudFault.Full self.old.limit) → is_past self.old size alone ≡ true }
        ensures kept { IsErrOf result (AudFault.Full self.old.limit) → AtEnd self.old S.tells (S.files site.old) (S.clock site.old) (λ first waiting. SealsAll self.new first waiting (S.files site.old) (S.files site.new) (S.clock site.new)) }
        ensures within { OnOk result (is_past self.old size alone ≡ false) }
        ensures said { S.said site.new ≡ S.said site.old }
        ensures same_site { S.same_site site.old site.new }
        ensures disk { CountedAt (IsErrOf result AudFault.Disk) (S.disk_faults site.old) (S.disk_faults site.new) }
        ensures say_faults { S.say_faults site.new ≡ S.say_faults site.old }
    {
        let needed = self.must_seal(size, alone);
        match self.seal_where(site, needed) {
            Ok(()) => {}
            Err(fault) => return Err(fault),
        }
        if self.is_full() {
            Err(AudFault::Full(self.limit))
        } else {
            Ok(())
        }
    }

    /// Appends an entry. It has to be one of the format, of at most 4,094 bytes.
    ///
    /// Where it can't stand behind those that wait, these are sealed first; a Begin is sealed at once. A stop at any moment
    /// leaves a trail of the same kind, which holds the old entries and the first of those that waited and this one.
    /// Answers Disk where a call of the site failed, and else Full exactly where a block would have to be begun behind the
    /// last file that may be written; then all that waited are sealed, and the entry wasn't appended.
    pub fn append<S: Site>(&mut self, site: &mut S, entry: &Entry<'_>) -> Result<(), AudFault>
        requires entry { IsEntry (entry_seen entry.now) }
        requires size { length (spelling (entry_seen entry.now)) ≤ 4094 }
        ensures moments { AtPlainEnd self.old S.tells (S.files site.old) (S.clock site.old) (λ first waiting. Steps (Seals self.old.total self.old.tag first (waiting ++ entry_seen entry.now ∷ [])) (S.clock site.old) (S.clock site.new)) }
        ensures seals_alone { IsErrOf result (AudFault.Full self.old.limit) → AtEnd self.old S.tells (S.files site.old) (S.clock site.old) (λ first waiting. Steps (Seals self.old.total self.old.tag first waiting) (S.clock site.old) (S.clock site.new)) }
        ensures appends { OnOk result (AtPlainEnd self.old S.tells (S.files site.old) (S.clock site.old) (λ first waiting. Appends self.new first (waiting ++ entry_seen entry.now ∷ []) (S.files site.old) (S.files site.new) (S.clock site.new))) }
        ensures before { OnOk result (IsTrue S.tells → (g : ℕ) → g < self.old.file → S.files site.new g ≡ S.files site.old g) }
        ensures behind { OnOk result (IsTrue S.tells → (g : ℕ) → self.new.file < g → S.files site.new g ≡ S.files site.old g) }
        ensures waits { OnOk result (is_begin (entry_seen entry.now) ≡ false → 0 < self.new.used) }
        ensures place { (self.old.file ≤ self.new.file) × (self.new.file ≤ self.old.file + 2) }
        ensures kind { (self.new.total ≡ self.old.total) × (self.new.tag ≡ self.old.tag) × (self.new.limit ≡ self.old.limit) }
        ensures only { IfErr result (λ e. (e ≡ AudFault.Disk) ⊎ (e ≡ AudFault.Full self.old.limit)) }
        ensures full { IsErrOf result (AudFault.Full self.old.limit) → (self.new.used ≡ 0) × (10000 + self.old.limit < self.new.file) }
        ensures kept { IsErrOf result (AudFault.Full self.old.limit) → AtEnd self.old S.tells (S.files site.old) (S.clock site.old) (λ first waiting. SealsAll self.new first waiting (S.files site.old) (S.files site.new) (S.clock site.new)) }
        ensures past { IsErrOf result (AudFault.Full self.old.limit) → is_past self.old (length (spelling (entry_seen entry.now))) (is_begin (entry_seen entry.now)) ≡ true }
        ensures within { OnOk result (is_past self.old (length (spelling (entry_seen entry.now))) (is_begin (entry_seen entry.now)) ≡ false) }
        ensures said { S.said site.new ≡ S.said site.old }
        ensures same_site { S.same_site site.old site.new }
        ensures disk { CountedAt (IsErrOf result AudFault.Disk) (S.disk_faults site.old) (S.disk_faults site.new) }
        ensures say_faults { S.say_faults site.new ≡ S.say_faults site.old }
    {
        let alone = begins(entry);
        match self.make_room(site, length(entry), alone) {
            Ok(()) => {}
            Err(fault) => return Err(fault),
        }
        self.hold(entry);
        self.seal_where(site, alone)
    }
}

/// Whether an entry of that size can't stand behind so many bytes of others.
fn needs_block(used: u16, size: usize, alone: bool) -> bool
    requires { size ≤ 4094 }
    ensures { result ≡ (alone || nat_lt 4094 (used + size)) }
{
    alone || usize::from(used) + size > 4094
}

/// Whether an entry is a Begin.
fn begins(entry: &Entry<'_>) -> bool
    ensures { result ≡ is_begin (entry_seen entry.now) }
{
    match entry {
        Entry::Begin(_, _) => true,
        _ => false,
    }
}
