//! A copy that follows, block by block.

ghost use Rattle.std.specs.Prelude.{◌≡◌, ◌+◌, ◌^◌, ◌<◌, ◌++◌, [], ◌∷◌, ℕ, List, length, IfOk, IfErr, IsTrue};
ghost use Rattle.dms_moments.specs.Moments.{Steps};
ghost use Rattle.dms_site.specs.Files.{Only};
ghost use Rattle.dms_audfile.specs.Counting.{CountedAt};
ghost use Rattle.dms_remote.specs.Gate.{gated, TurnsCopy};
ghost use Rattle.dms_remote.specs.Turn.{KeepsUp, IsNextOf, ReadsNext, opens_behind};

use crate::kinds::kinds_in;
use crate::next_block::seal_next;
use crate::noting::note_block;
use dms_audfile::{AudFault, EntryPlace};
use dms_restore::{Log, TrailTrace};
use dms_site::Site;
use std::alloc::Global;

/// A copy of a database, at the end of what it has of its source's trail.
pub struct Follower<S: Site> {
    /// The end of its trail. Nothing waits, and nothing is pending.
    pub log: Log<S>,
    /// What its entries tell.
    pub trace: TrailTrace,
    /// How many entries there are.
    pub entries: usize,
    /// How many blocks were sealed.
    pub sealed: u32,
    /// Whether the gate of the database is open.
    pub opened: bool,
}

impl<S: Site> Follower<S> {
    /// Settles what has to stand before the next block, seals it, opens the gate of the database behind its first Control, and notes what its entries
    /// tell. They begin at these places.
    ///
    /// A stop at any moment leaves the copy of before, or the one with this block, whose gate may then be opened. Answers Disk where a call of the
    /// site failed, Memory, and Damaged where no entry begins at one of the places.
    pub fn put(
        self,
        alloc: Global,
        block: &[u8],
        places: &[EntryPlace],
    ) -> Result<Follower<S>, (AudFault, Log<S>)>
        requires size { length block.now ≡ 4096 }
        requires empty { self.log.end.used ≡ 0 }
        requires none { self.log.end.full ≡ 0 }
        requires allowed { self.log.end.file < 20000 }
        requires few { self.entries + length places.now < 2 ^ 64 }
        ensures sealed { IfOk result (λ f. (head : List ℕ) (blocks : List (List ℕ)) → IsTrue S.tells → KeepsUp self.log.end self.trace self.entries head blocks (S.files self.log.site) → IsNextOf self.opened blocks block.now
            → ReadsNext self.log.end block.now places.now → KeepsUp f.log.end f.trace f.entries (gated (opens_behind self.opened block.now) head) (blocks ++ block.now ∷ []) (S.files f.log.site)) }
        ensures moments { IfOk result (λ f. (head : List ℕ) (blocks : List (List ℕ)) → IsTrue S.tells → KeepsUp self.log.end self.trace self.entries head blocks (S.files self.log.site) → IsNextOf self.opened blocks block.now
            → ReadsNext self.log.end block.now places.now → Only (S.files self.log.site) (S.clock self.log.site)
            → Steps (TurnsCopy self.log.end.total self.log.end.tag (opens_behind self.opened block.now) head blocks block.now) (S.clock self.log.site) (S.clock f.log.site)) }
        ensures stopped { IfErr result (λ e. (head : List ℕ) (blocks : List (List ℕ)) → IsTrue S.tells → KeepsUp self.log.end self.trace self.entries head blocks (S.files self.log.site) → IsNextOf self.opened blocks block.now
            → ReadsNext self.log.end block.now places.now → Only (S.files self.log.site) (S.clock self.log.site)
            → Steps (TurnsCopy self.log.end.total self.log.end.tag (opens_behind self.opened block.now) head blocks block.now) (S.clock self.log.site) (S.clock e.1.site)) }
        ensures durable { IfOk result (λ f. IsTrue S.tells → Only (S.files f.log.site) (S.clock f.log.site)) }
        ensures empty { IfOk result (λ f. (f.log.end.used ≡ 0) × (f.log.end.full ≡ 0)) }
        ensures kind { IfOk result (λ f. (f.log.end.total ≡ self.log.end.total) × (f.log.end.tag ≡ self.log.end.tag) × (f.log.end.limit ≡ self.log.end.limit) × (f.log.first ≡ self.log.first)) }
        ensures entries { IfOk result (λ f. f.entries ≡ self.entries + length places.now) }
        ensures said { IfOk result (λ f. S.said f.log.site ≡ S.said self.log.site) }
        ensures said_then { IfErr result (λ e. S.said e.1.site ≡ S.said self.log.site) }
        ensures same { IfOk result (λ f. S.same_site self.log.site f.log.site) }
        ensures same_then { IfErr result (λ e. S.same_site self.log.site e.1.site) }
        ensures clean { IfOk result (λ f. S.disk_faults f.log.site ≡ S.disk_faults self.log.site) }
        ensures disk { IfErr result (λ e. CountedAt (e.0 ≡ AudFault.Disk) (S.disk_faults self.log.site) (S.disk_faults e.1.site)) }
        ensures say_faults { IfOk result (λ f. S.say_faults f.log.site ≡ S.say_faults self.log.site) }
        ensures say_faults_then { IfErr result (λ e. S.say_faults e.1.site ≡ S.say_faults self.log.site) }
    {
        let kinds = kinds_in(block, places);
        let Follower {
            log,
            mut trace,
            entries,
            sealed,
            opened,
        } = self;
        match seal_next(alloc, log, &mut trace.history, block, kinds, opened) {
            Err(refused) => Err(refused),
            Ok(log) => match note_block(alloc, &mut trace, block, places, entries) {
                Err(fault) => Err((fault, log)),
                Ok(()) => Ok(Follower {
                    log,
                    trace,
                    entries: entries + places.len(),
                    sealed: sealed.saturating_add(1),
                    opened: opened || kinds.first,
                }),
            },
        }
    }
}
