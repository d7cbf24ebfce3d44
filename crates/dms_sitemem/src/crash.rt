ghost use Rattle.std.specs.Prelude.{◌≡◌, ◌+◌, ◌<◌, ◌≤◌, ℕ, [], length, take, OnOk, IfOk, IfSome, IfNone, if◌then◌else◌, ◌==◌, false, None, Some, slice_get};
ghost use Rattle.std.specs.Ordering.{nat_cmp};
ghost use Rattle.std.specs.BTreeMap.{get, btree_map_len};
ghost use Rattle.dms_site.specs.Files.{with_file};
ghost use Rattle.dms_sitemem.specs.Slots.{files_of};
ghost use Rattle.dms_sitemem.specs.Events.{said_after, is_sync, through};
ghost use Rattle.dms_sitemem.specs.Replay.{state_of};
ghost use Rattle.dms_sitemem.specs.Picks.{file_after, seed_behind, count_of, strike, fill_of, picked_after};

use crate::event::SiteEvent;
use crate::image::Image;
use crate::journal::Journal;
use crate::pick::{Fill, all_of, draw, fill_of};
use crate::plan::FailurePlan;
use std::alloc::{AllocError, Global};
use std::collections::BTreeMap;

/// The place behind the call of that number, counted from 1.
pub fn end_of(events: &[SiteEvent], call: u64) -> usize
    ensures bound { result ≤ length events.now }
    ensures through { take result events.now ≡ through call events.now }
{
    let mut left = call;
    for place in 0..events.len() {
        if left == 0 {
            return place;
        }
        left = left.saturating_sub(events[place].calls());
    }
    events.len()
}

/// The place behind the last sync that succeeded.
pub fn last_sync(events: &[SiteEvent]) -> usize
    ensures bound { result ≤ length events.now }
    ensures none_pending { (state_of (take result events.now)).pending ≡ [] }
    ensures stable { (state_of (take result events.now)).stable ≡ (state_of (take result events.now)).files }
    ensures none_behind { (i : ℕ) (e : SiteEvent) → result ≤ i → slice_get events.now i ≡ Some e → is_sync e ≡ false }
{
    let mut synced = 0;
    for place in 0..events.len() {
        if events[place].is_sync() {
            synced = place + 1;
        }
    }
    synced
}

/// What a read gives after these events, and the text. Answers Err where memory is refused, or a write that is done reaches beyond 2^64 - 1.
pub fn replay(alloc: Global, events: &[SiteEvent]) -> Result<Image, AllocError>
    ensures files { IfOk result (λ image. files_of image.files ≡ (state_of events.now).files) }
    ensures said { IfOk result (λ image. image.said.items ≡ (state_of events.now).said) }
{
    let mut image = Image::new(alloc);
    for place in 0..events.len() {
        image.apply(&events[place])?;
    }
    Ok(image)
}

/// What a stop makes of a write to a file. The seed is that of the next draw.
pub fn strike_write(
    image: &mut Image,
    file: u32,
    at: u64,
    bytes: &[u8],
    fill: Fill,
    seed: &mut u64,
) -> Result<(), AllocError>
    ensures files { OnOk result (files_of image.new.files ≡ with_file (files_of image.old.files) file (file_after fill seed.old at bytes.now (files_of image.old.files file))) }
    ensures seed { OnOk result (seed.new ≡ seed_behind fill (count_of at bytes.now (files_of image.old.files file)) seed.old) }
    ensures said { image.new.said.items ≡ image.old.said.items }
{
    let Some(end) = at.checked_add(bytes.len() as u64) else {
        return Err(AllocError);
    };
    let start = at.min(image.bytes(file).len() as u64);
    let count = (end - start) as usize;
    match fill {
        Fill::Old => Ok(()),
        Fill::New => image.write(file, at, bytes),
        Fill::Sevens => {
            let sevens = all_of(image.alloc, count, 7)?;
            image.write(file, start, &sevens)
        }
        Fill::Drawn => {
            let drawn = draw(image.alloc, count, seed)?;
            image.write(file, start, &drawn)
        }
    }
}

/// What a stop makes of an event.
fn strike(
    image: &mut Image,
    event: &SiteEvent,
    fill: Fill,
    cuts: bool,
    seed: &mut u64,
) -> Result<(), AllocError>
    ensures files { OnOk result (files_of image.new.files ≡ (strike fill cuts event.now (record { files = files_of image.old.files; seed = seed.old })).files) }
    ensures seed { OnOk result (seed.new ≡ (strike fill cuts event.now (record { files = files_of image.old.files; seed = seed.old })).seed) }
    ensures said { OnOk result (image.new.said.items ≡ said_after event.now image.old.said.items) }
{
    match event {
        SiteEvent::Wrote(file, at, bytes, _) => strike_write(image, *file, *at, bytes, fill, seed),
        SiteEvent::Shortened(file, len, _) => {
            if cuts {
                image.cut(*file, *len);
            }
            Ok(())
        }
        _ => image.apply(event),
    }
}

/// What a stop makes of the events behind the last sync that succeeded.
pub fn strike_all(
    image: &mut Image,
    events: &[SiteEvent],
    from: usize,
    pick: u64,
) -> Result<(), AllocError>
    requires bound { from ≤ length events.now }
    requires files { files_of image.old.files ≡ (state_of (take from events.now)).files }
    requires said { image.old.said.items ≡ (state_of (take from events.now)).said }
    requires none_pending { (state_of (take from events.now)).pending ≡ [] }
    requires stable { (state_of (take from events.now)).stable ≡ (state_of (take from events.now)).files }
    requires none_behind { (i : ℕ) (e : SiteEvent) → from ≤ i → slice_get events.now i ≡ Some e → is_sync e ≡ false }
    ensures files { OnOk result (files_of image.new.files ≡ (picked_after pick events.now).files) }
    ensures said { OnOk result (image.new.said.items ≡ (state_of events.now).said) }
{
    let fill = fill_of(pick);
    let cuts = pick % 2 == 1;
    let mut seed = pick;
    for place in from..events.len() {
        strike(image, &events[place], fill, cuts, &mut seed)?;
    }
    Ok(())
}

/// Takes a file out.
fn take_first(files: &mut BTreeMap<u32, Vec<u8>>) -> Option<(u32, Vec<u8>)>
    ensures found { IfSome result (λ p. get nat_cmp files.old p.0 ≡ Some p.1) }
    ensures gone { IfSome result (λ p. (g : ℕ) → get nat_cmp files.new g ≡ (if g == p.0 then None else get nat_cmp files.old g)) }
    ensures fewer { IfSome result (λ p. btree_map_len files.new < btree_map_len files.old) }
    ensures none { IfNone result ((g : ℕ) → get nat_cmp files.old g ≡ None) }
{
    files.pop_first()
}

/// Puts all these files into a journal that has none.
fn place_all(journal: &mut Journal, files: BTreeMap<u32, Vec<u8>>) -> Result<(), AllocError>
    requires { (g : ℕ) → files_of journal.old.image.files g ≡ [] }
    ensures files { OnOk result ((g : ℕ) → files_of journal.new.image.files g ≡ files_of files g) }
    ensures said { journal.new.image.said.items ≡ journal.old.image.said.items }
    ensures made { journal.new.made ≡ journal.old.made }
    ensures plan { journal.new.plan ≡ journal.old.plan }
{
    let mut left = files;
    while let Some((file, bytes)) = take_first(&mut left) {
        journal.replace(file, &bytes)?;
    }
    Ok(())
}

/// A journal of these files and this text, with no calls. Answers Err where memory is refused.
pub fn journal_of(alloc: Global, image: Image) -> Result<Journal, AllocError>
    ensures files { IfOk result (λ j. (g : ℕ) → files_of j.image.files g ≡ files_of image.files g) }
    ensures said { IfOk result (λ j. j.image.said.items ≡ image.said.items) }
    ensures made { IfOk result (λ j. j.made ≡ 0) }
    ensures fails { IfOk result (λ j. j.plan.fails.items ≡ []) }
    ensures stop { IfOk result (λ j. j.plan.stop ≡ None) }
{
    let plan = FailurePlan {
        fails: Vec::new(alloc),
        stop: None,
    };
    let mut journal = Journal::new(alloc, plan);
    let Image {
        alloc: _,
        files,
        said,
    } = image;
    place_all(&mut journal, files)?;
    journal.recall(said)?;
    Ok(journal)
}
