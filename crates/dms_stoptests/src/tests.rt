use crate::command::{End, perform, with_files_of};
use crate::points::{last_place, last_syncpoint, point_of};
use crate::table::{RESTORES, ROWS, Row, Start, folder, gone_on, made};
use dms_sitemem::MemSite;
use std::alloc::Global;
use std::test::Fail;

/// What a stop leaves of what was written since the last sync: the old bytes, the new ones, the byte 7, or others.
const PICKS: [u64; 4] = [0, 1, 7, 2];

/// Fails where what is left has the records of no quiet point that may be left, or of one below the last syncpoint that was printed. Where a
/// database was there before, the run that looks is stopped within a call, too: the next one finds the same point.
fn look(alloc: Global, row: &Row, left: MemSite, call: u64, pick: u64) -> Result<(), Fail> {
    let mut site = left;
    let told = last_syncpoint(site.text());
    gone_on(alloc, &mut site, row)?;
    let point = point_of(alloc, row.story, &mut site)?;
    judge(row, told, point)?;
    if row.start == Start::Bare || row.start == Start::Compiled || site.calls() == 0 {
        return Ok(());
    }
    let mut again = site.crash(alloc, call % site.calls() + 1, pick)?;
    let found = point_of(alloc, row.story, &mut again)?;
    if found != point {
        return Err(Fail::new(format_args!("point {found} behind {point}")));
    }
    Ok(())
}

/// Fails where a command may not leave that point, or where a later syncpoint was printed.
fn judge(row: &Row, told: usize, point: usize) -> Result<(), Fail> {
    if point < told || !row.points.iter().any(|one| *one == point) {
        return Err(Fail::new(format_args!("point {point}, told {told}")));
    }
    Ok(())
}

/// The command done whole.
fn whole(alloc: Global, row: &Row) -> Result<MemSite, Fail> {
    made(alloc, &folder(alloc, row)?, row.story, row.command)
}

#[test]
fn a_command_done_whole_leaves_its_point(rt: HostRuntime) -> Result<(), Fail> {
    let alloc = rt.alloc();
    for row in ROWS {
        let made = whole(alloc, &row)?;
        let mut site = with_files_of(alloc, &made, Vec::new(alloc))?;
        gone_on(alloc, &mut site, &row)?;
        assert_eq!(rt; point_of(alloc, row.story, &mut site)?, row.point);
    }
    Ok(())
}

/// Stops a command within a call that it made.
fn stop(alloc: Global, row: &Row, site: &MemSite, call: u64, pick: u64) -> Result<(), Fail> {
    if call == 0 || call > site.calls() {
        return Err(Fail::new("no such call"));
    }
    let left = site.crash(alloc, call, pick)?;
    look_at_dump(&left, site)?;
    look(alloc, row, left, call, pick)
}

/// Fails where the dump's gate is open and the dump isn't the one that is made.
fn look_at_dump(left: &MemSite, whole: &MemSite) -> Result<(), Fail> {
    let dump = left.bytes(20_001);
    if dump.first() == Some(&1) && dump != whole.bytes(20_001) {
        return Err(Fail::new("a false dump"));
    }
    Ok(())
}

/// Stops commands within each of their calls.
fn stop_each(alloc: Global, rows: &[Row]) -> Result<(), Fail> {
    for row in rows {
        let site = whole(alloc, row)?;
        for turn in 0..PICKS.len() {
            for before in 0..site.calls() {
                stop(alloc, row, &site, before + 1, PICKS[turn])?;
            }
        }
    }
    Ok(())
}

#[test]
fn a_stop_leaves_a_quiet_point(rt: HostRuntime) -> Result<(), Fail> {
    stop_each(rt.alloc(), &ROWS[..RESTORES])
}

#[test]
fn a_stop_of_a_restore_leaves_a_quiet_point(rt: HostRuntime) -> Result<(), Fail> {
    stop_each(rt.alloc(), &ROWS[RESTORES..])
}

/// Whether a call prints.
fn prints(alloc: Global, whole: &MemSite, call: u64) -> Result<bool, Fail> {
    if call < 2 || call > whole.calls() {
        return Ok(false);
    }
    let before = whole.crash(alloc, call - 1, 0)?;
    let behind = whole.crash(alloc, call, 0)?;
    Ok(before.text() != behind.text())
}

/// Lets one call of a command fail that begins with a folder. Fails where the command doesn't end there, where it ends otherwise than by that
/// call's kind of fault, and where the next run finds none of its points.
fn fail(alloc: Global, row: &Row, start: &MemSite, whole: &MemSite, call: u64) -> Result<(), Fail> {
    let mut failed = with_files_of(alloc, start, vec![in alloc; call]?)?;
    let end = perform(
        alloc,
        &mut failed,
        row.command.of(row.story),
        Vec::new(alloc),
    )?;
    let wanted = if prints(alloc, whole, call)? {
        End::SayFault
    } else {
        End::DiskFault
    };
    if end != wanted || failed.calls() != call {
        let calls = failed.calls();
        return Err(Fail::new(format_args!("call {call}: {end:?}, {calls} calls")));
    }
    look_at_dump(&failed, whole)?;
    let told = last_syncpoint(failed.text());
    let mut left = with_files_of(alloc, &failed, Vec::new(alloc))?;
    gone_on(alloc, &mut left, row)?;
    judge(row, told, point_of(alloc, row.story, &mut left)?)
}

#[test]
fn no_call_follows_one_that_failed(rt: HostRuntime) -> Result<(), Fail> {
    let alloc = rt.alloc();
    for row in ROWS {
        let start = folder(alloc, &row)?;
        let site = whole(alloc, &row)?;
        for before in 0..site.calls() {
            fail(alloc, &row, &start, &site, before + 1)?;
        }
    }
    Ok(())
}

/// How the command ends where a take of its input fails, and a call of its site where one is given, and how many calls it made.
fn cut_input(alloc: Global, row: &Row, take: u64, call: Option<u64>) -> Result<(End, u64), Fail> {
    let start = folder(alloc, row)?;
    let fails = match call {
        Some(number) => vec![in alloc; number]?,
        None => Vec::new(alloc),
    };
    let mut site = with_files_of(alloc, &start, fails)?;
    let end = perform(
        alloc,
        &mut site,
        row.command.of(row.story),
        vec![in alloc; take]?,
    )?;
    Ok((end, site.calls()))
}

/// The last call of a command whose input failed came before that take: where it fails, the take isn't reached, for status 6 would come if it were.
#[test]
fn no_call_follows_an_input_that_failed(rt: HostRuntime) -> Result<(), Fail> {
    let alloc = rt.alloc();
    for row in ROWS {
        let mut takes = 0;
        for take in 1..20u64 {
            let (end, calls) = cut_input(alloc, &row, take, None)?;
            if end != End::InputFault {
                assert_eq!(rt; end, End::Done);
                continue;
            }
            takes = take;
            if calls != 0 {
                let (end, again) = cut_input(alloc, &row, take, Some(calls))?;
                assert!(rt; end == End::DiskFault || end == End::SayFault);
                assert_eq!(rt; again, calls);
            }
        }
        assert_eq!(rt; takes == 0, row.command.of(row.story).input.is_empty());
        assert!(rt; takes < 19);
    }
    Ok(())
}

/// The story of overlapping transactions really has what makes it hard: while lines are carried out that line 28 takes back, their blocks are in
/// their file already.
#[test]
fn blocks_are_written_early(rt: HostRuntime) -> Result<(), Fail> {
    let alloc = rt.alloc();
    let site = whole(alloc, &ROWS[3])?;
    let mut early = false;
    for before in 0..site.calls() {
        let left = site.crash(alloc, before + 1, 1)?;
        early |= !left.bytes(30_002).is_empty() && last_place(left.text(), b"28 A DONE") == 0;
    }
    assert!(rt; early);
    Ok(())
}
