use crate::command::{Command, End, perform};
use crate::story::Story;
use dms_sitemem::MemSite;
use std::alloc::Global;
use std::test::Fail;

/// The lines of the syncpoints that the script may make.
const SYNCPOINTS: [&[u8]; 7] = [
    b"SYNCPOINT 0\n",
    b"SYNCPOINT 1\n",
    b"SYNCPOINT 2\n",
    b"SYNCPOINT 3\n",
    b"SYNCPOINT 4\n",
    b"SYNCPOINT 5\n",
    b"SYNCPOINT 6\n",
];

/// What `print audit` prints of a control point, from its number on.
const CONTROLS: [&[u8]; 7] = [
    b"CONTROL 0 NEXT ",
    b"CONTROL 1 NEXT ",
    b"CONTROL 2 NEXT ",
    b"CONTROL 3 NEXT ",
    b"CONTROL 4 NEXT ",
    b"CONTROL 5 NEXT ",
    b"CONTROL 6 NEXT ",
];

const AUDIT: Command = Command {
    words: &["print", "audit"],
    input: b"",
};

/// Where a part begins in a text for the last time, counted from 1, or 0.
pub fn last_place(text: &[u8], part: &[u8]) -> usize {
    let mut last = 0;
    for place in 0..text.len() {
        if text[place..].starts_with(part) {
            last = place + 1;
        }
    }
    last
}

/// The last syncpoint that was printed, or 0.
pub fn last_syncpoint(text: &[u8]) -> usize {
    let mut least = 0;
    for number in 0..SYNCPOINTS.len() {
        if last_place(text, SYNCPOINTS[number]) != 0 {
            least = number;
        }
    }
    least
}

/// The number of the last control point in what `print audit` prints.
fn last_control(text: &[u8]) -> usize {
    let mut greatest = 0;
    let mut last = 0;
    for number in 0..CONTROLS.len() {
        let place = last_place(text, CONTROLS[number]);
        if place > greatest {
            greatest = place;
            last = number;
        }
    }
    last
}

/// The quiet point whose records the database has, opened by a run that is closed again. Fails where it has those of none, and where
/// the audit doesn't end with that point.
pub fn point_of(alloc: Global, story: Story, site: &mut MemSite) -> Result<usize, Fail> {
    let printed = site.text().len();
    let look = Command {
        words: &["run"],
        input: story.look(),
    };
    let end = perform(alloc, site, look, Vec::new(alloc))?;
    let behind = site.text().len();
    let point = match site.text().get(printed..) {
        Some(answers) => story.point_with(answers),
        None => None,
    };
    let audit = perform(alloc, site, AUDIT, Vec::new(alloc))?;
    let listed = match site.text().get(behind..) {
        Some(text) => last_control(text),
        None => CONTROLS.len(),
    };
    match point {
        Some(number) if end == End::Done && audit == End::Done && listed == number => Ok(number),
        _ => Err(Fail::new(format_args!(
            "{end:?}, {audit:?}, records of {point:?}, audit ends with {listed}"
        ))),
    }
}
