ghost use Rattle.std.specs.Prelude.{◌≡◌, ◌<◌, ◌≤◌, ◌+◌, ◌++◌, ◌∷◌, [], ℕ, Some, None, length, take, drop, slice_get, slice_set, IfOk, OnOk, option_copied, if◌then◌else◌};
ghost use Rattle.dms_runner.specs.declared.waiting.WaitingLine.{WaitingLine as LineWaiting};
ghost use Rattle.dms_runner.specs.Firsts.{AreFirst, FirstAt, first_slots, is_at, line_in, lines_of, next_slot, put_in, put_some, standing, without_first};
ghost use Rattle.dms_runner.specs.Waiting.{has_line, said_to_wait};

use crate::{WaitingLine, WaitingLines};
use dms_base::{Memory, Name};
use std::alloc::Global;

/// The line in a slot, if there is one.
pub fn line_in(slots: &[Option<WaitingLine>], slot: usize) -> Option<&WaitingLine>
    ensures { option_copied result ≡ line_in (slice_get slots.now slot) }
{
    match slots.get(slot) {
        Some(Some(line)) => Some(line),
        Some(None) => None,
        None => None,
    }
}

/// Whether the line in a slot is of this program.
fn is_of(slots: &[Option<WaitingLine>], slot: usize, name: &Name) -> bool
    ensures { result ≡ is_at slots.now name.now slot }
{
    match slots.get(slot) {
        Some(Some(line)) => line.program.is(name),
        Some(None) => false,
        None => false,
    }
}

/// Whether a line of this program is held.
pub fn has_line(waiting: &WaitingLines, name: &Name) -> bool
    requires firsts { AreFirst waiting.now }
    ensures { result ≡ has_line (lines_of waiting.now) name.now }
{
    for j in 0..waiting.firsts.len() {
        if is_of(waiting.slots.as_slice(), waiting.firsts[j], name) {
            return true;
        }
    }
    false
}

/// The next slot from this one on that holds a line of this program.
fn next_of(slots: &[Option<WaitingLine>], from: usize, name: &Name) -> Option<usize>
    ensures { result ≡ next_slot from name.now (drop from slots.now) }
{
    for slot in from..slots.len() {
        if is_of(slots, slot, name) {
            return Some(slot);
        }
    }
    None
}

/// Where a slot has its place among rising ones from this place on.
fn place_for(firsts: &[usize], from: usize, slot: usize) -> usize
    requires { from ≤ length firsts.now }
    ensures within { result ≤ length firsts.now }
    ensures placed { take result firsts.now ++ slot ∷ drop result firsts.now ≡ take from firsts.now ++ put_in slot (drop from firsts.now) }
{
    for place in from..firsts.len() {
        if slot < firsts[place] {
            return place;
        }
    }
    firsts.len()
}

/// No line.
pub fn no_lines(alloc: Global) -> WaitingLines
    ensures none { lines_of result ≡ [] }
    ensures firsts { AreFirst result }
{
    WaitingLines {
        slots: Vec::new(alloc),
        firsts: Vec::new(alloc),
        count: 0,
    }
}

/// Notes the next slot, where no line of this program is held.
fn note_first(waiting: &mut WaitingLines, name: &Name) -> Result<(), Memory>
    requires firsts { AreFirst waiting.old }
    ensures firsts { OnOk result (waiting.new.firsts.items ≡ waiting.old.firsts.items ++ (if has_line (lines_of waiting.old) name.now then [] else length waiting.old.slots.items ∷ [])) }
    ensures slots { waiting.new.slots ≡ waiting.old.slots }
    ensures count { waiting.new.count ≡ waiting.old.count }
{
    if has_line(waiting, name) {
        return Ok(());
    }
    waiting.firsts.push(waiting.slots.len())?;
    Ok(())
}

/// Lets all slots go where no line is held.
fn let_go(waiting: &mut WaitingLines)
    requires firsts { AreFirst waiting.old }
    ensures lines { lines_of waiting.new ≡ lines_of waiting.old }
    ensures firsts { AreFirst waiting.new }
{
    if waiting.count == 0 {
        waiting.slots.clear();
        waiting.firsts.clear();
    }
}

/// Holds one line more.
pub fn hold(waiting: &mut WaitingLines, line: WaitingLine) -> Result<(), Memory>
    requires firsts { AreFirst waiting.old }
    ensures lines { OnOk result (lines_of waiting.new ≡ lines_of waiting.old ++ line ∷ []) }
    ensures firsts { OnOk result (AreFirst waiting.new) }
{
    let_go(waiting);
    note_first(waiting, &line.program)?;
    waiting.slots.push(Some(line))?;
    waiting.count += 1;
    Ok(())
}

/// Empties a slot, and answers what stood there.
fn empty_slot(slots: &mut Vec<Option<WaitingLine>>, slot: usize) -> Option<WaitingLine>
    requires { slot < length slots.old.items }
    ensures taken { slice_get slots.old.items slot ≡ Some result }
    ensures slots { slots.new.items ≡ slice_set slots.old.items slot None }
{
    slots[slot].take()
}

/// The next slot from this one on that holds a line of the same program.
fn next_like(
    slots: &[Option<WaitingLine>],
    from: usize,
    taken: &Option<WaitingLine>,
) -> Option<usize>
    ensures { (h : LineWaiting) → taken.now ≡ Some h → result ≡ next_slot from h.program (drop from slots.now) }
{
    match taken {
        None => None,
        Some(line) => next_of(slots, from, &line.program),
    }
}

/// Puts a slot, if there is one, to its place among rising ones from this place on.
fn put_next(firsts: &mut Vec<usize>, from: usize, next: Option<usize>) -> Result<(), Memory>
    requires { from ≤ length firsts.old.items }
    ensures { OnOk result (firsts.new.items ≡ take from firsts.old.items ++ put_some next (drop from firsts.old.items)) }
{
    match next {
        None => Ok(()),
        Some(slot) => {
            let place = place_for(firsts.as_slice(), from, slot);
            firsts.insert(place, slot)?;
            Ok(())
        }
    }
}

/// Takes the first line of a program out, that in the j-th of the firsts.
pub fn take_out(waiting: &mut WaitingLines, j: usize) -> Result<(), Memory>
    requires place { j < length waiting.old.firsts.items }
    requires slot { (x : ℕ) → slice_get waiting.old.firsts.items j ≡ Some x → x < length waiting.old.slots.items }
    ensures lines { (f : FirstAt waiting.old j) → OnOk result (lines_of waiting.new ≡ without_first waiting.old j f) }
    ensures firsts { FirstAt waiting.old j → OnOk result (AreFirst waiting.new) }
{
    let slot = waiting.firsts.remove(j);
    let taken = empty_slot(&mut waiting.slots, slot);
    waiting.count = waiting.count.saturating_sub(1);
    let next = next_like(waiting.slots.as_slice(), slot + 1, &taken);
    put_next(&mut waiting.firsts, j, next)
}

/// Notes of the line in a slot that it was said to wait.
pub fn note_waiting(slots: &mut Vec<Option<WaitingLine>>, slot: usize)
    requires { slot < length slots.old.items }
    ensures { (h : LineWaiting) → slice_get slots.old.items slot ≡ Some (Some h) → slots.new.items ≡ slice_set slots.old.items slot (Some (said_to_wait h)) }
{
    if let Some(line) = &mut slots[slot] {
        line.printed = true;
    }
}

/// Puts what stands in a slot behind these lines.
fn push_line(lines: &mut Vec<WaitingLine>, slot: Option<WaitingLine>) -> Result<(), Memory>
    ensures { OnOk result (lines.new.items ≡ lines.old.items ++ standing (slot ∷ [])) }
{
    match slot {
        None => Ok(()),
        Some(line) => {
            lines.push(line)?;
            Ok(())
        }
    }
}

/// The lines that are held, in order.
pub fn into_lines(alloc: Global, waiting: WaitingLines) -> Result<Vec<WaitingLine>, Memory>
    ensures { IfOk result (λ lines. lines.items ≡ lines_of waiting) }
{
    let mut lines: Vec<WaitingLine> = Vec::new(alloc);
    for slot in waiting.slots.into_iter() {
        push_line(&mut lines, slot)?;
    }
    Ok(lines)
}
