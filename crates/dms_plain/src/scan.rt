ghost use Rattle.std.specs.Prelude.{◌≡◌, take};
ghost use Rattle.std.specs.Option.{option_copied};
ghost use Rattle.dms_desc.specs.Shape.{shape_of};
ghost use Rattle.dms_model.specs.Members.{belongs, spot_of, is_before, bound_cmp};
ghost use Rattle.dms_plain.specs.Rows.{entry_of, entries_of};
ghost use Rattle.dms_plain.specs.Scans.{spot_at, sooner, later, soonest, latest};

use crate::keys::{order_of_keys, order_to_key};
use crate::manual::Manual;
use crate::rows::RecordRow;
use dms_desc::{Bound, KeyPart, Structure};
use std::cmp::Ordering;

/// Whether a row is a member of a structure for an owner: of a manual subset by an entry.
pub fn belongs(s: &Structure, manual: &Manual, owner: u64, row: &RecordRow) -> bool
    ensures { result ≡ belongs (shape_of s.now) manual.now.entries owner (entry_of row.now) }
{
    if s.over() != row.set {
        return false;
    }
    if s.is_manual() {
        return manual.has(s.number, owner, row.number);
    }
    owner == row.rec.owner && s.takes(row.rec.values.as_slice())
}

/// Whether a row stands before another.
fn is_before(parts: &[KeyPart], a: &RecordRow, b: &RecordRow) -> bool
    ensures { result ≡ is_before parts.now (spot_of parts.now (entry_of a.now)) (spot_of parts.now (entry_of b.now)) }
{
    order_of_keys(parts, a.rec.values.as_slice(), b.rec.values.as_slice())
        .then(a.number.cmp(&b.number))
        .is_lt()
}

/// The first parts of a key.
#[tactic(auto, using(std::proofs::lemmas::List::take_all))]
fn front_of(parts: &[KeyPart], n: usize) -> &[KeyPart]
    ensures { result.now ≡ take n parts.now }
{
    if n < parts.len() {
        return &parts[..n];
    }
    parts
}

/// Where a row stands to a bound.
fn bound_order(parts: &[KeyPart], bound: &Bound, row: &RecordRow) -> Ordering
    ensures { result ≡ bound_cmp parts.now bound.now (spot_of parts.now (entry_of row.now)) }
{
    match bound {
        Bound::Start => Ordering::Greater,
        Bound::End => Ordering::Less,
        Bound::At(key, n) => order_to_key(parts, row.rec.values.as_slice(), key.as_slice()).then(
            row.number.cmp(n),
        ),
        Bound::From(key) => {
            let front = front_of(parts, key.as_slice().len());
            order_to_key(front, row.rec.values.as_slice(), key.as_slice()).then(Ordering::Greater)
        }
    }
}

/// The sooner of a row and the best so far.
#[tactic(auto, unfolding(crate::specs::Scans::sooner))]
fn sooner<'a>(
    s: &Structure,
    manual: &Manual,
    owner: u64,
    from: &Bound,
    row: &'a RecordRow,
    best: Option<&'a RecordRow>,
) -> Option<&'a RecordRow>
    ensures { spot_at (shape_of s.now) (option_copied result) ≡ sooner (shape_of s.now) manual.now.entries owner from.now (entry_of row.now) (spot_at (shape_of s.now) (option_copied best.entry)) }
{
    if !belongs(s, manual, owner, row) {
        return best;
    }
    if !bound_order(s.parts.as_slice(), from, row).is_gt() {
        return best;
    }
    match best {
        None => Some(row),
        Some(other) => {
            if is_before(s.parts.as_slice(), row, other) {
                return Some(row);
            }
            Some(other)
        }
    }
}

/// The later of a row and the best so far.
#[tactic(auto, unfolding(crate::specs::Scans::later))]
fn later<'a>(
    s: &Structure,
    manual: &Manual,
    owner: u64,
    upto: &Bound,
    row: &'a RecordRow,
    best: Option<&'a RecordRow>,
) -> Option<&'a RecordRow>
    ensures { spot_at (shape_of s.now) (option_copied result) ≡ later (shape_of s.now) manual.now.entries owner upto.now (entry_of row.now) (spot_at (shape_of s.now) (option_copied best.entry)) }
{
    if !belongs(s, manual, owner, row) {
        return best;
    }
    if !bound_order(s.parts.as_slice(), upto, row).is_lt() {
        return best;
    }
    match best {
        None => Some(row),
        Some(other) => {
            if is_before(s.parts.as_slice(), row, other) {
                return Some(other);
            }
            Some(row)
        }
    }
}

/// The first member after a bound.
pub fn first<'a>(
    rows: &'a [RecordRow],
    s: &Structure,
    manual: &Manual,
    owner: u64,
    from: &Bound,
) -> Option<&'a RecordRow>
    ensures { spot_at (shape_of s.now) (option_copied result) ≡ soonest (shape_of s.now) manual.now.entries owner from.now (entries_of rows.now) }
{
    let mut best: Option<&RecordRow> = None;
    for k in 0..rows.len() {
        let row = &rows[rows.len() - 1 - k];
        best = sooner(s, manual, owner, from, row, best);
    }
    best
}

/// The last member before a bound.
pub fn last<'a>(
    rows: &'a [RecordRow],
    s: &Structure,
    manual: &Manual,
    owner: u64,
    upto: &Bound,
) -> Option<&'a RecordRow>
    ensures { spot_at (shape_of s.now) (option_copied result) ≡ latest (shape_of s.now) manual.now.entries owner upto.now (entries_of rows.now) }
{
    let mut best: Option<&RecordRow> = None;
    for k in 0..rows.len() {
        let row = &rows[rows.len() - 1 - k];
        best = later(s, manual, owner, upto, row, best);
    }
    best
}
