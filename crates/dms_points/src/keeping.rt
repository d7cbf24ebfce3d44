//! The points of a trail, from its entries one after another.

ghost use Rattle.std.specs.Prelude.{◌≡◌, ◌<◌, length, OnOk, IfSome};
ghost use Rattle.dms_audrec.specs.Seen.{entry_seen};
ghost use Rattle.dms_points.specs.Keeping.{kept, no_entry, is_last, place_among, after_part, after_number, after_control, after_begin, forget, after};

use dms_audrec::Entry;
use std::alloc::{AllocError, Global};

/// The place of a point among the live entries.
#[derive(Clone, Copy, Debug, PartialEq, Eq)]
pub struct PlaceAt {
    pub number: u64,
    /// The audit file, by its number as a file, in which the last whole live Schema begins whose Control stands at or before the place. None where there
    /// is none: then the point isn't live.
    pub need: Option<u32>,
}

/// The points of a trail.
#[derive(Drop)]
pub struct PointTrace {
    /// Their places, in order.
    pub places: Vec<PlaceAt>,
    /// The audit file in which the last whole live Schema begins that has its Control.
    need: Option<u32>,
    /// How many parts of a Schema the entries end with, one directly after another from the first.
    read: u16,
    /// How many parts that Schema has.
    all: u16,
    /// The audit file in which it begins.
    begun: u32,
    /// The least number of a Quiet or a Control, voided ones among them.
    least: u64,
    /// The greatest one.
    greatest: u64,
}

/// Where a point stands among places; None where it has none.
fn place_among(places: &[PlaceAt], number: u64) -> Option<usize>
    ensures among { result ≡ place_among places.now number }
    ensures low { IfSome result (λ i. i < length places.now) }
{
    for (i, place) in places.iter().enumerate() {
        if place.number == number {
            return Some(i);
        }
    }
    None
}

impl PointTrace {
    /// No entry.
    pub fn new(alloc: Global) -> PointTrace
        ensures { kept result ≡ no_entry }
    {
        PointTrace {
            places: Vec::new(alloc),
            need: None,
            read: 0,
            all: 0,
            begun: 0,
            least: u64::MAX,
            greatest: 0,
        }
    }

    /// No part of a Schema stands directly before what follows.
    fn forget(&mut self)
        ensures { kept self.new ≡ forget (kept self.old) }
    {
        self.read = 0;
        self.all = 0;
    }

    /// Adds a part of a Schema that stands in an audit file.
    fn add_part(&mut self, part: u16, parts: u16, file: u32)
        ensures { kept self.new ≡ after_part (kept self.old) file part parts }
    {
        if part == 1 {
            self.begun = file;
            self.read = 1;
            self.all = parts;
        } else if u32::from(part) == u32::from(self.read) + 1 && parts == self.all {
            self.read = part;
            self.all = parts;
        } else {
            self.read = 0;
            self.all = 0;
        }
    }

    /// Whether the last place is that of a point.
    fn is_last(&self, number: u64) -> bool
        ensures { result ≡ is_last self.now.places.items number }
    {
        match self.places.last() {
            Some(place) => place.number == number,
            None => false,
        }
    }

    /// Adds the number of a Quiet or a Control. Where the last live point has it nothing is new. A number within those that came before is of no trail
    /// that commands wrote: where it comes, no place before it counts.
    fn add_number(&mut self, number: u64) -> Result<(), AllocError>
        ensures { OnOk result (kept self.new ≡ after_number (kept self.old) number) }
    {
        if self.is_last(number) {
            return Ok(());
        }
        let is_new = self.greatest < number || number < self.least;
        self.least = self.least.min(number);
        self.greatest = self.greatest.max(number);
        if is_new {
            self.places.push(PlaceAt {
                number,
                need: self.need,
            })?;
        } else {
            self.places.clear();
        }
        Ok(())
    }

    /// Adds a Control.
    fn add_control(&mut self, number: u64) -> Result<(), AllocError>
        ensures { OnOk result (kept self.new ≡ after_control (kept self.old) number) }
    {
        if 0 < self.read && self.read == self.all {
            self.need = Some(self.begun);
        }
        self.add_number(number)
    }

    /// Adds the Begin of a restore to a point: what stands behind the point's place is void, and all where it has none.
    fn add_begin(&mut self, number: u64)
        ensures { kept self.new ≡ after_begin (kept self.old) number }
    {
        match place_among(&self.places, number) {
            Some(i) => {
                let place = self.places[i];
                self.need = place.need;
                self.places.truncate(i + 1);
            }
            None => {
                self.need = None;
                self.places.clear();
            }
        }
        self.forget();
    }

    /// Adds an entry that stands in an audit file, by its number as a file. Answers Err where memory is refused.
    pub fn add(&mut self, entry: &Entry<'_>, file: u32) -> Result<(), AllocError>
        ensures { OnOk result (kept self.new ≡ after (kept self.old) file (entry_seen entry.now)) }
    {
        match *entry {
            Entry::Schema(part, parts, _) => self.add_part(part, parts, file),
            Entry::Image(_, _, _, _) => self.forget(),
            Entry::Range(_, _, _, _) => self.forget(),
            Entry::Quiet(number) => {
                self.add_number(number)?;
                self.forget();
            }
            Entry::Control(number, _, _) => {
                self.add_control(number)?;
                self.forget();
            }
            Entry::Begin(number, _) => self.add_begin(number),
        }
        Ok(())
    }
}
