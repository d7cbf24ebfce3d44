//! What answers tell of a run: how many lines were taken, and the last syncpoint.

/// What stands before the number of a syncpoint.
const SYNCPOINT: &[u8] = b"SYNCPOINT ";

/// What the next byte of the printed text may belong to.
#[derive(Clone, Copy, Debug, PartialEq, Eq)]
enum Place {
    /// The number at the begin of a line, so far.
    Line(u64),
    /// The word SYNCPOINT and a space, of which so many bytes were printed.
    Word(usize),
    /// The number behind that, so far.
    Point(u64),
    /// What doesn't count, up to the line's end.
    Rest,
}

/// How far a run is: what its answers tell.
#[derive(Drop)]
pub(crate) struct Answers {
    place: Place,
    /// The greatest number of a line that was answered.
    pub(crate) lines: u64,
    /// The last syncpoint, where there was one.
    pub(crate) syncpoint: Option<u64>,
}

/// A number with one more digit.
fn with_digit(number: u64, digit: u8) -> u64 {
    number
        .saturating_mul(10)
        .saturating_add(u64::from(digit.saturating_sub(b'0')))
}

impl Answers {
    /// Nothing printed yet.
    pub(crate) fn new() -> Answers {
        Answers {
            place: Place::Line(0),
            lines: 0,
            syncpoint: None,
        }
    }

    /// Takes what was printed.
    pub(crate) fn read(&mut self, bytes: &[u8]) {
        for byte in bytes {
            self.read_byte(*byte);
        }
    }

    fn read_byte(&mut self, byte: u8) {
        if byte == b'\n' {
            if let Place::Point(number) = self.place {
                self.syncpoint = Some(number);
            }
            self.place = Place::Line(0);
            return;
        }
        self.place = self.behind(byte);
    }

    /// The place behind a byte that ends no line.
    fn behind(&mut self, byte: u8) -> Place {
        match self.place {
            Place::Line(number) if byte.is_ascii_digit() => Place::Line(with_digit(number, byte)),
            Place::Line(0) if byte == b'S' => Place::Word(1),
            Place::Line(number) if byte == b' ' => {
                self.lines = self.lines.max(number);
                Place::Rest
            }
            Place::Word(count) if SYNCPOINT.get(count).copied() == Some(byte) => {
                if count + 1 == SYNCPOINT.len() {
                    Place::Point(0)
                } else {
                    Place::Word(count + 1)
                }
            }
            Place::Point(number) if byte.is_ascii_digit() => Place::Point(with_digit(number, byte)),
            _ => Place::Rest,
        }
    }
}
