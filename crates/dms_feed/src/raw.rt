ghost use Rattle.std.specs.Prelude.{◌≡◌, ◌≤◌, ◌<◌, ◌+◌, ◌^◌, [], ◌++◌, length, IfOk, IsErrOf, List, ℕ, ◌∷◌, OnOk, nat_lt, if◌then◌else◌, ◌==◌, Some, None, false};
ghost use Rattle.dms_base.specs.Causes.{Rose};
ghost use Rattle.dms_feed.specs.Feeds.{Remains};
ghost use Rattle.dms_feed.specs.Lines.{is_end, line_text};
ghost use Rattle.dms_feed.specs.Raws.{TakesLine, OverRoom, CutLine};

use crate::Feed;
use dms_base::{Bytes, Memory};
use dms_site::Source;
use std::alloc::Global;

/// A line as it stands in the input, with its line feed if it has one.
#[derive(Debug, Drop)]
pub struct Raw {
    /// Its first bytes, at most as many as were asked for.
    pub kept: Bytes,
    /// How many bytes it has.
    pub length: u64,
    /// Whether a line feed ends it. Only the last line of an input may have none.
    pub ended: bool,
}

/// Why a line can't be taken.
#[derive(Clone, Copy, Debug, PartialEq, Eq)]
pub enum RawFault {
    Input,
    Memory,
    /// The line has more bytes than there is room for.
    Bytes,
}

/// Keeps a byte that stands at this place of a line, if it is one of the first.
fn keep(kept: &mut Bytes, place: u64, byte: u8, cap: u64) -> Result<(), Memory>
    ensures { OnOk result (kept.new ≡ (if nat_lt place cap then kept.old ++ byte ∷ [] else kept.old)) }
{
    if place < cap {
        return kept.push(byte);
    }
    Ok(())
}

/// The line at the input's end, if it has bytes.
fn at_end(kept: Bytes, length: u64) -> Option<Raw>
    ensures { result ≡ (if length == 0 then None else Some (record { kept = kept; length = length; ended = false })) }
{
    if length == 0 {
        return None;
    }
    Some(Raw {
        kept,
        length,
        ended: false,
    })
}

/// Whether a line ends with these bytes.
fn is_end(rest: &[u8]) -> bool
    ensures { result ≡ is_end rest.now }
{
    match rest {
        [b] => *b == b'\n',
        [b, c] => *b == b'\r' && *c == b'\n',
        _ => false,
    }
}

/// A line without its line feed, and without a carriage return that stands before it.
pub fn line_text(line: &[u8]) -> &[u8]
    ensures { result.now ≡ line_text line.now }
{
    for place in 0..line.len() {
        if is_end(&line[place..]) {
            return &line[..place];
        }
    }
    line
}

/// The next line by its first `cap` bytes, or none at the end. At most `room` bytes are taken as its own.
/// Where taking fails, a part of the line is gone, and the rest is left in the source.
pub fn next_raw<I: Source>(
    alloc: Global,
    feed: &mut Feed,
    source: &mut I,
    cap: u64,
    room: u64,
) -> Result<Option<Raw>, RawFault>
    requires { room < 2 ^ 40 }
    ensures line { IfOk result (TakesLine cap feed.old (I.left source.old) feed.new (I.left source.new) room) }
    ensures bytes { IsErrOf result RawFault.Bytes → OverRoom feed.old (I.left source.old) room }
    ensures failed { IsErrOf result RawFault.Input → (all : List ℕ) → Remains feed.old (I.left source.old) all → CutLine room (I.left source.new) all }
    ensures same { I.same_source source.old source.new }
    ensures later { I.faults source.old ≤ I.faults source.new }
    ensures input { IsErrOf result RawFault.Input → Rose (I.faults source.old) (I.faults source.new) }
    ensures once { I.faults source.new ≤ I.faults source.old + 1 }
    ensures clean { (IsErrOf result RawFault.Input → ⊥) → I.faults source.new ≡ I.faults source.old }
{
    let mut kept = Bytes::new(alloc);
    for turn in 0..room + 1 {
        match feed.next(source) {
            Err(_) => return Err(RawFault::Input),
            Ok(None) => return Ok(at_end(kept, turn)),
            Ok(Some(byte)) => {
                if turn == room {
                    return Err(RawFault::Bytes);
                }
                match keep(&mut kept, turn, byte, cap) {
                    Ok(()) => {}
                    Err(_) => return Err(RawFault::Memory),
                }
                if byte == b'\n' {
                    return Ok(Some(Raw {
                        kept,
                        length: turn + 1,
                        ended: true,
                    }));
                }
            }
        }
    }
    Err(RawFault::Bytes)
}
