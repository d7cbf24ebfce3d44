//! The text of a statement.

ghost use Rattle.std.specs.Prelude.{◌≡◌, ◌<◌, [], ℕ, List, Some, IfOk, IsErrOf, length};
ghost use Rattle.dms_audfile.specs.Counting.{CountedAt};

use dms_base::Bytes;
use dms_feed::Feed;
use dms_site::Source;
use std::alloc::Global;

/// Why the text of a statement can't be taken.
#[derive(Clone, Copy, Debug, PartialEq, Eq)]
pub(crate) enum TextFault {
    Input,
    Memory,
    /// It has more than 10,000 bytes.
    Long,
}

/// All that the source has left. Its end is reached. Of more than 10,000 bytes it answers Long.
pub(crate) fn statement_text<I: Source>(alloc: Global, source: &mut I) -> Result<Bytes, TextFault>
    ensures text { IfOk result (λ text. (all : List ℕ) → I.left source.old ≡ Some all → text ≡ all) }
    ensures end { IfOk result (λ text. (all : List ℕ) → I.left source.old ≡ Some all → I.left source.new ≡ Some []) }
    ensures long { IsErrOf result TextFault.Long → (all : List ℕ) → I.left source.old ≡ Some all → 10000 < length all }
    ensures same { I.same_source source.old source.new }
    ensures counted { CountedAt (IsErrOf result TextFault.Input) (I.faults source.old) (I.faults source.new) }
{
    let mut feed = Feed::new();
    let mut text = Bytes::new(alloc);
    for _turn in 0..10_001u32 {
        match feed.next(source) {
            Err(_) => return Err(TextFault::Input),
            Ok(None) => return Ok(text),
            Ok(Some(byte)) => match text.push(byte) {
                Ok(()) => {}
                Err(_) => return Err(TextFault::Memory),
            },
        }
    }
    Err(TextFault::Long)
}
