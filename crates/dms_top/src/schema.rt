ghost use Rattle.std.specs.Prelude.{◌≡◌, ◌<◌, ℕ, List, IfOk, IsErrOf, length};
ghost use Rattle.dms_feed.specs.Feeds.{Remains};
ghost use Rattle.dms_top.specs.Schema.{is_script, schema_text as text_of};
ghost use Rattle.dms_feed.specs.Raws.{CutLine};
ghost use Rattle.dms_audfile.specs.Counting.{CountedAt};
ghost use Rattle.dms_top.specs.Taking.{TakesOrEnds, IsLong, IsWholeText, CutText};

use dms_base::Bytes;
use dms_feed::{Feed, RawFault, line_text, next_raw};
use dms_site::Source;
use std::alloc::Global;

/// So many bytes of a line are taken: more than a schema's text may have with a line SCRIPT behind it.
const LINE_ROOM: u64 = 1_000_008;

/// The bytes that the text of a schema may have.
const TEXT_BYTES: usize = 1_000_000;

/// Why the text of a schema can't be taken.
#[derive(Clone, Copy, Debug, PartialEq, Eq)]
pub enum TextFault {
    Input,
    Memory,
    /// It has more than 1,000,000 bytes.
    Long,
}

/// What was taken of the text of a schema.
#[derive(Clone, Copy, Debug, PartialEq, Eq)]
pub enum TextLine {
    /// A line of the text, with its line feed.
    Text,
    /// A line SCRIPT, with its line feed.
    Script,
    /// The last line of the input, without a line feed, or nothing, at its end.
    Last,
}

/// The text of a schema.
#[derive(Drop)]
pub struct SchemaText {
    pub text: Bytes,
    /// Whether a line SCRIPT with its line feed ended it, so that lines of a script may follow. Else the input is at its end.
    pub script: bool,
}

fn is_script(line: &[u8]) -> bool
    ensures { result ≡ is_script line.now }
{
    line_text(line) == b"SCRIPT".as_slice()
}

/// Takes one more line of the text of a schema.
fn schema_line<I: Source>(
    alloc: Global,
    feed: &mut Feed,
    source: &mut I,
    text: &mut Bytes,
) -> Result<TextLine, TextFault>
    ensures line { IfOk result (λ taken. (all : List ℕ) → Remains feed.old (I.left source.old) all → TakesOrEnds taken text.old text.new all feed.new (I.left source.new)) }
    ensures long { IsErrOf result TextFault.Long → (all : List ℕ) → Remains feed.old (I.left source.old) all → IsLong text.old all }
    ensures failed { IsErrOf result TextFault.Input → (all : List ℕ) → Remains feed.old (I.left source.old) all → CutLine 1000008 (I.left source.new) all }
    ensures same { I.same_source source.old source.new }
    ensures counted { CountedAt (IsErrOf result TextFault.Input) (I.faults source.old) (I.faults source.new) }
{
    match next_raw(alloc, feed, source, LINE_ROOM, LINE_ROOM) {
        Err(RawFault::Input) => return Err(TextFault::Input),
        Err(RawFault::Memory) => return Err(TextFault::Memory),
        Err(RawFault::Bytes) => return Err(TextFault::Long),
        Ok(None) => return Ok(TextLine::Last),
        Ok(Some(raw)) => {
            if is_script(raw.kept.as_slice()) {
                if raw.ended {
                    return Ok(TextLine::Script);
                }
                return Ok(TextLine::Last);
            }
            match text.extend(raw.kept.as_slice()) {
                Ok(()) => {}
                Err(_) => return Err(TextFault::Memory),
            }
            if text.as_slice().len() > TEXT_BYTES {
                return Err(TextFault::Long);
            }
            if raw.ended {
                return Ok(TextLine::Text);
            }
            Ok(TextLine::Last)
        }
    }
}

/// The text of a schema: what stands before the first line SCRIPT. Behind a last line without a line feed nothing more is taken from
/// the source.
pub fn schema_text<I: Source>(
    alloc: Global,
    feed: &mut Feed,
    source: &mut I,
) -> Result<SchemaText, TextFault>
    ensures text { IfOk result (λ taken. (all : List ℕ) → Remains feed.old (I.left source.old) all → IsWholeText taken all feed.new (I.left source.new)) }
    ensures long { IsErrOf result TextFault.Long → (all : List ℕ) → Remains feed.old (I.left source.old) all → 1000000 < length (text_of all) }
    ensures failed { IsErrOf result TextFault.Input → (all : List ℕ) → Remains feed.old (I.left source.old) all → CutText all (I.left source.new) }
    ensures same { I.same_source source.old source.new }
    ensures counted { CountedAt (IsErrOf result TextFault.Input) (I.faults source.old) (I.faults source.new) }
{
    let mut text = Bytes::new(alloc);
    for _line in 0..1_000_001u32 {
        match schema_line(alloc, feed, source, &mut text) {
            Err(TextFault::Input) => return Err(TextFault::Input),
            Err(TextFault::Memory) => return Err(TextFault::Memory),
            Err(TextFault::Long) => return Err(TextFault::Long),
            Ok(TextLine::Text) => {}
            Ok(TextLine::Script) => return Ok(SchemaText { text, script: true }),
            Ok(TextLine::Last) => return Ok(SchemaText {
                text,
                script: false,
            }),
        }
    }
    Err(TextFault::Long)
}
