use arrayvec::ArrayString;
use std::fmt;

/// So many bytes of a line are shown at most.
const SHOWN: usize = 72;

/// So many of them stand before the fault, where the line has more.
const BEFORE: usize = 48;

/// A place in the text of a schema.
#[derive(Drop)]
pub struct SchemaPlace<'a> {
    text: &'a [u8],
    /// Counts bytes from 1. The end of the text stands at its length + 1.
    place: usize,
    wanted: Option<&'static str>,
}

impl<'a> SchemaPlace<'a> {
    /// The place of a byte, counted from 1, and what must stand there, where that is known.
    pub fn new(text: &'a [u8], place: u32, wanted: Option<&'static str>) -> SchemaPlace<'a> {
        SchemaPlace {
            text,
            place: place as usize,
            wanted,
        }
    }

    /// The text before the place.
    fn before(&self) -> &'a [u8] {
        let count = self.place.saturating_sub(1).min(self.text.len());
        &self.text[..count]
    }

    /// The text from the place on.
    fn behind(&self) -> &'a [u8] {
        let count = self.place.saturating_sub(1).min(self.text.len());
        &self.text[count..]
    }
}

/// How many lines end in a text.
fn lines_ended(text: &[u8]) -> usize {
    text.iter().filter(|byte| **byte == b'\n').count()
}

/// What stands behind the last line feed of a text.
fn last_line(text: &[u8]) -> &[u8] {
    match text.iter().rposition(|byte| *byte == b'\n') {
        None => text,
        Some(at) => text.get(at + 1..).unwrap_or(&[]),
    }
}

/// What stands before the first line feed of a text, or a carriage return.
fn first_line(text: &[u8]) -> &[u8] {
    match text
        .iter()
        .position(|byte| *byte == b'\n' || *byte == b'\r')
    {
        None => text,
        Some(at) => &text[..at],
    }
}

/// A byte as it is shown: one that isn't printable is a question mark, and a tab a space.
fn shown(byte: u8) -> char {
    match byte {
        b' '..=b'~' => char::from(byte),
        b'\t' => ' ',
        _ => '?',
    }
}

/// Adds bytes as they are shown, as far as there is room.
fn show(line: &mut ArrayString<SHOWN>, bytes: &[u8]) {
    for byte in bytes {
        let _full = line.try_push(shown(*byte)).is_err();
    }
}

/// Adds so many spaces, as far as there is room.
fn indent(line: &mut ArrayString<SHOWN>, count: usize) {
    for _space in 0..count.min(SHOWN) {
        let _full = line.try_push(' ').is_err();
    }
}

/// `line 3, column 12, where SET must stand`, the line's text, and a mark under the place.
impl<'a> fmt::Display for SchemaPlace<'a> {
    fn fmt<W: fmt::Write>(&self, f: &mut fmt::Formatter<W>) -> fmt::Result {
        let left = last_line(self.before());
        let right = first_line(self.behind());
        let line = lines_ended(self.before()).saturating_add(1);
        let column = left.len().saturating_add(1);
        write!(f, "line {line}, column {column}")?;
        if self.behind().is_empty() {
            f.write_str(", the end of the text")?;
        }
        if let Some(wanted) = self.wanted {
            write!(f, ", where {wanted} must stand")?;
        }
        let left = &left[left.len().saturating_sub(BEFORE)..];
        let mut text: ArrayString<SHOWN> = ArrayString::new();
        show(&mut text, left);
        show(&mut text, right);
        let mut mark: ArrayString<SHOWN> = ArrayString::new();
        indent(&mut mark, left.len());
        write!(f, "\n    {text}\n    {mark}^")
    }
}
