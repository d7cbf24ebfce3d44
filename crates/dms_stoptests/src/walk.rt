use std::alloc::Global;
use std::test::Fail;

const BLOCK: usize = 1024;

/// A block of a structure file.
fn block(file: &[u8], number: usize) -> Result<&[u8], Fail> {
    let from = number.saturating_mul(BLOCK);
    match file.get(from..from.saturating_add(BLOCK)) {
        Some(bytes) => Ok(bytes),
        None => Err(Fail::new(format_args!("there is no block {number}"))),
    }
}

fn two_bytes(bytes: &[u8], at: usize) -> Result<usize, Fail> {
    match bytes.get(at..) {
        Some([a, b, ..]) => Ok(u16::from_be_bytes([*a, *b]) as usize),
        _ => Err(Fail::new("a block is too short")),
    }
}

fn four_bytes(bytes: &[u8], at: usize) -> Result<usize, Fail> {
    match bytes.get(at..) {
        Some([a, b, c, d, ..]) => Ok(u32::from_be_bytes([*a, *b, *c, *d]) as usize),
        _ => Err(Fail::new("a block is too short")),
    }
}

/// Fails where a block isn't of this kind, and where it has less than half of what fits, rounded down. The root alone may have less.
/// Answers how many entries or separators it has.
fn count_in(bytes: &[u8], kind: u8, fit: usize, is_root: bool) -> Result<usize, Fail> {
    let count = two_bytes(bytes, 1)?;
    if bytes.first() != Some(&kind) || count == 0 || count > fit || !is_root && count < fit / 2 {
        let found = bytes.first();
        return Err(Fail::new(format_args!(
            "a block of kind {found:?} has {count} of {fit}, not of kind {kind}"
        )));
    }
    Ok(count)
}

/// The children of all inner blocks of a level, in order.
fn below(alloc: Global, file: &[u8], level: &[usize], width: usize) -> Result<Vec<usize>, Fail> {
    let mut children = Vec::new(alloc);
    for number in level {
        let bytes = block(file, *number)?;
        let count = count_in(
            bytes,
            2,
            1017 / width.saturating_add(4).max(1),
            level.len() == 1,
        )?;
        for k in 0..count.saturating_add(1) {
            children.push(four_bytes(bytes, k.saturating_mul(4).saturating_add(3))?)?;
        }
    }
    Ok(children)
}

/// Fails where the leaves of a level aren't a chain, each followed by the next and the last one by none, and where their entries don't rise.
/// Answers how many entries they have.
fn entries_of(file: &[u8], level: &[usize], width: usize) -> Result<usize, Fail> {
    let mut entries = 0usize;
    let mut last: &[u8] = &[];
    for (k, number) in level.iter().enumerate() {
        let bytes = block(file, *number)?;
        let count = count_in(bytes, 1, 1017 / width.max(1), level.len() == 1)?;
        let next = match level.get(k.saturating_add(1)) {
            Some(next) => *next,
            None => 0,
        };
        if four_bytes(bytes, 3)? != next {
            return Err(Fail::new(format_args!("leaf {number} isn't followed by {next}")));
        }
        for i in 0..count {
            let from = i.saturating_mul(width).saturating_add(7);
            match bytes.get(from..from.saturating_add(width)) {
                Some(entry) if last < entry => last = entry,
                _ => return Err(Fail::new(format_args!("leaf {number} doesn't rise"))),
            }
        }
        entries = entries.saturating_add(count);
    }
    Ok(entries)
}

/// What a walk over a tree finds.
#[derive(Clone, Copy, Debug, PartialEq)]
pub struct Walked {
    pub leaves: usize,
    pub entries: usize,
}

/// Walks over the tree of a set whose entries have this width, level by level. Fails where its leaves aren't all of one depth, where a
/// block but the root isn't half full, where the leaves aren't chained in order, and where the entries don't rise.
pub fn walk(alloc: Global, file: &[u8], width: usize) -> Result<Walked, Fail> {
    let head = block(file, 0)?;
    if !head.starts_with(&[3, 1]) {
        return Err(Fail::new("block 0 is no head of a tree"));
    }
    let mut level = vec![in alloc; four_bytes(head, 2)?]?;
    for _depth in 0..10u32 {
        let Some(first) = level.first() else {
            return Err(Fail::new("a level has no block"));
        };
        if block(file, *first)?.first() == Some(&1) {
            let entries = entries_of(file, level.as_slice(), width)?;
            return Ok(Walked {
                leaves: level.len(),
                entries,
            });
        }
        level = below(alloc, file, level.as_slice(), width)?;
    }
    Err(Fail::new("the tree is too deep"))
}
