ghost use Rattle.std.specs.Prelude.{◌≡◌, ◌≤◌};
ghost use Rattle.dms_key.specs.KeyBytes.{kind_of, part_width};
ghost use Rattle.dms_sets.specs.Padded.{entry_width};

use dms_base::ItemKind;
use dms_desc::{KeyPart, item_width};

/// How many bytes a part of a key takes.
fn part_width(kinds: &[ItemKind], part: &KeyPart) -> u32
    ensures { result ≡ part_width (kind_of kinds.now part.now) }
{
    match kinds.get((part.item as usize).saturating_sub(1)) {
        Some(kind) => item_width(*kind),
        None => 0,
    }
}

/// How many bytes the entries of a set or subset with these key parts have: four for the owner, the key, and four for
/// the record.
pub fn entry_width(kinds: &[ItemKind], parts: &[KeyPart]) -> usize
    requires { entry_width kinds.now parts.now ≤ 104 }
    ensures { result ≡ entry_width kinds.now parts.now }
{
    let mut width = 8;
    for part in parts {
        width += part_width(kinds, part) as usize;
    }
    width
}
