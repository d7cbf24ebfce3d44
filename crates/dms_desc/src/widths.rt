ghost use Rattle.std.specs.Prelude.{◌≡◌, min};
ghost use Rattle.dms_desc.specs.Widths.{width_of, item_width, record_width};

use crate::Item;
use dms_base::ItemKind;

/// How many bytes a value of a kind takes, without the byte for its presence: at most 255.
pub fn width_of(kind: ItemKind) -> u8
    ensures { result ≡ width_of kind }
{
    match kind {
        ItemKind::Alpha(n) => n,
        ItemKind::Number(_, _, _) => 8,
        ItemKind::Bool => 1,
        ItemKind::Field(_) => 8,
        ItemKind::Link(_, _) => 4,
    }
}

/// How many bytes an item takes in a record or a key, with the byte for its presence: at most 256.
pub fn item_width(kind: ItemKind) -> u32
    ensures { result ≡ item_width kind }
{
    u32::from(width_of(kind)) + 1
}

/// How many bytes a record with these items takes; the count stops at 2^32 - 1.
pub fn record_width(items: &[Item]) -> u32
    ensures { result ≡ min (record_width items.now) 4294967295 }
{
    let mut width = 0u32;
    for item in items {
        width = width.saturating_add(item_width(item.kind));
    }
    width
}
