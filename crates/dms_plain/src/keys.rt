ghost use Rattle.std.specs.Prelude.{◌≡◌};
ghost use Rattle.dms_desc.specs.Keys.{key_of, key_cmp};

use dms_base::Value;
use dms_desc::KeyPart;
use dms_model::{item_at, part_order, value_at};
use std::cmp::Ordering;

/// The order of a record's key and a key.
pub fn order_to_key(parts: &[KeyPart], values: &[Value], key: &[Value]) -> Ordering
    ensures { result ≡ key_cmp parts.now (key_of parts.now values.now) key.now }
{
    for (i, part) in parts.iter().enumerate() {
        let ahead = part_order(
            part.descending,
            item_at(values, part.item),
            value_at(key, i),
        );
        match ahead {
            Ordering::Equal => {}
            _ => return ahead,
        }
    }
    Ordering::Equal
}

/// The order of the keys of two records.
pub fn order_of_keys(parts: &[KeyPart], a: &[Value], b: &[Value]) -> Ordering
    ensures { result ≡ key_cmp parts.now (key_of parts.now a.now) (key_of parts.now b.now) }
{
    for part in parts {
        let ahead = part_order(
            part.descending,
            item_at(a, part.item),
            item_at(b, part.item),
        );
        match ahead {
            Ordering::Equal => {}
            _ => return ahead,
        }
    }
    Ordering::Equal
}
