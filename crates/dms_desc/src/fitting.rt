ghost use Rattle.std.specs.Prelude.{◌≡◌};
ghost use Rattle.dms_desc.specs.Fitting.{values_fit};

use crate::Item;
use dms_base::{Value, fits};

/// Whether there are as many values as items, and each fits its item.
pub fn values_fit(items: &[Item], values: &[Value]) -> bool
    ensures { result ≡ values_fit items.now values.now }
{
    let mut rest = values;
    for item in items {
        match rest {
            [] => return false,
            [value, more @ ..] => {
                if !fits(&item.kind, value) {
                    return false;
                }
                rest = more;
            }
        }
    }
    rest.is_empty()
}
