//! Numbers of a stream, byte by byte.

ghost use Rattle.std.specs.Prelude.{◌≡◌, ◌≤◌};
ghost use Rattle.dms_stream.specs.Taking.{may_begin};

/// Whether some number from `low` to `high` begins with these bytes, of which so many are still to come.
pub(crate) fn may_begin(left: u32, low: u32, high: u32, got: u64) -> bool
    requires few { left ≤ 3 }
    requires small { got ≤ 1099511627775 }
    ensures { result ≡ may_begin left low high got }
{
    let scale = match left {
        0 => 1u64,
        1 => 256,
        2 => 65_536,
        _ => 16_777_216,
    };
    got * scale <= u64::from(high) && u64::from(low) < (got + 1) * scale
}
