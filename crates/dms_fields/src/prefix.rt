//! Fields from the first byte of a string on. Each reader answers its field and the bytes behind it.

ghost use Rattle.std.specs.Prelude.{◌≡◌, option_map};
ghost use Rattle.std.specs.Int.{w16, w32, w64};
ghost use Rattle.dms_fields.specs.Prefix.{byte_first, number_first, bytes_first};

/// The first byte, and the bytes behind it; None exactly where there is none.
pub fn u8_at(bytes: &[u8]) -> Option<(u8, &[u8])>
    ensures { option_map (λ x. (x.0, x.1.now)) result ≡ byte_first bytes.now }
{
    match bytes {
        [first, rest @ ..] => Some((*first, rest)),
        _ => None,
    }
}

/// The number in the first two bytes, and the bytes behind them; None exactly where too few are there.
pub fn u16_at(bytes: &[u8]) -> Option<(u16, &[u8])>
    ensures { option_map (λ x. (x.0, x.1.now)) result ≡ number_first w16 bytes.now }
{
    if bytes.len() < 2 {
        return None;
    }
    let (field, rest) = bytes.split_at(2);
    Some((u16::from_be_bytes([field[0], field[1]]), rest))
}

/// The number in the first four bytes, and the bytes behind them; None exactly where too few are there.
pub fn u32_at(bytes: &[u8]) -> Option<(u32, &[u8])>
    ensures { option_map (λ x. (x.0, x.1.now)) result ≡ number_first w32 bytes.now }
{
    if bytes.len() < 4 {
        return None;
    }
    let (field, rest) = bytes.split_at(4);
    Some((
        u32::from_be_bytes([field[0], field[1], field[2], field[3]]),
        rest,
    ))
}

/// The number in the first eight bytes, and the bytes behind them; None exactly where too few are there.
pub fn u64_at(bytes: &[u8]) -> Option<(u64, &[u8])>
    ensures { option_map (λ x. (x.0, x.1.now)) result ≡ number_first w64 bytes.now }
{
    if bytes.len() < 8 {
        return None;
    }
    let (field, rest) = bytes.split_at(8);
    let number = u64::from_be_bytes([
        field[0], field[1], field[2], field[3], field[4], field[5], field[6], field[7],
    ]);
    Some((number, rest))
}

/// The first `n` bytes, and the bytes behind them; None exactly where too few are there.
pub fn slice_at(bytes: &[u8], n: usize) -> Option<(&[u8], &[u8])>
    ensures { option_map (λ x. (x.0.now, x.1.now)) result ≡ bytes_first n bytes.now }
{
    if bytes.len() < n {
        return None;
    }
    Some(bytes.split_at(n))
}
