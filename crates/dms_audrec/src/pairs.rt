//! Lists of pairs of numbers of four bytes each.

ghost use Rattle.std.specs.Prelude.{◌≡◌, ◌≤◌, ◌+◌, ◌*◌, ◌/◌, length, take, drop};
ghost use Rattle.std.specs.Int.{w32, from_be_bytes};
ghost use Rattle.dms_audrec.specs.Reading.{counts_at, rows_at};
ghost use Rattle.dms_audrec.specs.Spelling.{counts_rise, rows_rise};

/// The two numbers of four bytes, big-endian, that the bytes begin with, and what follows.
pub fn pair_at(bytes: &[u8]) -> (u32, u32, &[u8])
    requires { 8 ≤ length bytes.now }
    ensures one { result.0 ≡ from_be_bytes w32 (take 4 bytes.now) }
    ensures two { result.1 ≡ from_be_bytes w32 (take 4 (drop 4 bytes.now)) }
    ensures rest { result.2.now ≡ drop 8 bytes.now }
{
    let (front, rest) = bytes.split_at(4);
    let (back, rest) = rest.split_at(4);
    (
        u32::from_be_bytes([front[0], front[1], front[2], front[3]]),
        u32::from_be_bytes([back[0], back[1], back[2], back[3]]),
        rest,
    )
}

/// Whether these are the bytes of counts of structure files, their numbers rising.
pub fn counts_rise(list: &[u8]) -> bool
    ensures { result ≡ counts_rise 30001 (counts_at (length list.now / 8) list.now) }
{
    let mut low = 30001;
    let mut rest = list;
    for _pair in 0..list.len() / 8 {
        let (file, blocks, after) = pair_at(rest);
        if file < low || file > 30200 || blocks > 2_097_152 {
            return false;
        }
        low = file + 1;
        rest = after;
    }
    true
}

/// Whether these are the bytes of rows of structure files, rising by file and row.
pub(crate) fn rows_rise(list: &[u8]) -> bool
    ensures { result ≡ rows_rise 0 (rows_at (length list.now / 8) list.now) }
{
    let mut low: u64 = 0;
    let mut rest = list;
    for _pair in 0..list.len() / 8 {
        let (file, row, after) = pair_at(rest);
        let key = u64::from(file) * 4_294_967_296 + u64::from(row);
        if file < 30001 || file > 30200 || key < low {
            return false;
        }
        low = key + 1;
        rest = after;
    }
    true
}
