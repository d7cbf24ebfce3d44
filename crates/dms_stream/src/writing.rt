//! The head of a stream, and the places of its blocks.

ghost use Rattle.std.specs.Prelude.{◌≡◌, ◌≤◌, ◌++◌, ◌∷◌, [], IfOk, take, drop, length};
ghost use Rattle.std.specs.Int.{w16, w32, to_be_bytes};
ghost use Rattle.dms_stream.specs.Stream.{head_bytes};

use dms_base::{Bytes, Memory};
use dms_fields::{put_u16, put_u32};
use std::alloc::Global;

/// How many bytes the record of a block has.
pub const RECORD: usize = 4103;

/// The head of a stream. Answers Err where memory is refused.
pub fn head_text(alloc: Global, tag: u64, total: u16, description: &[u8]) -> Result<Bytes, Memory>
    requires { length description.now ≤ 65535 }
    ensures { IfOk result (λ text. text ≡ head_bytes (record { tag = tag; total = total; description = description.now })) }
{
    let mut text = Bytes::copy_of(alloc, b"DMSR")?;
    text.extend(&tag.to_be_bytes())?;
    text.extend(&total.to_be_bytes())?;
    text.extend(&(description.len() as u32).to_be_bytes())?;
    text.extend(description)?;
    Ok(text)
}

/// Writes the place of a block before its bytes.
pub fn put_place(bytes: &mut [u8], file: u32, block: u16)
    requires { length bytes.old ≡ 4103 }
    ensures { bytes.new ≡ 1 ∷ (to_be_bytes w32 file ++ (to_be_bytes w16 block ++ drop 7 bytes.old)) }
{
    bytes[0] = 1;
    put_u32(bytes, 1, file);
    put_u16(bytes, 5, block);
}
