ghost use Rattle.std.specs.Prelude.{◌≡◌, replicate, OnOk, IfOk};
ghost use Rattle.dms_sitemem.specs.Picks.{draw_bytes, seed_after, fill_of};

use std::alloc::{AllocError, Global};

/// What a stop leaves where something was written since the last sync.
#[derive(Clone, Copy, Drop)]
pub enum Fill {
    /// The bytes from before.
    Old,
    /// The bytes that were written.
    New,
    /// The byte 7.
    Sevens,
    /// Bytes that are drawn from a seed.
    Drawn,
}

/// What a pick leaves where something was written.
pub fn fill_of(pick: u64) -> Fill
    ensures { result ≡ fill_of pick }
{
    match pick {
        0 => Fill::Old,
        1 => Fill::New,
        7 => Fill::Sevens,
        _ => Fill::Drawn,
    }
}

/// Draws so many bytes. Answers Err where memory is refused.
pub fn draw(alloc: Global, count: usize, seed: &mut u64) -> Result<Vec<u8>, AllocError>
    ensures bytes { IfOk result (λ v. v.items ≡ draw_bytes count seed.old) }
    ensures seed { OnOk result (seed.new ≡ seed_after count seed.old) }
{
    let mut bytes = Vec::new(alloc);
    for _place in 0..count {
        *seed = seed
            .wrapping_mul(6364136223846793005)
            .wrapping_add(1442695040888963407);
        bytes.push(((*seed >> 33) % 256) as u8)?;
    }
    Ok(bytes)
}

/// Fills so many bytes with a byte. Answers Err where memory is refused.
pub fn all_of(alloc: Global, count: usize, byte: u8) -> Result<Vec<u8>, AllocError>
    ensures { IfOk result (λ v. v.items ≡ replicate count byte) }
{
    let mut bytes = Vec::new(alloc);
    bytes.resize(count, byte)?;
    Ok(bytes)
}
