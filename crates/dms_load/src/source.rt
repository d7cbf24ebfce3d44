ghost use Rattle.std.specs.Prelude.{◌≤◌, length};

use crate::line::LoadLine;
use crate::state::LoadState;

/// The lines of the script of a seed. Each is written when it is taken, so the script is never held as a whole. Taking never fails.
#[derive(Drop)]
pub struct LoadSource {
    /// How the script stands behind the line that is held.
    pub state: LoadState,
    /// So many lines are not written yet.
    pub behind: u32,
    /// The line that is held, and how many bytes of it were taken.
    pub line: LoadLine,
    pub place: usize,
    ghost within: { place ≤ length line.bytes },
}
