ghost use Rattle.std.specs.Prelude.{◌≡◌, ◌≤◌, ◌<◌, length, IfOk};

use crate::host::or_failed;
use dms_site::Failed;
use std::io::Read;

/// So many bytes of names are read by one call. The system's longest name has 255.
const ROOM: usize = 4096;

/// A listing of the folder that is under way: the names that were read and not yet given, each ended by a NUL.
#[derive(Drop)]
pub struct Listing<D> {
    dir: D,
    names: [u8; ROOM],
    from: usize,
    to: usize,
    ghost ordered: { from ≤ to },
    ghost within: { to ≤ 4096 },
}

impl<D: Read> Listing<D> {
    /// A listing of which no name was read.
    pub fn new(dir: D) -> Listing<D>
        ensures dir { result.dir ≡ dir }
        ensures none { result.from ≡ result.to }
    {
        Listing {
            dir,
            names: [0; ROOM],
            from: 0,
            to: 0,
        }
    }

    /// Reads names, where each that was read was given. Answers Err where the reading failed.
    pub fn fill(&mut self) -> Result<(), Failed>
        ensures kept { self.old.from < self.old.to → self.new ≡ self.old }
    {
        if self.from < self.to {
            return Ok(());
        }
        let count = or_failed(self.dir.read(&mut self.names))?;
        self.from = 0;
        self.to = count;
        Ok(())
    }

    /// Gives the next of the names that were read, and its length, 0 where there is none. Answers Err where the name is longer than `into`.
    pub fn take(&mut self, into: &mut [u8]) -> Result<usize, Failed>
        ensures count { IfOk result (λ n. n ≤ length into.new) }
    {
        let rest = &self.names[self.from..self.to];
        let count = rest
            .iter()
            .position(|byte| *byte == 0)
            .unwrap_or(rest.len());
        if count > into.len() {
            return Err(Failed);
        }
        into[..count].copy_from_slice(&rest[..count]);
        self.from = self.to.min(self.from + count + 1);
        Ok(count)
    }
}
