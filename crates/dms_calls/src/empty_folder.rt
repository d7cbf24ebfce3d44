ghost use Rattle.std.specs.Prelude.{true, false, None, []};
ghost use Rattle.std.proofs.Common.{refl, ap};
ghost use Rattle.std.proofs.lemmas.Option.{none-some};
ghost use Rattle.dms_calls.specs.World.{World};
ghost use Rattle.dms_calls.specs.Empty.{empty_world, empty_clock};

use crate::Calls;
use dms_site::Failed;

/// An open file of a folder that has none.
#[derive(Drop)]
pub struct NoFile;

/// A listing of a folder that has no files.
#[derive(Drop)]
pub struct NoNames;

/// A folder without files on a full disk, and an output that is closed: it tells what it holds, which is nothing.
#[derive(Drop)]
pub struct EmptyFolder;

impl Calls for EmptyFolder {
    type Handle = NoFile;

    type Listing = NoNames;

    ghost tells = { true };

    ghost file = { λ h. 0 };

    ghost given = { λ l. [] };

    ghost listed = { λ l m. None };

    ghost world = { λ s. empty_world };

    ghost clock = { λ s. empty_clock };

    ghost broken = { λ s. false };

    ghost may_stay = { λ s tells. refl };

    ghost told = { λ s w now. refl };

    ghost now_said = { λ s w now. ap (λ (w : World). w.said) now };

    ghost counts_now = { λ s t w le now. now };

    ghost one_name = { λ s w m n i now is here. absurd (none-some i here) };

    fn open(&mut self, _name: &str) -> Result<Option<NoFile>, Failed> {
        Ok(None)
    }

    fn create(&mut self, _name: &str) -> Result<NoFile, Failed> {
        Err(Failed)
    }

    fn size(&mut self, _handle: &NoFile) -> Result<u64, Failed> {
        Ok(0)
    }

    fn pread(&mut self, _handle: &NoFile, _at: u64, _into: &mut [u8]) -> Result<usize, Failed> {
        Ok(0)
    }

    fn pwrite(&mut self, _handle: &NoFile, _at: u64, _bytes: &[u8]) -> Result<usize, Failed> {
        Err(Failed)
    }

    fn ftruncate(&mut self, _handle: &NoFile, _len: u64) -> Result<(), Failed> {
        Err(Failed)
    }

    fn fsync(&mut self, _handle: &NoFile) -> Result<(), Failed> {
        Ok(())
    }

    fn fsync_folder(&mut self) -> Result<(), Failed> {
        Ok(())
    }

    fn list(&mut self) -> Result<NoNames, Failed> {
        Ok(NoNames)
    }

    fn next_name(&mut self, _listing: &mut NoNames, _into: &mut [u8]) -> Result<usize, Failed> {
        Ok(0)
    }

    fn print(&mut self, _bytes: &[u8]) -> Result<usize, Failed> {
        Err(Failed)
    }

    fn show(&mut self, _done: u64, _of: u64) {}
}
