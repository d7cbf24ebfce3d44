ghost use Rattle.std.specs.Prelude.{◌≡◌};
ghost use Rattle.dms_desc.specs.Files.{file_of};

/// The number of the file that a structure's blocks stand in.
pub fn file_of(structure: u16) -> u32
    ensures { result ≡ file_of structure }
{
    30_000 + u32::from(structure)
}
