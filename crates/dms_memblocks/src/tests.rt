use crate::MemBlocks;
use dms_block::{Block, BlockFault, BlockId, Blocks, Changes};
use std::alloc::Global;
use std::test::Fail;

/// What is done with the blocks.
#[derive(Clone, Copy)]
enum Deed {
    /// A block of a file becomes one of this byte.
    Write(u32, u32, u8),
    Quiet(u64),
    Sync,
    BackOut,
}

/// Does it, and answers the number of a quiet point or 0.
fn done(blocks: &mut MemBlocks, alloc: Global, deed: &Deed) -> Result<u64, BlockFault> {
    match deed {
        Deed::Write(file, block, byte) => {
            let mut changes = Changes::new(alloc);
            changes.set(
                BlockId {
                    file: *file,
                    block: *block,
                },
                &Block([*byte; 1024]),
            )?;
            let many = blocks.files.len();
            if *file < 30_001
                || *file as usize - 30_001 >= many
                || *block > blocks.count(*file)
                || *block > 100
            {
                return Ok(99);
            }
            blocks.apply(alloc, &changes)?;
            Ok(0)
        }
        Deed::Quiet(_) => blocks.quiet(),
        Deed::Sync => {
            blocks.sync()?;
            Ok(0)
        }
        Deed::BackOut => {
            blocks.back_out(alloc)?;
            Ok(0)
        }
    }
}

#[test]
fn goes_back_to_the_last_point(rt: HostRuntime) -> Result<(), Fail> {
    let alloc = rt.alloc();
    let mut blocks = MemBlocks::new(alloc, 2).expect(&rt, "memory");
    for (deed, first, second) in [
        (
            Deed::Write(30_001, 0, 1),
            b"\x01".as_slice(),
            b"".as_slice(),
        ),
        (
            Deed::Write(30_001, 1, 2),
            b"\x01\x02".as_slice(),
            b"".as_slice(),
        ),
        (Deed::BackOut, b"".as_slice(), b"".as_slice()),
        (
            Deed::Write(30_002, 0, 3),
            b"".as_slice(),
            b"\x03".as_slice(),
        ),
        (Deed::Quiet(1), b"".as_slice(), b"\x03".as_slice()),
        (
            Deed::Write(30_002, 0, 4),
            b"".as_slice(),
            b"\x04".as_slice(),
        ),
        (
            Deed::Write(30_001, 0, 5),
            b"\x05".as_slice(),
            b"\x04".as_slice(),
        ),
        (Deed::BackOut, b"".as_slice(), b"\x03".as_slice()),
        (Deed::Sync, b"".as_slice(), b"\x03".as_slice()),
        (Deed::Quiet(2), b"".as_slice(), b"\x03".as_slice()),
    ] {
        let number = match deed {
            Deed::Quiet(n) => n,
            _ => 0,
        };
        assert_eq!(rt; done(&mut blocks, alloc, &deed), Ok(number));
        for (file, bytes) in [(30_001, first), (30_002, second)] {
            assert_eq!(rt; blocks.blocks_of(file).len(), bytes.len());
            for (block, byte) in blocks.blocks_of(file).iter().zip(bytes) {
                assert!(rt; block.0 == [*byte; 1024]);
            }
        }
    }
    Ok(())
}
