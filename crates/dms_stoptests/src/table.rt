use crate::command::{Command, End, perform, with_files_of};
use crate::story::Story;
use dms_sitemem::MemSite;
use std::alloc::Global;
use std::test::Fail;

/// What stands in the folder before a command: what the command of this name left, done whole.
#[derive(Clone, Copy, PartialEq)]
pub enum Start {
    /// A description file whose gate is shut, and a file of each kind of an old database.
    Bare,
    Compiled,
    Initialized,
    /// The script was run.
    Ran,
    /// A dump was made of the new database, and then the script was run.
    Dumped,
}

/// A command that writes.
#[derive(Clone, Copy)]
pub enum Written {
    Compile,
    Initialize,
    Run,
    Dump,
    /// To point 3.
    Rollback,
    /// From the dump, to point 3.
    Rebuild,
    /// Of the first row of D, from the dump.
    Reconstruct,
    Load,
}

impl Written {
    /// The command, in a story.
    pub fn of(self, story: Story) -> Command {
        match self {
            Written::Compile => Command {
                words: &["compile"],
                input: story.schema(),
            },
            Written::Initialize => Command {
                words: &["initialize"],
                input: b"",
            },
            Written::Run => Command {
                words: &["run"],
                input: story.script(),
            },
            Written::Dump => Command {
                words: &["utility"],
                input: b"DUMP TO 1",
            },
            Written::Rollback => Command {
                words: &["utility"],
                input: b"ROLLBACK TO 3",
            },
            Written::Rebuild => Command {
                words: &["utility"],
                input: b"REBUILD FROM 1 TO 3",
            },
            Written::Reconstruct => Command {
                words: &["utility"],
                input: b"RECONSTRUCT D ROW 0 FROM 1",
            },
            Written::Load => Command {
                words: &["load", "854", "30"],
                input: b"",
            },
        }
    }
}

/// A command that is stopped and fails.
#[derive(Clone, Copy)]
pub struct Row {
    pub story: Story,
    pub command: Written,
    pub start: Start,
    /// The quiet points that it may leave.
    pub points: &'static [usize],
    /// The point that it leaves done whole.
    pub point: usize,
}

/// The first row of the statements that restore.
pub const RESTORES: usize = 7;

/// The commands that write. One that comes adds a row.
pub const ROWS: [Row; 10] = [
    Row {
        story: Story::Turns,
        command: Written::Compile,
        start: Start::Bare,
        points: &[0],
        point: 0,
    },
    Row {
        story: Story::Turns,
        command: Written::Initialize,
        start: Start::Compiled,
        points: &[0],
        point: 0,
    },
    Row {
        story: Story::Turns,
        command: Written::Run,
        start: Start::Initialized,
        points: &[0, 1, 2, 3, 4, 5, 6],
        point: 6,
    },
    Row {
        story: Story::Overlap,
        command: Written::Run,
        start: Start::Initialized,
        points: &[0, 1, 2, 3, 4],
        point: 4,
    },
    Row {
        story: Story::Linked,
        command: Written::Run,
        start: Start::Initialized,
        points: &[0, 1, 2, 3, 4, 5],
        point: 5,
    },
    Row {
        story: Story::Turns,
        command: Written::Dump,
        start: Start::Ran,
        points: &[6],
        point: 6,
    },
    Row {
        story: Story::Drawn,
        command: Written::Load,
        start: Start::Bare,
        points: &[0, 1, 2],
        point: 2,
    },
    Row {
        story: Story::Turns,
        command: Written::Rollback,
        start: Start::Dumped,
        points: &[6, 3],
        point: 3,
    },
    Row {
        story: Story::Turns,
        command: Written::Rebuild,
        start: Start::Dumped,
        points: &[6, 3],
        point: 3,
    },
    Row {
        story: Story::Turns,
        command: Written::Reconstruct,
        start: Start::Dumped,
        points: &[6],
        point: 6,
    },
];

/// Does a command that must succeed, with the files of a site.
pub fn made(
    alloc: Global,
    site: &MemSite,
    story: Story,
    command: Written,
) -> Result<MemSite, Fail> {
    let mut site = with_files_of(alloc, site, Vec::new(alloc))?;
    match perform(alloc, &mut site, command.of(story), Vec::new(alloc))? {
        End::Done => Ok(site),
        end => Err(Fail::new(format_args!("{end:?}"))),
    }
}

/// The folder that a command begins with.
pub fn folder(alloc: Global, row: &Row) -> Result<MemSite, Fail> {
    let mut bare = MemSite::new(alloc, Vec::new(alloc), None)?;
    bare.overwrite(alloc, 1, b"\0\0\0\0\0\x3eDMSS")?;
    for file in [10_001u32, 20_001, 30_001] {
        bare.overwrite(alloc, file, b"old")?;
    }
    if row.start == Start::Bare {
        return Ok(bare);
    }
    let compiled = made(alloc, &bare, row.story, Written::Compile)?;
    if row.start == Start::Compiled {
        return Ok(compiled);
    }
    let initialized = made(alloc, &compiled, row.story, Written::Initialize)?;
    if row.start == Start::Initialized {
        return Ok(initialized);
    }
    if row.start == Start::Ran {
        return made(alloc, &initialized, row.story, Written::Run);
    }
    let dumped = made(alloc, &initialized, row.story, Written::Dump)?;
    made(alloc, &dumped, row.story, Written::Run)
}

/// Goes on behind a command that was stopped or failed, so that a run can follow: where it was to make a file, that is made, unless it is there.
pub fn gone_on(alloc: Global, site: &mut MemSite, row: &Row) -> Result<(), Fail> {
    if row.start == Start::Bare {
        made_or_there(alloc, site, Written::Compile.of(row.story))?;
    }
    if row.start == Start::Bare || row.start == Start::Compiled {
        made_or_there(alloc, site, Written::Initialize.of(row.story))?;
    }
    Ok(())
}

fn made_or_there(alloc: Global, site: &mut MemSite, command: Command) -> Result<(), Fail> {
    match perform(alloc, site, command, Vec::new(alloc))? {
        End::Done | End::Exists => Ok(()),
        end => Err(Fail::new(format_args!("{end:?}"))),
    }
}
