use crate::words::Topic;

/// What `--help` prints before the commands.
pub const USAGE: &str = "\
usage: dms try < FILE
       dms compile < FILE
       dms initialize [TAG]
       dms run < FILE
       dms utility < FILE
       dms print audit
       dms load SEED N
       dms ship [K] > FILE
       dms COMMAND --help
       dms --help
       dms --version

Commands, each with what it reads from standard input:

";

const TRY_USAGE: &str = "usage: dms try < FILE\n\n";

const TRY: &str = "\
\x20 try        the text of a schema, a line SCRIPT, and the lines of a script
             Runs the script over a database in memory that begins empty, and
             prints what its lines answer. Touches no file, and keeps nothing.

";

const TRY_STATUSES: &str = "Statuses: 0, 2, 6, 7, 8 and 10. See dms --help.\n";

const COMPILE_USAGE: &str = "usage: dms compile < FILE\n\n";

const COMPILE: &str = "\
\x20 compile    the text of a schema
             Writes its description to the file F00001.DMS of the current
             folder, where no description is yet.

";

const COMPILE_STATUSES: &str = "Statuses: 0, 2, 5, 6, 7, 10 and 11. See dms --help.\n";

const INITIALIZE_USAGE: &str = "usage: dms initialize [TAG]\n\n";

const INITIALIZE: &str = "\
\x20 initialize [TAG]   nothing
             Makes the empty database of the description in F00001.DMS, with
             that tag, a number from 0 to 18446744073709551615, or 0. Audit
             files, dumps and structure files of an old database are cut to
             nothing.

";

const INITIALIZE_STATUSES: &str = "Statuses: 0, 4, 5, 7, 10 and 11. See dms --help.\n";

const RUN_USAGE: &str = "usage: dms run < FILE\n\n";

const RUN: &str = "\
\x20 run        the lines of a script
             Opens the database in the current folder, as its last quiet point
             was, also where a program was stopped within it. Prints what the
             lines answer, and closes the database. What stands before a line
             SYNCPOINT that was printed survives any stop. Where standard error
             is a terminal and standard output is none, it shows there every
             second how many lines were answered, and the last SYNCPOINT.

";

const RUN_STATUSES: &str = "Statuses: 0, 3 to 10. See dms --help.\n";

const UTILITY_USAGE: &str = "usage: dms utility < FILE\n\n";

const UTILITY: &str = "\
\x20 utility    one statement: DUMP, ROLLBACK, REBUILD or RECONSTRUCT
             DUMP TO d opens the database in the current folder, as run does,
             and writes a copy of its blocks, dump d, a number from 1 to 9999,
             to a file of its own: dump 1 to F20001.DMS. A dump that is there
             already is not written over.
             ROLLBACK TO n takes the database back to quiet point n. What came
             after it is void from then on. dms print audit lists the points.
             REBUILD FROM d makes all structure files anew from dump d and the
             audit, whatever they hold, up to the last point; with TO n up to
             point n.
             RECONSTRUCT name ROW r, .. FROM d does so with these rows alone, of
             16 blocks each.

";

const UTILITY_STATUSES: &str = "Statuses: 0, 3 to 12. See dms --help.\n";

const PRINT_AUDIT_USAGE: &str = "usage: dms print audit\n\n";

const PRINT_AUDIT: &str = "\
\x20 print audit   nothing
             Prints a line for each entry that is sealed in the audit files of
             the current folder. Changes nothing, and needs no right to write.

";

const PRINT_AUDIT_STATUSES: &str = "Statuses: 0, 3, 4, 5, 7, 9 and 10. See dms --help.\n";

const LOAD_USAGE: &str = "usage: dms load SEED N\n\n";

const LOAD: &str = "\
\x20 load SEED N   nothing
             Makes a database of accounts in the current folder, where no
             description is yet, and runs 4 lines and N lines more of a script
             over it: N is a number from 0 to 20000, and the lines are drawn
             from SEED, a number from 0 to 18446744073709551615. Prints how
             many of them were answered how, in seven lines.

";

const LOAD_STATUSES: &str = "Statuses: 0, 5, 7, 8, 10 and 11. See dms --help.\n";

const SHIP_USAGE: &str = "usage: dms ship [K] > FILE\n\n";

const SHIP: &str = "\
\x20 ship [K]   nothing
             Prints the sealed audit of the database in the current folder as
             bytes, from audit file K on, a number from 1 to 9999, or 1.
             Changes nothing, and needs no right to write.

";

const SHIP_STATUSES: &str = "Statuses: 0, 3, 4, 5, 7, 9 and 10. See dms --help.\n";

/// What `--help` prints behind the commands.
pub const STATUSES: &str = "\
Statuses. At one above 0 a line on standard error says why, and behind it may
stand what helps: the place in the text, what the system said, or what to do.

   0  done
   1  bad words
   2  the schema is refused
   3  there is no database
   4  the description is missing, or an audit file or a dump is, or isn't
      sealed, or is one of another database, or the point of a restore can't
      be had
   5  a call on a file failed, or the folder is in use
   6  reading the input failed
   7  memory was refused
   8  the script is too long, or holds too many lines, or the audit is full
   9  a block of an audit file or of a structure file is damaged
  10  printing failed
  11  the description, the database or the dump is there already
  12  the statement is bad

The guide is docs/GUIDE.md in the repository of the program, and examples for
try are in the folder examples there.
";

/// What `--version` prints.
pub const VERSION: &str = "dms 0.1.0\n";

/// The commands in the order of the help.
pub const TOPICS: [Topic; 8] = [
    Topic::Try,
    Topic::Compile,
    Topic::Initialize,
    Topic::Run,
    Topic::Utility,
    Topic::PrintAudit,
    Topic::Load,
    Topic::Ship,
];

/// How a command is called.
pub fn usage_of(topic: Topic) -> &'static str {
    match topic {
        Topic::Try => TRY_USAGE,
        Topic::Compile => COMPILE_USAGE,
        Topic::Initialize => INITIALIZE_USAGE,
        Topic::Run => RUN_USAGE,
        Topic::Utility => UTILITY_USAGE,
        Topic::PrintAudit => PRINT_AUDIT_USAGE,
        Topic::Load => LOAD_USAGE,
        Topic::Ship => SHIP_USAGE,
    }
}

/// What a command does.
pub fn text_of(topic: Topic) -> &'static str {
    match topic {
        Topic::Try => TRY,
        Topic::Compile => COMPILE,
        Topic::Initialize => INITIALIZE,
        Topic::Run => RUN,
        Topic::Utility => UTILITY,
        Topic::PrintAudit => PRINT_AUDIT,
        Topic::Load => LOAD,
        Topic::Ship => SHIP,
    }
}

/// The statuses that a command ends with.
pub fn statuses_of(topic: Topic) -> &'static str {
    match topic {
        Topic::Try => TRY_STATUSES,
        Topic::Compile => COMPILE_STATUSES,
        Topic::Initialize => INITIALIZE_STATUSES,
        Topic::Run => RUN_STATUSES,
        Topic::Utility => UTILITY_STATUSES,
        Topic::PrintAudit => PRINT_AUDIT_STATUSES,
        Topic::Load => LOAD_STATUSES,
        Topic::Ship => SHIP_STATUSES,
    }
}
