//! How far a command is, on one line of standard error that is rewritten. No contract speaks of it.

use crate::answers::Answers;
use crate::places::Part;
use arrayvec::ArrayString;
use std::fmt::{self, Write};
use std::io::IsTerminal;
use std::rt::Clock;
use std::time::Instant;

/// Room for the line.
const LONGEST: usize = 80;

/// The line is rewritten after so many seconds.
const TURN: u64 = 1;

/// By what it is seen how far a command is.
#[derive(Clone, Copy, Debug, PartialEq, Eq)]
pub enum Measure {
    /// By the answers that are printed.
    Answers,
    /// By the audit file or the dump that is read or written, or by how many lines are done.
    Files,
}

/// What is known of how far it is.
#[derive(Drop)]
enum Known {
    Answers(Answers),
    Files(Part),
    /// So many lines of so many are done.
    Lines(u64, u64),
}

/// How much of it is done, in percent.
pub(crate) fn percent(done: u64, of: u64) -> u64 {
    if done >= of {
        return 100;
    }
    done.saturating_mul(100) / of
}

/// How far a command is.
#[derive(Drop)]
pub struct Progress {
    known: Known,
    /// When the line was written last, or this began.
    turned: Instant,
    shown: bool,
}

/// The line. A shorter one is filled up, so that it covers what stood there.
impl fmt::Display for Known {
    fn fmt<W: fmt::Write>(&self, f: &mut fmt::Formatter<W>) -> fmt::Result {
        match self {
            Known::Answers(answers) => {
                let lines = answers.lines;
                match answers.syncpoint {
                    None => write!(f, "{lines} lines"),
                    Some(number) => write!(f, "{lines} lines, SYNCPOINT {number}"),
                }
            }
            Known::Files(Part::Beginning) => f.write_str("beginning"),
            Known::Files(Part::Audit(number)) => write!(f, "audit file {number:<8}"),
            Known::Files(Part::Dump(copied)) => {
                let dump = copied.dump;
                let percent = copied.percent();
                write!(f, "dump {dump}, {percent} %  ")
            }
            Known::Lines(done, of) => {
                let percent = percent(*done, *of);
                write!(f, "{of} lines, {percent} %  ")
            }
        }
    }
}

impl Progress {
    /// Nothing done yet. None unless standard error is a terminal and there is a clock; nor where answers are printed on a
    /// terminal, which show how far the command is.
    pub fn begin(rt: &HostRuntime, measure: Measure) -> Option<Progress> {
        if !rt.stderr().is_terminal() {
            return None;
        }
        if measure == Measure::Answers && rt.stdout().is_terminal() {
            return None;
        }
        match Instant::now(rt) {
            Err(_) => None,
            Ok(turned) => Some(Progress {
                known: match measure {
                    Measure::Answers => Known::Answers(Answers::new()),
                    Measure::Files => Known::Files(Part::Beginning),
                },
                turned,
                shown: false,
            }),
        }
    }

    /// Before something is printed: what is no answer of many stands on a line of its own.
    pub(crate) fn make_way<R: Clock + Eprint>(&mut self, rt: &R) {
        let answers = match &self.known {
            Known::Answers(_) => true,
            Known::Files(_) | Known::Lines(_, _) => false,
        };
        if answers {
            self.turn(rt);
        } else {
            self.end(rt);
            self.shown = false;
        }
    }

    /// Takes what was printed.
    pub(crate) fn read(&mut self, bytes: &[u8]) {
        if let Known::Answers(answers) = &mut self.known {
            answers.read(bytes);
        }
    }

    /// The part of the database that the command is at, where it is seen by that.
    pub(crate) fn part(&mut self) -> Option<&mut Part> {
        match &mut self.known {
            Known::Answers(_) | Known::Lines(_, _) => None,
            Known::Files(part) => Some(part),
        }
    }

    /// So many lines of so many are done.
    pub(crate) fn pass_lines(&mut self, done: u64, of: u64) {
        self.known = Known::Lines(done, of);
    }

    /// Rewrites the line, where a second has gone since it was written.
    pub(crate) fn turn<R: Clock + Eprint>(&mut self, rt: &R) {
        let Ok(now) = Instant::now(rt) else {
            return;
        };
        if now.duration_since(self.turned).as_secs() >= TURN {
            self.turned = now;
            self.shown = true;
            self.write(rt, "");
        }
    }

    /// Ends the line, where one was written.
    pub(crate) fn end<R: Eprint>(&self, rt: &R) {
        if self.shown {
            self.write(rt, "\n");
        }
    }

    /// Writes the line, and this behind it.
    fn write<R: Eprint>(&self, rt: &R, behind: &str) {
        let known = &self.known;
        let mut text: ArrayString<LONGEST> = ArrayString::new();
        if write!(text, "\rdms: {known}{behind}").is_ok() {
            let _unwritten = eprint!(rt; "{text}").is_err();
        }
    }
}
