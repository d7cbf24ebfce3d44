//! The program `dms`: its words go to the top call, over the current folder, standard output and standard input. A fault's
//! line goes to standard error, and the status is the exit code, whatever becomes of the line.
#![tactic(auto)]

mod advice;
mod help;
mod texts;
mod words;

use advice::{Advice, asked_of, is_like_script, seen_at, topic_named, wanted_behind};
use dasdl_compile::CompileFault;
use dasdl_phrases::ParseFault;
use dasdl_place::{SchemaPlace, named, wanted};
use dms_folder::FolderSite;
use dms_host::{
    Access, HeldStreams, Host, LockFault, Measure, Progress, StdinSource, Stream, Subject, Trouble,
    hold_streams, lock_folder, reaches_database, twice_named,
};
use dms_top::{SchemaFault, Status, dms};
use help::{STATUSES, TOPICS, USAGE, VERSION, statuses_of, text_of, usage_of};
use std::fmt::Write;
use std::io::{self, ErrorKind, IsTerminal};
use std::process::ExitCode;
use texts::{Ending, code_of};
use words::{Request, Topic, request_of, words_of};

/// How the program ends, and what is known beside that.
#[derive(Drop)]
struct Outcome {
    ending: Ending,
    /// Why a call of the system failed.
    trouble: Option<Trouble>,
    /// The text of a schema or a statement.
    text: Option<Vec<u8>>,
    /// Whether nothing stands behind the line of the ending.
    alone: bool,
    /// What the words ask for, where they aren't bad.
    request: Option<Request>,
    /// The command that bad words begin with.
    topic: Option<Topic>,
}

impl Outcome {
    /// Nothing is known beside the ending.
    fn new(ending: Ending) -> Outcome {
        Outcome {
            ending,
            trouble: None,
            text: None,
            alone: false,
            request: None,
            topic: None,
        }
    }

    /// A call of the system failed.
    fn failed(status: Status, trouble: Trouble) -> Outcome {
        Outcome {
            ending: Ending::Command(status),
            trouble: Some(trouble),
            text: None,
            alone: false,
            request: None,
            topic: None,
        }
    }
}

/// How printing ends.
fn printed(outcome: io::Result<()>) -> Outcome {
    match outcome {
        Ok(()) => Outcome::new(Ending::Command(Status::Ok)),
        Err(e) => Outcome::failed(Status::SayFault, Trouble::new(Subject::Output, e)),
    }
}

/// Prints the whole help.
fn print_help(rt: &HostRuntime) -> io::Result<()> {
    rt.print(USAGE)?;
    for topic in TOPICS {
        rt.print(text_of(topic))?;
    }
    rt.print(STATUSES)
}

/// Prints the help of one command.
fn print_topic(rt: &HostRuntime, topic: Topic) -> io::Result<()> {
    rt.print(usage_of(topic))?;
    rt.print(text_of(topic))?;
    rt.print(statuses_of(topic))
}

/// What a command does to the files.
fn access_of(request: Request) -> Access {
    match request {
        Request::PrintAudit | Request::Ship => Access::Reading,
        _ => Access::Writing,
    }
}

/// The input of a command. Of one that reads a schema or a statement the text is kept.
fn input_of(rt: &HostRuntime, request: Request) -> StdinSource<HostRuntime> {
    match request {
        Request::Try | Request::Compile | Request::Utility => StdinSource::keeping(*rt, rt.alloc()),
        _ => StdinSource::new(*rt),
    }
}

/// Says what is waited for, where a person at a terminal is to give the input.
fn ask(rt: &HostRuntime, request: Request) {
    if let Some(asked) = asked_of(request)
        && rt.stdin().is_terminal()
        && rt.stderr().is_terminal()
    {
        let _unwritten = eprint!(rt; "dms: {asked}; Ctrl-D ends it\n").is_err();
    }
}

/// Calls the command that the words name.
fn call(rt: &HostRuntime, request: Request, words: &[String]) -> Outcome {
    let alloc = rt.alloc();
    let progress = match request {
        Request::Run => Progress::begin(rt, Measure::Answers),
        Request::Utility | Request::Load | Request::Ship => Progress::begin(rt, Measure::Files),
        _ => None,
    };
    let host = Host::new(*rt, access_of(request), progress);
    let Ok(mut site) = FolderSite::new(host, alloc) else {
        return Outcome::new(Ending::Command(Status::Memory));
    };
    let mut input = input_of(rt, request);
    ask(rt, request);
    let status = dms(alloc, words, &mut site, &mut input);
    site.calls().end_progress();
    let (text, input_trouble) = input.end();
    Outcome {
        ending: Ending::Command(status),
        trouble: match status {
            Status::InputFault => input_trouble,
            _ => site.calls().trouble(),
        },
        text,
        alone: false,
        request: Some(request),
        topic: None,
    }
}

/// Calls `try`. What helps stands behind its line at a terminal only: programs compare all that it writes to standard error.
fn call_try(rt: &HostRuntime, words: &[String]) -> Outcome {
    let mut outcome = call(rt, Request::Try, words);
    outcome.alone = !rt.stderr().is_terminal();
    outcome
}

/// Runs a command over files, with the folder locked for it from before its first call until it ends. It doesn't begin where
/// what it prints would go into a database file.
fn call_locked(rt: &HostRuntime, request: Request, words: &[String]) -> Outcome {
    let _lock = match lock_folder(rt, access_of(request)) {
        Ok(lock) => lock,
        Err(LockFault::InUse) => return Outcome::new(Ending::InUse),
        Err(LockFault::Failed(trouble)) => return Outcome::failed(Status::DiskFault, trouble),
    };
    match reaches_database(rt, Stream::Output) {
        Ok(false) => call_apart(rt, request, words),
        Ok(true) => Outcome::new(Ending::Command(Status::SayFault)),
        Err(e) => unread(e),
    }
}

/// Runs a command over files, where each name of a database file is that of a file of its own.
fn call_apart(rt: &HostRuntime, request: Request, words: &[String]) -> Outcome {
    match twice_named(rt, rt.alloc()) {
        Ok(None) => call(rt, request, words),
        Ok(Some(on)) => {
            let error = io::Error::other("the file has another name");
            Outcome::failed(Status::DiskFault, Trouble::new(on, error))
        }
        Err(e) => unread(e),
    }
}

/// The folder can't be looked through.
fn unread(error: io::Error) -> Outcome {
    match error.kind() {
        ErrorKind::OutOfMemory => Outcome::new(Ending::Command(Status::Memory)),
        _ => Outcome::failed(Status::DiskFault, Trouble::new(Subject::Folder, error)),
    }
}

/// Does what the words of the command line ask for.
fn run(rt: &HostRuntime, held: &io::Result<HeldStreams>) -> Outcome {
    let words = match words_of(rt, rt.alloc()) {
        Ok(words) => words,
        Err(status) => return Outcome::new(Ending::Command(status)),
    };
    let Some(request) = request_of(words.as_slice()) else {
        let mut outcome = Outcome::new(Ending::Command(Status::BadWords));
        outcome.topic = topic_named(words.as_slice());
        return outcome;
    };
    match request {
        Request::Compile
        | Request::Initialize
        | Request::PrintAudit
        | Request::Run
        | Request::Utility
        | Request::Load
        | Request::Ship
            if held.is_err() => { Outcome::new(Ending::Command(Status::DiskFault)) }
        Request::Compile
        | Request::Initialize
        | Request::PrintAudit
        | Request::Run
        | Request::Utility
        | Request::Load
        | Request::Ship => call_locked(rt, request, words.as_slice()),
        _ if is_database(rt, Stream::Output) => Outcome::new(Ending::Command(Status::SayFault)),
        Request::Try => call_try(rt, words.as_slice()),
        Request::Help => printed(print_help(rt)),
        Request::HelpOf(topic) => printed(print_topic(rt, topic)),
        Request::Version => printed(rt.print(VERSION)),
    }
}

/// Whether a stream is seen to end in a database file.
fn is_database(rt: &HostRuntime, stream: Stream) -> bool {
    matches!(reaches_database(rt, stream), Ok(true))
}

/// Writes where a byte of a schema stands, and what must stand there, where that is known.
fn tell_place(rt: &HostRuntime, text: &[u8], place: u32, wanted: Option<&'static str>) {
    let shown = SchemaPlace::new(text, place, wanted);
    let _unwritten = eprint!(rt; "dms: {shown}\n").is_err();
}

/// Writes where the fault of a schema stands, where it is one of a byte.
fn tell_fault(rt: &HostRuntime, text: &[u8], fault: ParseFault) {
    match fault {
        ParseFault::Expected(place) => {
            tell_place(rt, text, place, wanted(rt.alloc(), text, place));
        }
        ParseFault::BadCharacter(place) | ParseFault::NumberRange(place) => {
            tell_place(rt, text, place, None);
        }
        ParseFault::TooMany(_) | ParseFault::Memory => {}
    }
}

/// Writes where the name stands that a schema is refused for: of one that is declared twice the second place, else the first.
fn tell_named(rt: &HostRuntime, text: &[u8], fault: CompileFault) {
    let (name, behind) = match fault {
        CompileFault::Twice(name) => (name, 1),
        CompileFault::Unknown(name)
        | CompileFault::KeyItem(name)
        | CompileFault::CondKind(name)
        | CompileFault::Embedding(name) => (name, 0),
        _ => return,
    };
    if let Some(place) = named(rt.alloc(), text, &name, behind) {
        tell_place(rt, text, place, None);
    }
}

/// Writes why a call of the system failed, where that is known, and whether the stream doesn't wait.
fn tell_trouble(rt: &HostRuntime, trouble: &Trouble) {
    let _unwritten = eprint!(rt; "dms: {trouble}\n").is_err();
    let mut text = String::new(rt.alloc());
    if write!(text, "{trouble}").is_ok()
        && text.as_str().ends_with("Resource temporarily unavailable")
    {
        let _unwritten = eprint!(rt;
            "dms: the stream doesn't wait (O_NONBLOCK): put cat between\n"
        ).is_err();
    }
}

/// Writes what the operator can do about an ending.
fn tell_advice(rt: &HostRuntime, outcome: &Outcome) {
    let advice = Advice {
        ending: outcome.ending,
        request: outcome.request,
        seen: seen_at(rt, outcome.ending),
    };
    let _unwritten = eprint!(rt; "{advice}").is_err();
}

/// Writes where the fault of a schema stands, and of `try` that a line was meant to be SCRIPT.
fn tell_schema(rt: &HostRuntime, outcome: &Outcome, fault: ParseFault) {
    let Some(text) = &outcome.text else {
        return;
    };
    tell_fault(rt, text.as_slice(), fault);
    if let (Some(Request::Try), ParseFault::Expected(place)) = (outcome.request, fault)
        && is_like_script(text.as_slice(), place)
    {
        let _unwritten = eprint!(rt; "dms: the line must be exactly SCRIPT\n").is_err();
    }
}

/// Writes where the first bad place of a statement stands.
fn tell_statement(rt: &HostRuntime, outcome: &Outcome, place: u32) {
    if let Some(text) = &outcome.text {
        let text = text.as_slice();
        let count = (place as usize).saturating_sub(1).min(text.len());
        tell_place(rt, text, place, wanted_behind(&text[..count]));
    }
    tell_advice(rt, outcome);
}

/// Writes what may help behind the line of an ending.
fn tell_more(rt: &HostRuntime, outcome: &Outcome) {
    match outcome.ending {
        Ending::Command(Status::BadWords) => {
            if let Some(topic) = outcome.topic {
                let usage = usage_of(topic).trim_end();
                let _unwritten = eprint!(rt; "dms: {usage}\n").is_err();
            }
        }
        Ending::Command(Status::SchemaRefused(SchemaFault::Parse(fault))) => {
            tell_schema(rt, outcome, fault);
            tell_advice(rt, outcome);
        }
        Ending::Command(Status::SchemaRefused(SchemaFault::Compile(fault))) => {
            if let Some(text) = &outcome.text {
                tell_named(rt, text.as_slice(), fault);
            }
            tell_advice(rt, outcome);
        }
        Ending::Command(Status::DiskFault | Status::InputFault | Status::SayFault)
            if outcome.trouble.is_some() => {
            if let Some(trouble) = &outcome.trouble {
                tell_trouble(rt, trouble);
            }
            if let Ending::Command(Status::DiskFault) = outcome.ending {
                tell_advice(rt, outcome);
            }
        }
        Ending::Command(Status::BadStatement(place)) => tell_statement(rt, outcome, place),
        _ => tell_advice(rt, outcome),
    }
}

/// Writes the line of an ending to standard error, and what may help behind it, unless that is a database file. Where the line
/// can't be written the status still tells.
fn tell(rt: &HostRuntime, outcome: &Outcome) {
    if is_database(rt, Stream::Errors) {
        return;
    }
    let ending = &outcome.ending;
    if eprint!(rt; "{ending}").is_ok() && !outcome.alone {
        tell_more(rt, outcome);
    }
}

fn main(rt: HostRuntime) -> ExitCode {
    let held = hold_streams(&rt);
    let outcome = run(&rt, &held);
    tell(&rt, &outcome);
    ExitCode::from(code_of(&outcome.ending))
}
