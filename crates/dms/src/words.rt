ghost use Rattle.std.specs.Prelude.{◌≡◌, ◌⊎◌, ◌↔◌, IfErr, None, Some, map, string_bytes};
ghost use Rattle.dms_top.specs.Words.{IsTry, IsCompile, IsPrintAudit, IsRun, IsUtility, IsInitialize, IsLoad, IsShip, IsCommand};

use dms_top::{Status, initialize_tag, is_print_audit, load_numbers, ship_file};
use std::alloc::Global;
use std::env::FillError;
use std::rt::Env;

/// No word of a request has so many bytes.
const LONG_WORD: usize = 64;

/// A command that has a help of its own.
#[derive(Clone, Copy, Debug, PartialEq, Eq)]
pub enum Topic {
    Try,
    Compile,
    Initialize,
    Run,
    Utility,
    PrintAudit,
    Load,
    Ship,
}

/// What the words of the command line ask for.
#[derive(Clone, Copy, Debug, PartialEq, Eq)]
pub enum Request {
    Help,
    HelpOf(Topic),
    Version,
    /// `try`, which touches no file.
    Try,
    Compile,
    Initialize,
    /// `print audit`, which reads the files alone.
    PrintAudit,
    Run,
    Utility,
    /// `load`, which reads no input.
    Load,
    /// `ship`, which reads the files alone.
    Ship,
}

/// The words behind the program's name. BadWords where one is long or no UTF-8, Memory where memory is refused.
pub fn words_of(rt: &HostRuntime, alloc: Global) -> Result<Vec<String>, Status>
    ensures { IfErr result (λ status. (status ≡ Status.BadWords) ⊎ (status ≡ Status.Memory)) }
{
    let mut words = Vec::new(alloc);
    let mut buffer = [0u8; LONG_WORD];
    for place in 1..usize::MAX {
        let len = match rt.arg(place, &mut buffer) {
            Ok(len) => len,
            Err(FillError::NotPresent) => break,
            Err(FillError::TooLong) => return Err(Status::BadWords),
        };
        let Ok(text) = str::from_utf8(&buffer[..len]) else {
            return Err(Status::BadWords);
        };
        let Ok(word) = String::from_str(alloc, text) else {
            return Err(Status::Memory);
        };
        if words.push(word).is_err() {
            return Err(Status::Memory);
        }
    }
    Ok(words)
}

fn is_help_word(word: &str) -> bool {
    matches!(word, "--help" | "-h")
}

/// The command whose help these words ask for: the command's words, and `--help` or `-h`.
fn help_topic(words: &[String]) -> Option<Topic> {
    match words {
        [command, last] if is_help_word(last.as_str()) => match command.as_str() {
            "try" => Some(Topic::Try),
            "compile" => Some(Topic::Compile),
            "initialize" => Some(Topic::Initialize),
            "run" => Some(Topic::Run),
            "utility" => Some(Topic::Utility),
            "load" => Some(Topic::Load),
            "ship" => Some(Topic::Ship),
            _ => None,
        },
        [first, second, last]
            if first.as_str() == "print"
                && second.as_str() == "audit"
                && is_help_word(last.as_str()) => { Some(Topic::PrintAudit) }
        _ => None,
    }
}

/// What these words ask for, None where they are bad.
pub fn request_of(words: &[String]) -> Option<Request>
    ensures try_word { result ≡ Some Request.Try ↔ IsTry (map string_bytes words.now) }
    ensures compile_word { result ≡ Some Request.Compile ↔ IsCompile (map string_bytes words.now) }
    ensures print_words { result ≡ Some Request.PrintAudit ↔ IsPrintAudit (map string_bytes words.now) }
    ensures run_word { result ≡ Some Request.Run ↔ IsRun (map string_bytes words.now) }
    ensures utility_word { result ≡ Some Request.Utility ↔ IsUtility (map string_bytes words.now) }
    ensures initialize_words { result ≡ Some Request.Initialize ↔ IsInitialize (map string_bytes words.now) }
    ensures load_words { result ≡ Some Request.Load ↔ IsLoad (map string_bytes words.now) }
    ensures ship_words { result ≡ Some Request.Ship ↔ IsShip (map string_bytes words.now) }
    ensures bad { result ≡ None → IsCommand (map string_bytes words.now) → ⊥ }
{
    if initialize_tag(words).is_some() {
        return Some(Request::Initialize);
    }
    if load_numbers(words).is_some() {
        return Some(Request::Load);
    }
    if is_print_audit(words) {
        return Some(Request::PrintAudit);
    }
    if ship_file(words).is_some() {
        return Some(Request::Ship);
    }
    if words.len() != 1 {
        return match help_topic(words) {
            None => None,
            Some(topic) => Some(Request::HelpOf(topic)),
        };
    }
    match words[0].as_str() {
        "--help" => Some(Request::Help),
        "-h" => Some(Request::Help),
        "help" => Some(Request::Help),
        "--version" => Some(Request::Version),
        "try" => Some(Request::Try),
        "compile" => Some(Request::Compile),
        "run" => Some(Request::Run),
        "utility" => Some(Request::Utility),
        _ => None,
    }
}
