ghost use Rattle.std.specs.Prelude.{◌≡◌, ◌≢◌, ◌↔◌, [], Some, Option, map, string_bytes, IsTrue};
ghost use Rattle.dms_audfile.specs.Counting.{CountedAt};
ghost use Rattle.dms_loadrun.specs.LoadDoes.{LoadDoes};
ghost use Rattle.dms_run.specs.Opens.{DatabaseState, HoldsTold};
ghost use Rattle.dms_runtop.specs.RunDoes.{RunDoes};
ghost use Rattle.dms_top.specs.Auditing.{AuditDoes};
ghost use Rattle.dms_top.specs.Compiling.{CompileDoes, IsBefore};
ghost use Rattle.dms_top.specs.Initializing.{InitializeDoes};
ghost use Rattle.dms_top.specs.Premises.{OnTry, OnCompile, OnInitialize, OnLoad, OnPrintAudit, OnOthers, OnReading, OnRun, OnShip, OnUnread, OnUtility, OfInput};
ghost use Rattle.dms_top.specs.Shipping.{ShipDoes};
ghost use Rattle.dms_top.specs.Trying.{TryDoes};
ghost use Rattle.dms_top.specs.Words.{IsTry, IsCompile, IsRun, IsUtility, IsCommand, IsUntouched};
ghost use Rattle.dms_utility.specs.UtilityDoes.{UtilityDoes};

use crate::audit_run::{is_print_audit, print_trail};
use crate::compile_run::compile_input;
use crate::initialize_run::initialize_database;
use crate::schema::{TextFault, schema_text};
use crate::ship_run::ship_or_load;
use crate::tags::initialize_tag;
use crate::try_run::try_lines;
use dasdl_phrases::ParseFault;
use dms_feed::Feed;
use dms_newdb::{JudgedSchema, judge};
use dms_runtop::run_command;
use dms_site::{Site, Source};
use dms_status::{SchemaFault, Status};
use dms_utility::utility_command;
use std::alloc::Global;

fn is_try(words: &[String]) -> bool
    ensures { IsTrue result ↔ IsTry (map string_bytes words.now) }
{
    words.len() == 1 && words[0].as_str() == "try"
}

fn is_compile(words: &[String]) -> bool
    ensures { IsTrue result ↔ IsCompile (map string_bytes words.now) }
{
    words.len() == 1 && words[0].as_str() == "compile"
}

/// Whether the words are `run`.
pub fn is_run(words: &[String]) -> bool
    ensures { IsTrue result ↔ IsRun (map string_bytes words.now) }
{
    words.len() == 1 && words[0].as_str() == "run"
}

/// Whether the words are `utility`.
pub fn is_utility(words: &[String]) -> bool
    ensures { IsTrue result ↔ IsUtility (map string_bytes words.now) }
{
    words.len() == 1 && words[0].as_str() == "utility"
}

/// `try`: reads the text of a schema, a line SCRIPT and the lines of a script, and prints what the lines answer over a
/// database in memory that begins empty. It touches no file.
fn try_input<S: Site, I: Source>(alloc: Global, site: &mut S, input: &mut I) -> Status
    ensures does { TryDoes S.Site I.Source site.old site.new input.old input.new result }
    ensures words { result ≢ Status.BadWords }
    ensures end { result ≡ Status.Ok → OfInput (I.left input.old) (λ all. I.left input.new ≡ Some []) }
    ensures untouched { IsUntouched result → site.new ≡ site.old }
    ensures disk { CountedAt (result ≡ Status.DiskFault) (S.disk_faults site.old) (S.disk_faults site.new) }
    ensures say { CountedAt (result ≡ Status.SayFault) (S.say_faults site.old) (S.say_faults site.new) }
    ensures input { CountedAt (result ≡ Status.InputFault) (I.faults input.old) (I.faults input.new) }
    ensures same_site { S.same_site site.old site.new }
    ensures same_source { I.same_source input.old input.new }
{
    let mut feed = Feed::new();
    let taken = match schema_text(alloc, &mut feed, input) {
        Ok(taken) => taken,
        Err(TextFault::Input) => return Status::InputFault,
        Err(TextFault::Memory) => return Status::Memory,
        Err(TextFault::Long) => {
            return Status::SchemaRefused(SchemaFault::Parse(ParseFault::TooMany(1_000_000)));
        }
    };
    match judge(alloc, taken.text.as_slice()) {
        JudgedSchema::Memory => Status::Memory,
        JudgedSchema::Refused(fault) => Status::SchemaRefused(fault),
        JudgedSchema::Description(desc) => {
            if !taken.script {
                return Status::Ok;
            }
            try_lines(alloc, &desc, site, &mut feed, input)
        }
    }
}

/// Does what the words say: `try` runs a script over a database in memory, `compile` makes the description file, `initialize`
/// the empty database of that description, `run` runs a script over that database, `utility` carries out a statement on it, `print audit`
/// prints the entries of its audit, `ship` prints its sealed audit as a stream, and `load` makes a database of its own, by a script that is drawn from a seed.
pub fn dms<S: Site, I: Source>(
    alloc: Global,
    words: &[String],
    site: &mut S,
    input: &mut I,
) -> Status
    ghost state: { Option DatabaseState }
    // a caller may tell the state that the files stand for, and needn't
    requires told { IsTrue S.tells → HoldsTold state (S.files site.old) }
    // ---- every command
    // status 1 comes exactly where the words are no command
    ensures words { result ≡ Status.BadWords ↔ (IsCommand (map string_bytes words.now) → ⊥) }
    // at status 0 the input was read to its end, where the command has one
    ensures end { OnReading words.now (result ≡ Status.Ok → OfInput (I.left input.old) (λ all. I.left input.new ≡ Some [])) }
    // status 6 comes where taking from the input failed, once, and else that count stays
    ensures input { CountedAt (result ≡ Status.InputFault) (I.faults input.old) (I.faults input.new) }
    // status 5 comes where a call on the files failed, once, and else that count stays
    ensures disk { CountedAt (result ≡ Status.DiskFault) (S.disk_faults site.old) (S.disk_faults site.new) }
    // status 10 comes where printing failed, once, and else that count stays
    ensures say { CountedAt (result ≡ Status.SayFault) (S.say_faults site.old) (S.say_faults site.new) }
    // at the statuses that come before a file is changed the files are as they were; `run`, `utility` and `load` say below what they do
    ensures before { OnOthers words.now (IsBefore result → IsTrue S.tells → S.files site.new ≡ S.files site.old) }
    // the site is the one that was lent
    ensures same_site { S.same_site site.old site.new }
    // the input is the one that was lent
    ensures same_source { I.same_source input.old input.new }
    // where the words are of no command that reads its input nothing of it is taken
    ensures untaken { OnUnread words.now (input.new ≡ input.old) }
    // at the statuses that come before a call on the site it is as it was
    ensures untouched { IsUntouched result → site.new ≡ site.old }
    // ---- each command; its record has a field for each promise
    ensures try_does { OnTry words.now (TryDoes S.Site I.Source site.old site.new input.old input.new result) }
    ensures compile_does { OnCompile words.now (CompileDoes S.Site I.Source site.old site.new input.old result) }
    ensures initialize_does { OnInitialize words.now (λ tag. InitializeDoes S.Site tag site.old site.new result) }
    ensures load_does { OnLoad words.now (λ seed n. LoadDoes S.Site seed n site.old site.new result) }
    ensures audit_does { OnPrintAudit words.now (AuditDoes S.Site site.old site.new result) }
    ensures ship_does { OnShip words.now (λ k. ShipDoes S.Site k site.old site.new result) }
    ensures utility_does { OnUtility words.now (UtilityDoes S.Site I.Source site.old site.new input.old input.new result) }
    // of the state that is told
    ensures run_does { OnRun words.now (RunDoes S.Site I.Source state site.old site.new input.old input.new result) }
{
    if is_try(words) {
        return try_input(alloc, site, input);
    }
    if is_compile(words) {
        return compile_input(alloc, site, input);
    }
    if is_print_audit(words) {
        return print_trail(alloc, site);
    }
    if is_run(words) {
        return run_command(alloc, site, input);
    }
    if is_utility(words) {
        return utility_command(alloc, site, input);
    }
    match initialize_tag(words) {
        Some(tag) => initialize_database(alloc, site, tag),
        None => ship_or_load(alloc, words, site),
    }
}
