ghost use Rattle.std.specs.Prelude.{◌≡◌, ◌≢◌, ◌≤◌, [], ℕ, Some, IfOk, IsTrue, length};
ghost use Rattle.dms_desc.specs.Shape.{Described, as_described};
ghost use Rattle.dms_desc_bytes.specs.Spelling.{spelling};
ghost use Rattle.dms_descfile.specs.DescriptionFile.{sealed_file, IsSealed, IsUnsealed};
ghost use Rattle.dms_descfile.specs.Becoming.{Creates};
ghost use Rattle.dms_moments.specs.Moments.{Steps};
ghost use Rattle.dms_site.specs.Files.{Same, Only};
ghost use Rattle.dms_top.specs.Compiling.{compiled_text, CompileDoes, IsBefore, IsOfFile, SaysSealed};
ghost use Rattle.dms_status.specs.Saying.{SaysLine, IsSpoken};
ghost use Rattle.dms_newdb.specs.Saying.{SiteAndTextStay};
ghost use Rattle.dms_top.specs.Premises.{OfInput};
ghost use Rattle.dms_newdb.specs.Saying.{OfSealed};
ghost use Rattle.dms_audfile.specs.Counting.{CountedAt};
ghost use Rattle.dms_top.specs.Words.{IsOfCompile, IsPast, IsUntouched};

use crate::schema::TextFault;
use crate::whole::whole_text;
use dasdl_phrases::ParseFault;
use dms_base::{Bytes, Memory};
use dms_desc::Description;
use dms_descfile::{FileFault, read_description, seal_description};
use dms_newdb::{JudgedSchema, judge};
use dms_site::{Site, Source};
use dms_status::{SchemaFault, Status};
use std::alloc::Global;

/// What `compile` says of so many structures.
#[tactic(auto, unfolding(crate::specs::Compiling::compiled_text))]
fn compiled_text(alloc: Global, count: usize) -> Result<Bytes, Memory>
    ensures { IfOk result (λ text. text ≡ compiled_text count) }
{
    let mut text = Bytes::copy_of(alloc, b"COMPILED ")?;
    let digits = format!(in alloc; "{count}")?;
    text.extend(digits.as_str().as_bytes())?;
    text.extend(b" STRUCTURES\n")?;
    Ok(text)
}

/// Seals a description, and prints a line.
fn seal_and_say<S: Site>(alloc: Global, site: &mut S, desc: &Description, line: &[u8]) -> Status
    requires { length (spelling (as_described desc.now)) ≤ 65535 }
    ensures of_file { IsOfFile result }
    ensures statuses { IsOfCompile result }
    ensures exists { result ≢ Status.Exists }
    ensures sealed { IsSpoken result → IsTrue S.tells → S.files site.new 1 ≡ sealed_file (as_described desc.now) }
    ensures others { IsTrue S.tells → (g : ℕ) → g ≢ 1 → S.files site.new g ≡ S.files site.old g }
    ensures before { IsBefore result → IsTrue S.tells → S.files site.new ≡ S.files site.old }
    ensures stays { IsBefore result → Steps Same (S.clock site.old) (S.clock site.new) }
    ensures says { IsTrue S.tells_said → SaysLine result line.now (S.said site.old) (S.said site.new) }
    ensures creates { IsTrue S.tells → Creates (sealed_file (as_described desc.now)) (S.files site.old) (S.clock site.old) (S.clock site.new) }
    ensures stable { IsSpoken result → IsTrue S.tells → Only (S.files site.new) (S.clock site.new) }
    ensures says_sealed { IsTrue S.tells → SaysSealed (sealed_file (as_described desc.now)) (S.clock site.old) (S.clock site.new) }
    ensures same_site { S.same_site site.old site.new }
    ensures disk { CountedAt (result ≡ Status.DiskFault) (S.disk_faults site.old) (S.disk_faults site.new) }
    ensures say { CountedAt (result ≡ Status.SayFault) (S.say_faults site.old) (S.say_faults site.new) }
{
    match seal_description(alloc, site, desc) {
        Err(FileFault::Disk) => return Status::DiskFault,
        Err(FileFault::Memory) => return Status::Memory,
        Ok(()) => {}
    }
    match site.say(line) {
        Ok(()) => Status::Ok,
        Err(_) => Status::SayFault,
    }
}

/// Seals a description where the site holds none, and says so.
fn create<S: Site>(alloc: Global, site: &mut S, desc: &Description) -> Status
    requires { length (spelling (as_described desc.now)) ≤ 65535 }
    ensures of_file { IsOfFile result }
    ensures statuses { IsOfCompile result }
    ensures exists { result ≡ Status.Exists → IsTrue S.tells → (d : Described) × IsSealed (S.files site.old 1) d }
    ensures unsealed { IsSpoken result → IsTrue S.tells → IsUnsealed (S.files site.old 1) }
    ensures sealed { IsSpoken result → IsTrue S.tells → S.files site.new 1 ≡ sealed_file (as_described desc.now) }
    ensures others { IsTrue S.tells → (g : ℕ) → g ≢ 1 → S.files site.new g ≡ S.files site.old g }
    ensures before { IsBefore result → IsTrue S.tells → S.files site.new ≡ S.files site.old }
    ensures stays { IsBefore result → Steps Same (S.clock site.old) (S.clock site.new) }
    ensures says { IsTrue S.tells_said → SaysLine result (compiled_text (length desc.now.structures)) (S.said site.old) (S.said site.new) }
    ensures creates { IsTrue S.tells → Creates (sealed_file (as_described desc.now)) (S.files site.old) (S.clock site.old) (S.clock site.new) }
    ensures stable { IsSpoken result → IsTrue S.tells → Only (S.files site.new) (S.clock site.new) }
    ensures says_sealed { IsTrue S.tells → SaysSealed (sealed_file (as_described desc.now)) (S.clock site.old) (S.clock site.new) }
    ensures kept { IsTrue S.tells → OfSealed (S.files site.old) (λ d. SiteAndTextStay S.Site site.old site.new) }
    ensures same_site { S.same_site site.old site.new }
    ensures disk { CountedAt (result ≡ Status.DiskFault) (S.disk_faults site.old) (S.disk_faults site.new) }
    ensures say { CountedAt (result ≡ Status.SayFault) (S.say_faults site.old) (S.say_faults site.new) }
{
    match read_description(alloc, site) {
        Err(FileFault::Disk) => Status::DiskFault,
        Err(FileFault::Memory) => Status::Memory,
        Ok(Some(_)) => Status::Exists,
        Ok(None) => match compiled_text(alloc, desc.structures.as_slice().len()) {
            Err(_) => Status::Memory,
            Ok(line) => seal_and_say(alloc, site, desc, line.as_slice()),
        },
    }
}

/// `compile`: takes the whole input as the text of a schema, writes its description into the description file and seals it,
/// and prints how many structures it has.
///
/// Answers SchemaRefused by the text's first fault, then Exists where the description file is a sealed description
/// already; no file is changed by then.
pub fn compile_input<S: Site, I: Source>(alloc: Global, site: &mut S, input: &mut I) -> Status
    ensures does { CompileDoes S.Site I.Source site.old site.new input.old result }
    ensures words { result ≢ Status.BadWords }
    ensures end { IsPast result → OfInput (I.left input.old) (λ all. I.left input.new ≡ Some []) }
    ensures untouched { IsUntouched result → site.new ≡ site.old }
    ensures before { IsBefore result → IsTrue S.tells → S.files site.new ≡ S.files site.old }
    ensures disk { CountedAt (result ≡ Status.DiskFault) (S.disk_faults site.old) (S.disk_faults site.new) }
    ensures say { CountedAt (result ≡ Status.SayFault) (S.say_faults site.old) (S.say_faults site.new) }
    ensures input { CountedAt (result ≡ Status.InputFault) (I.faults input.old) (I.faults input.new) }
    ensures same_site { S.same_site site.old site.new }
    ensures same_source { I.same_source input.old input.new }
{
    let text = match whole_text(alloc, input) {
        Ok(text) => text,
        Err(TextFault::Input) => return Status::InputFault,
        Err(TextFault::Memory) => return Status::Memory,
        Err(TextFault::Long) => {
            return Status::SchemaRefused(SchemaFault::Parse(ParseFault::TooMany(1_000_000)));
        }
    };
    match judge(alloc, text.as_slice()) {
        JudgedSchema::Memory => Status::Memory,
        JudgedSchema::Refused(fault) => Status::SchemaRefused(fault),
        JudgedSchema::Description(desc) => create(alloc, site, &desc),
    }
}
