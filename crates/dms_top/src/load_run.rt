//! `load`, and its words.

ghost use Rattle.std.specs.Prelude.{◌≡◌, ◌↔◌, ◌≤◌, IfSome, IsTrue, codes, map, string_bytes};
ghost use Rattle.std.specs.Str.{bytes_eq};
ghost use Rattle.dms_audfile.specs.Counting.{CountedAt};
ghost use Rattle.dms_loadrun.specs.LoadDoes.{LoadDoes};
ghost use Rattle.dms_top.specs.Premises.{OnLoad};
ghost use Rattle.dms_top.specs.Words.{IsLoad, IsUntouched, lines_said, load_numbers, tag_of};

use crate::tags::tag_of;
use dms_loadrun::load_command;
use dms_site::Site;
use dms_status::Status;
use std::alloc::Global;

/// Whether a word is `load`.
fn is_load(word: &str) -> bool
    ensures { result ≡ bytes_eq word.now (codes "load") }
{
    word == "load"
}

/// The number of lines that a word says in plain digits, at most 20,000.
fn lines_of(word: &[u8]) -> Option<u32>
    ensures said { result ≡ lines_said (tag_of word.now) }
    ensures few { IfSome result (λ n. n ≤ 20000) }
{
    let number = tag_of(word)?;
    if number > 20_000 {
        return None;
    }
    Some(number as u32)
}

/// The seed and the number of lines that the words of `load` say; None where they aren't its words.
pub fn load_numbers(words: &[String]) -> Option<(u64, u32)>
    ensures said { result ≡ load_numbers (map string_bytes words.now) }
    ensures few { IfSome result (λ numbers. numbers.1 ≤ 20000) }
{
    if words.len() != 3 {
        return None;
    }
    if !is_load(words[0].as_str()) {
        return None;
    }
    let seed = tag_of(words[1].as_str().as_bytes())?;
    let lines = lines_of(words[2].as_str().as_bytes())?;
    Some((seed, lines))
}

/// `load`, where the words are its words.
pub fn load_or_refuse<S: Site>(alloc: Global, words: &[String], site: &mut S) -> Status
    ensures words { result ≡ Status.BadWords ↔ (IsLoad (map string_bytes words.now) → ⊥) }
    ensures does { OnLoad words.now (λ seed n. LoadDoes S.Site seed n site.old site.new result) }
    ensures none { (IsLoad (map string_bytes words.now) → ⊥) → site.new ≡ site.old }
    ensures untouched { IsUntouched result → site.new ≡ site.old }
    ensures disk { CountedAt (result ≡ Status.DiskFault) (S.disk_faults site.old) (S.disk_faults site.new) }
    ensures say { CountedAt (result ≡ Status.SayFault) (S.say_faults site.old) (S.say_faults site.new) }
    ensures input { result ≡ Status.InputFault → ⊥ }
    ensures same_site { S.same_site site.old site.new }
{
    match load_numbers(words) {
        Some((seed, lines)) => load_command(alloc, site, seed, lines),
        None => Status::BadWords,
    }
}
