//! What is said of a statement that was carried out.

ghost use Rattle.std.specs.Prelude.{◌≡◌, ◌++◌, ◌∷◌, [], IfOk, IsTrue, decimal};
ghost use Rattle.dms_moments.specs.Moments.{Steps};
ghost use Rattle.dms_site.specs.Files.{PrintsPartOf};
ghost use Rattle.dms_audfile.specs.Counting.{CountedAt};
ghost use Rattle.dms_status.specs.Saying.{IsSpoken, SaysLine};
ghost use Rattle.dms_dumping.specs.Writing.{dumped_text, point_line};

use dms_base::{Bytes, Memory};
use dms_guard::Ended;
use dms_site::Site;
use dms_status::Status;
use std::alloc::Global;

/// A line of these words and the number of a point.
#[tactic(auto, unfolding(crate::specs::Writing::point_line))]
pub fn point_line(alloc: Global, words: &[u8], point: u64) -> Result<Bytes, Memory>
    ensures { IfOk result (λ text. text ≡ point_line words.now point) }
{
    let mut text = Bytes::copy_of(alloc, words)?;
    let digits = format!(in alloc; "{point}")?;
    text.extend(digits.as_str().as_bytes())?;
    text.extend(b"\n")?;
    Ok(text)
}

/// What is said of a dump that was made.
pub(crate) fn dumped_text(alloc: Global, dump: u16, point: u64) -> Result<Bytes, Memory>
    ensures { IfOk result (λ text. text ≡ dumped_text dump point) }
{
    let mut words = Bytes::copy_of(alloc, b"DUMPED ")?;
    let number = format!(in alloc; "{dump}")?;
    words.extend(number.as_str().as_bytes())?;
    words.extend(b" AT POINT ")?;
    point_line(alloc, words.as_slice(), point)
}

/// Says a line. Answers Ok or SayFault.
pub fn say_done<S: Site>(mut site: S, line: &[u8]) -> Ended<S>
    ensures says { IsTrue S.tells_said → SaysLine result.status line.now (S.said site) (S.said result.site) }
    ensures statuses { IsSpoken result.status }
    ensures files { IsTrue S.tells → S.files result.site ≡ S.files site }
    ensures moments { Steps (PrintsPartOf line.now) (S.clock site) (S.clock result.site) }
    ensures same { S.same_site site result.site }
    ensures disk { S.disk_faults result.site ≡ S.disk_faults site }
    ensures say { CountedAt (result.status ≡ Status.SayFault) (S.say_faults site) (S.say_faults result.site) }
{
    match site.say(line) {
        Ok(()) => Ended {
            status: Status::Ok,
            site,
        },
        Err(_) => Ended {
            status: Status::SayFault,
            site,
        },
    }
}
