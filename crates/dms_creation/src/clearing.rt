//! Old files are cut to nothing.

ghost use Rattle.std.specs.Prelude.{◌≡◌, ◌⊎◌, ◌<◌, ◌≤◌, ℕ, [], IfOk, OnOk, IsTrue};
ghost use Rattle.dms_base.specs.Causes.{HasCause};
ghost use Rattle.dms_moments.specs.Moments.{Steps};
ghost use Rattle.dms_creation.specs.Clearing.{KeepsApart, KeepsOutside, Cleared, IsClear, ApartStay};

use dms_site::{Failed, Site};

/// Cuts the last present file of a range to nothing, and answers its number, or 0 where none is present.
fn clear_last<S: Site>(site: &mut S, low: u32, high: u32) -> Result<u32, Failed>
    requires { 2 ≤ low }
    ensures bound { IfOk result (λ n. 0 < n → (low ≤ n) × (n ≤ high)) }
    ensures absent { IfOk result (λ n. IsTrue S.tells → (g : ℕ) → low ≤ g → g ≤ high → n ≤ g → S.files site.new g ≡ []) }
    ensures others { IfOk result (λ n. IsTrue S.tells → (g : ℕ) → (g < low) ⊎ (high < g) → S.files site.new g ≡ S.files site.old g) }
    ensures moments { Steps (KeepsOutside low high) (S.clock site.old) (S.clock site.new) }
    ensures said { S.said site.new ≡ S.said site.old }
    ensures same_site { S.same_site site.old site.new }
    ensures faults { HasCause (S.disk_faults site.old) (S.disk_faults site.new) result }
    ensures say_faults { S.say_faults site.new ≡ S.say_faults site.old }
{
    let last = site.last_present(low, high)?;
    if last > 0 {
        site.cut(last, 0)?;
    }
    Ok(last)
}

/// Cuts each present file of a range to nothing.
fn clear_range<S: Site>(site: &mut S, low: u32, high: u32) -> Result<(), Failed>
    requires low { 2 ≤ low }
    requires order { low ≤ high }
    ensures cleared { OnOk result (IsTrue S.tells → Cleared low high (S.files site.new)) }
    ensures others { OnOk result (IsTrue S.tells → (g : ℕ) → (g < low) ⊎ (high < g) → S.files site.new g ≡ S.files site.old g) }
    ensures moments { Steps (KeepsOutside low high) (S.clock site.old) (S.clock site.new) }
    ensures said { S.said site.new ≡ S.said site.old }
    ensures same_site { S.same_site site.old site.new }
    ensures faults { HasCause (S.disk_faults site.old) (S.disk_faults site.new) result }
    ensures say_faults { S.say_faults site.new ≡ S.say_faults site.old }
{
    let mut top = high;
    while top >= low {
        let last = clear_last(site, low, top)?;
        if last == 0 {
            return Ok(());
        }
        top = last - 1;
    }
    Ok(())
}

/// Cuts each present audit file, dump and structure file to nothing.
pub fn clear_old<S: Site>(site: &mut S) -> Result<(), Failed>
    ensures clear { OnOk result (IsTrue S.tells → IsClear (S.files site.new)) }
    ensures apart { OnOk result (IsTrue S.tells → ApartStay (S.files site.old) (S.files site.new)) }
    ensures moments { Steps KeepsApart (S.clock site.old) (S.clock site.new) }
    ensures said { S.said site.new ≡ S.said site.old }
    ensures same_site { S.same_site site.old site.new }
    ensures faults { HasCause (S.disk_faults site.old) (S.disk_faults site.new) result }
    ensures say_faults { S.say_faults site.new ≡ S.say_faults site.old }
{
    clear_range(site, 10001, 20000)?;
    clear_range(site, 20001, 29999)?;
    clear_range(site, 30001, 30200)
}
