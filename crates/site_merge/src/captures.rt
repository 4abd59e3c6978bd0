//! Finds two sites that counted one capture.

ghost use Rattle.std.specs.Prelude.{◌≡◌, ◌+◌, ◌<◌, ◌≤◌, ◌↔◌, ℕ, length, IfErr, IfNone, IfSome, IsTrue, OnOk};
ghost use Rattle.site_merge.specs.SiteCut.{site_limit};
ghost use Rattle.site_merge.specs.Taking.{AreAlike, AreAlikeAt, AreFirstAlike};

use crate::SiteFault;
use crate::taking::SiteMark;

/// Refuses marks of which two are of one capture.
pub(crate) fn check_captures(marks: &[SiteMark]) -> Result<(), SiteFault>
    requires { length marks.now ≤ site_limit }
    ensures apart { OnOk result ((first second : ℕ) → AreAlikeAt marks.now first second → ⊥) }
    ensures refused { IfErr result (λ fault. (first second : ℕ) × (fault ≡ SiteFault.SameCapture (first + 1) (second + 1))
        × AreFirstAlike marks.now first second) }
{
    for first in 0..marks.len() {
        if let Some(second) = same_after(marks, first) {
            return Err(SiteFault::SameCapture {
                first: first as u32 + 1,
                second: second as u32 + 1,
            });
        }
    }
    Ok(())
}

// The place of the first later mark that is of one capture with this one.
fn same_after(marks: &[SiteMark], first: usize) -> Option<usize>
    requires within { first < length marks.now }
    requires few { length marks.now ≤ site_limit }
    ensures found { IfSome result (AreAlikeAt marks.now first) }
    ensures least { IfSome result (λ second. (other : ℕ) → AreAlikeAt marks.now first other → second ≤ other) }
    ensures apart { IfNone result ((other : ℕ) → AreAlikeAt marks.now first other → ⊥) }
{
    for second in first + 1..marks.len() {
        if are_alike(&marks[first], &marks[second]) {
            return Some(second);
        }
    }
    None
}

fn are_alike(mark: &SiteMark, other: &SiteMark) -> bool
    ensures { IsTrue result ↔ AreAlike mark.now other.now }
{
    if mark.weight == 0 || other.weight == 0 {
        return false;
    }
    mark.digest == other.digest
}
