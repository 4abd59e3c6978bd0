//! The text of a report of several sites.

ghost use Rattle.std.specs.Prelude.{◌≡◌, ◌+◌, ◌*◌, ◌<◌, ◌≤◌, ◌++◌, length, IfOk, OnOk};
ghost use Rattle.site_merge.specs.SiteText.{IsShowable, site_lines, site_text_line, sites_text};

use crate::SiteReport;
use report_text::{print_lines, print_named_positions};
use run_status::push_number;
use std::alloc::{AllocError, Global};

/// The text of a report of several sites: the lines `sites` with how many there are, `site` with its number and the positions
/// of its shards for each of them, `total` and `threshold` with their numbers, the lines of the report, and `end`.
pub(crate) fn text_of(alloc: Global, made: &SiteReport) -> Result<Vec<u8>, AllocError>
    requires { IsShowable made.now }
    ensures { IfOk result (λ text. text.items ≡ sites_text made.now) }
{
    let mut text = Vec::new(alloc);
    push_number(&mut text, b"sites ", u64::from(made.sites))?;
    text.extend_from_slice(b"\n")?;
    push_sites(alloc, &mut text, made)?;
    push_number(&mut text, b"total ", made.report.total)?;
    push_number(&mut text, b"\nthreshold ", made.report.threshold)?;
    text.extend_from_slice(b"\n")?;
    print_lines(&made.report, &mut text)?;
    text.extend_from_slice(b"end\n")?;
    Ok(text)
}

// Appends the lines of the sites.
fn push_sites(alloc: Global, text: &mut Vec<u8>, made: &SiteReport) -> Result<(), AllocError>
    requires { IsShowable made.now }
    ensures { OnOk result (text.new.items ≡ text.old.items ++ site_lines made.now) }
{
    for place in 0..made.sites {
        push_site(alloc, text, made, place)?;
    }
    Ok(())
}

// Appends the line of the site at this place, from 0.
fn push_site(
    alloc: Global,
    text: &mut Vec<u8>,
    made: &SiteReport,
    place: u32,
) -> Result<(), AllocError>
    requires showable { IsShowable made.now }
    requires within { place < made.now.sites }
    ensures { OnOk result (text.new.items ≡ text.old.items ++ site_text_line made.now place) }
{
    let mut name = Vec::new(alloc);
    push_number(&mut name, b"site ", u64::from(place + 1))?;
    let shards = made.shards as usize;
    let first = place as usize * shards;
    let positions = made.report.positions.as_slice();
    print_named_positions(&name, &positions[first..first + shards], text)
}
