//! The report of a cut: the prefixes that carry heavy load which no more specific reported prefix explains.
#![tactic(auto)]

mod laws;
mod merged_intervals;
mod reporting;
mod selecting;

pub use hhh_report::{
    Line, Lines, Report, Reported, Reports, lines_bound_other_positions, threshold,
};
pub use laws::{
    a_cut_has_one_report, each_cut_has_a_report, reports_are_of_their_grain, reports_are_sound,
    reports_of_the_core_are_sound, standing_cuts_have_one_report,
};
pub use reporting::report_of;
