//! An audit of a report against the records themselves: exact sums, without a table, a merge or a bound.
#![tactic(auto)]

mod auditing;
mod closest_lines;
mod counted;
mod depths;
mod findings;
mod kept_pairs;
mod laws;
mod left_out;
mod line_codes;
mod line_tests;
mod node_sums;
mod seed;
mod verdict;

pub use auditing::audit;
pub use laws::a_report_has_one_verdict;
pub use verdict::Verdict;
