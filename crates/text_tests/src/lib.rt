//! Tests of texts and reports: of the arguments of the command line, of thresholds and positions, of the texts of
//! reports and sessions, and of the verdicts on reports.
#![tactic(auto)]

#[cfg(test)]
mod tests;
