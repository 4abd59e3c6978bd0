//! Watch rules: an alarm where a line of a report shows that a prefix is surely over a limit, once for each rule and
//! prefix. How bad that is says a judge, whose function a program provides.
#![tactic(auto)]

mod alarm;
mod alarms;
mod judge;
mod laws;
mod raised;
mod raised_pairs;
mod rule;
mod watch;
mod watching;

pub use alarm::Alarm;
pub use alarms::Alarms;
pub use judge::{Judge, JudgeRule, Judges};
pub use laws::{alarms_are_certain, formulas_give_one_list, pairs_are_alarmed_once};
pub use rule::Rule;
pub use watch::Watch;
pub use watching::watch_all;
