//! Workers that feed the shards of a board, and callers that report on it, each with a pass of its own.
#![tactic(auto)]

mod callers;
mod calling;
mod feeding;
mod gate;
mod gathered;
mod laws;
mod plan;
mod rounds;
mod running;
mod workers;

pub use calling::{call_reports, report_once};
pub use feeding::feed_all;
pub use gate::{Gate, OpenGate, Turn};
pub use gathered::{Called, Gathered};
pub use laws::{calls_follow_calls, reported_cuts_represent};
pub use plan::ThreadPlan;
pub use rounds::Rounds;
pub use running::run_threads;
