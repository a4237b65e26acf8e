//! Quiet runs are answered as the log of one thread answers.
//!
//! `specs/Matching.antt` says when a settled moment is as the log has it, and `specs/Going.antt` how items go
//! over moments; `specs/Quiet.antt` says what a quiet run is. The functions do nothing: their contracts are
//! the laws.
#![tactic(auto)]

mod answers;
mod deciding;
mod marks;
mod runs;
mod worked;

pub use answers::{
    item_is_answered_as_in_the_log, opening_starts_the_log, run_is_answered_as_the_log,
};
pub use deciding::{entry_is_covered_next, wish_is_decided_next};
pub use marks::unfailing_rows_are_quiet;
pub use runs::{quiet_runs_are_answered_as_the_log, quiet_runs_end_as_the_log};
pub use worked::worked_run_is_quiet;
