//! The log of one thread: the answers that the whole cluster has to give, also where its disks fail.
#![tactic(auto)]

mod laws;

pub use laws::{
    answers_go_on, append_is_told, ask_is_told, asked_answers, entries_are_covered,
    finalised_answers, first_answers, halt_goes_on, live_until_finalised, missing_answers,
    one_reply_each, read_finds_entry, stale_answers, subscribed_answers, subscription_is_told,
    trim_gives_up, trimmed_answers, wishes_are_settled,
};

#[cfg(test)]
mod tests;
