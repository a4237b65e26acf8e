use crate::*;
use std::test::Fail;

#[test]
fn laws_hold(_rt: HostRuntime) -> Result<(), Fail> {
    first_answers();
    finalised_answers();
    trimmed_answers();
    asked_answers();
    missing_answers();
    stale_answers();
    subscribed_answers();
    one_reply_each();
    answers_go_on();
    halt_goes_on();
    entries_are_covered();
    read_finds_entry();
    append_is_told();
    ask_is_told();
    subscription_is_told();
    live_until_finalised();
    wishes_are_settled();
    trim_gives_up();
    Ok(())
}
