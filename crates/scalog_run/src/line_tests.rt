//! Runs with lines of the fault script.

use crate::status;
use crate::tests::{RUN, run_anew};
use std::alloc::Global;
use std::sync::Wait;
use std::test::Fail;
use std::thread::Threads;

/// One storage node and one gatherer, and three orderers, nodes 2 to 4.
const ONE_OF_EACH: [&str; 5] = ["run", "--replicas", "1", "--shards", "1"];

/// Two replicas of one shard.
const ONE_SHARD: [&str; 3] = ["run", "--shards", "1"];

// Add 1, Add 0, hold, Append "c" to 0.1, "b" to 0.0 and "a" to 1.0, settle.
const HELD: &[u8] =
    b"\0\0\0\x04\x05\0\0\x01\0\0\0\x04\x05\0\0\0\0\0\0\x06\x08\0hold\0\0\0\x06\x01\0\0\0\x01c\0\0\0\x06\x01\0\0\0\0b\0\0\0\x06\x01\0\0\x01\0a\0\0\0\x08\x08\0settle";

// Settled at slots 0 and 1, done, at positions 2, 1 and 0, done.
const HELD_ANSWERED: &[u8] =
    b"\0\0\0\x07@\0\x14\0\0\0\0\0\0\0\x07@\0\x14\0\0\0\x01\0\0\0\x03@\0\x19\0\0\0\x0b@\0\x02\0\0\0\0\0\0\0\x02\0\0\0\x0b@\0\x02\0\0\0\0\0\0\0\x01\0\0\0\x0b@\0\x02\0\0\0\0\0\0\0\0\0\0\0\x03@\0\x19";

// Append "a", Ask, Finalise 0, deliver 0, and resubmit on lane 1.
const NOTHING_THERE: &[u8] =
    b"\0\0\0\x06\x01\0\0\0\0a\0\0\0\x02\x07\0\0\0\0\x04\x06\0\0\0\0\0\0\x0b\x08\0deliver 0\0\0\0\x0a\x08\x01resubmit";

// Not added, missing, no such shard, no letter of none, and nothing kept.
const NOTHING_THERE_ANSWERED: &[u8] =
    b"\0\0\0\x03@\0\x09\0\0\0\x03@\0\x0e\0\0\0\x03@\0\x12\0\0\0\x07@\0\x17\0\0\0\0\0\0\0\x03@\x01\x18";

// Add 0, hold, Append "a", Read @0.
const NOT_SETTLED: &[u8] =
    b"\0\0\0\x04\x05\0\0\0\0\0\0\x06\x08\0hold\0\0\0\x06\x01\0\0\0\0a\0\0\0\x0d\x02\0\0\0\0\0\0\0\0\0\0\0\0";

// Settled at slot 0, done, and pending at 0 and at position 0.
const NOT_SETTLED_ANSWERED: &[u8] =
    b"\0\0\0\x07@\0\x14\0\0\0\0\0\0\0\x03@\0\x19\0\0\0\x07@\0\x04\0\0\0\0\0\0\0\x0b@\0\x05\0\0\0\0\0\0\0\0";

// Add 0, Append "a", resubmit, Subscribe from 0 to 10.
const RESUBMITTED: &[u8] =
    b"\0\0\0\x04\x05\0\0\0\0\0\0\x06\x01\0\0\0\0a\0\0\0\x0a\x08\0resubmit\0\0\0\x0f\x03\0\0\0\0\0\0\0\0\0\0\0\0\0\x0a";

// Settled at slot 0, twice at position 0, and the record "a" and an end at 1.
const RESUBMITTED_ANSWERED: &[u8] =
    b"\0\0\0\x07@\0\x14\0\0\0\0\0\0\0\x0b@\0\x02\0\0\0\0\0\0\0\0\0\0\0\x0b@\0\x02\0\0\0\0\0\0\0\0\0\0\0%@\0\x15\0\0\0\0\0\0\0\0\0\x01\0\0\0\0\0\x01\0\0\0\0\0\0\0\x01a\x05\0\0\0\0\0\0\0\x01";

// Add 0, hold, Append "a", Finalise 0, settle.
const FINALISED_IN_HOLD: &[u8] =
    b"\0\0\0\x04\x05\0\0\0\0\0\0\x06\x08\0hold\0\0\0\x06\x01\0\0\0\0a\0\0\0\x04\x06\0\0\0\0\0\0\x08\x08\0settle";

// Settled at slot 0, done, finalised at 0, settled at slot 1, done.
const FINALISED_IN_HOLD_ANSWERED: &[u8] =
    b"\0\0\0\x07@\0\x14\0\0\0\0\0\0\0\x03@\0\x19\0\0\0\x07@\0\x08\0\0\0\0\0\0\0\x07@\0\x14\0\0\0\x01\0\0\0\x03@\0\x19";

// Add 0, Append "a", Finalise 0, resubmit, Read @0, Append "b".
const RESUBMITTED_FINALISED: &[u8] =
    b"\0\0\0\x04\x05\0\0\0\0\0\0\x06\x01\0\0\0\0a\0\0\0\x04\x06\0\0\0\0\0\0\x0a\x08\0resubmit\0\0\0\x0d\x02\0\0\0\0\0\0\0\0\0\0\0\0\0\0\0\x06\x01\0\0\0\0b";

// Settled at slot 0, at position 0, settled at slot 2, at position 0, the record "a", and finalised.
const RESUBMITTED_FINALISED_ANSWERED: &[u8] =
    b"\0\0\0\x07@\0\x14\0\0\0\0\0\0\0\x0b@\0\x02\0\0\0\0\0\0\0\0\0\0\0\x07@\0\x14\0\0\0\x02\0\0\0\x0b@\0\x02\0\0\0\0\0\0\0\0\0\0\0\x1a@\0\x03\0\0\0\0\0\0\0\0\0\0\0\0\0\x01\0\0\0\0\0\0\0\x01a\0\0\0\x03@\0\x07";

// Add 0, stop 0 after 0 keep 3, Append "a", restart 0, Ask.
const STOPPED_AT_ONCE: &[u8] =
    b"\0\0\0\x04\x05\0\0\0\0\0\0\x17\x08\0stop 0 after 0 keep 3\0\0\0\x06\x01\0\0\0\0a\0\0\0\x0b\x08\0restart 0\0\0\0\x02\x07\0";

// Settled at slot 0, done, halted, done, missing.
const STOPPED_AT_ONCE_ANSWERED: &[u8] =
    b"\0\0\0\x07@\0\x14\0\0\0\0\0\0\0\x03@\0\x19\0\0\0\x03@\0\x0c\0\0\0\x03@\0\x19\0\0\0\x03@\0\x0e";

// Add 0, stop 0 after 1 keep 1, Append "a", restart 0, Ask, settle, Ask.
const STOPPED_AT_THE_GATE: &[u8] =
    b"\0\0\0\x04\x05\0\0\0\0\0\0\x17\x08\0stop 0 after 1 keep 1\0\0\0\x06\x01\0\0\0\0a\0\0\0\x0b\x08\0restart 0\0\0\0\x02\x07\0\0\0\0\x08\x08\0settle\0\0\0\x02\x07\0";

// Settled at slot 0, done, halted, done, pending at 0, done, at position 0. The restart found a payload in flight.
const STOPPED_AT_THE_GATE_ANSWERED: &[u8] =
    b"\0\0\0\x07@\0\x14\0\0\0\0\0\0\0\x03@\0\x19\0\0\0\x03@\0\x0c\0\0\0\x03@\0\x19\0\0\0\x07@\0\x04\0\0\0\0\0\0\0\x03@\0\x19\0\0\0\x0b@\0\x02\0\0\0\0\0\0\0\0";

// hold, Add 0, tick 2, deliver 0, three times drop 0, lead 1, settle.
const ANOTHER_LEADS: &[u8] =
    b"\0\0\0\x06\x08\0hold\0\0\0\x04\x05\0\0\0\0\0\0\x08\x08\0tick 2\0\0\0\x0b\x08\0deliver 0\0\0\0\x08\x08\0drop 0\0\0\0\x08\x08\0drop 0\0\0\0\x08\x08\0drop 0\0\0\0\x08\x08\0lead 1\0\0\0\x08\x08\0settle";

// Done, settled at slot 0, seven times done. Ballot 4 is for the shard that node 2 accepted before.
const ANOTHER_LEADS_ANSWERED: &[u8] =
    b"\0\0\0\x03@\0\x19\0\0\0\x07@\0\x14\0\0\0\0\0\0\0\x03@\0\x19\0\0\0\x03@\0\x19\0\0\0\x03@\0\x19\0\0\0\x03@\0\x19\0\0\0\x03@\0\x19\0\0\0\x03@\0\x19\0\0\0\x03@\0\x19";

// hold, lead 1, three times deliver 0, Add 0, tick 2, deliver 3, settle, Add 0.
const TWO_LEAD: &[u8] =
    b"\0\0\0\x06\x08\0hold\0\0\0\x08\x08\0lead 1\0\0\0\x0b\x08\0deliver 0\0\0\0\x0b\x08\0deliver 0\0\0\0\x0b\x08\0deliver 0\0\0\0\x04\x05\0\0\0\0\0\0\x08\x08\0tick 2\0\0\0\x0b\x08\0deliver 3\0\0\0\x08\x08\0settle\0\0\0\x04\x05\0\0\0";

// Five times done, pending at 0, three times done, settled at slot 0. Ballot 3 is lower than the promised 4.
const TWO_LEAD_ANSWERED: &[u8] =
    b"\0\0\0\x03@\0\x19\0\0\0\x03@\0\x19\0\0\0\x03@\0\x19\0\0\0\x03@\0\x19\0\0\0\x03@\0\x19\0\0\0\x07@\0\x06\0\0\0\0\0\0\0\x03@\0\x19\0\0\0\x03@\0\x19\0\0\0\x03@\0\x19\0\0\0\x07@\0\x14\0\0\0\0";

// Add 0, hold, Append "x" and "y", tick 0, again 1, drop 0, settle.
const LETTERS_IN_ANY_ORDER: &[u8] =
    b"\0\0\0\x04\x05\0\0\0\0\0\0\x06\x08\0hold\0\0\0\x06\x01\0\0\0\0x\0\0\0\x06\x01\0\0\0\0y\0\0\0\x08\x08\0tick 0\0\0\0\x09\x08\0again 1\0\0\0\x08\x08\0drop 0\0\0\0\x08\x08\0settle";

// Settled at slot 0, done, at positions 0 and 1, four times done. The second copy is a gap, and node 1 has none.
const LETTERS_IN_ANY_ORDER_ANSWERED: &[u8] =
    b"\0\0\0\x07@\0\x14\0\0\0\0\0\0\0\x03@\0\x19\0\0\0\x0b@\0\x02\0\0\0\0\0\0\0\0\0\0\0\x0b@\0\x02\0\0\0\0\0\0\0\x01\0\0\0\x03@\0\x19\0\0\0\x03@\0\x19\0\0\0\x03@\0\x19\0\0\0\x03@\0\x19";

// Add 0, stop 0, Append "a", stop 5, stop 6, stop 7, Trim 0.
const STOPPED_NODES: &[u8] =
    b"\0\0\0\x04\x05\0\0\0\0\0\0\x08\x08\0stop 0\0\0\0\x06\x01\0\0\0\0a\0\0\0\x08\x08\0stop 5\0\0\0\x08\x08\0stop 6\0\0\0\x08\x08\0stop 7\0\0\0\x0a\x04\0\0\0\0\0\0\0\0\0";

// Settled at slot 0, done, down, three times done, no leader.
const STOPPED_NODES_ANSWERED: &[u8] =
    b"\0\0\0\x07@\0\x14\0\0\0\0\0\0\0\x03@\0\x19\0\0\0\x03@\0\x0d\0\0\0\x03@\0\x19\0\0\0\x03@\0\x19\0\0\0\x03@\0\x19\0\0\0\x03@\0\x16";

// The head of the history, up to the config.
const HEAD: &[u8] = b"\0\0\0\x09\x60";

// The event of node 0 that starts with a payload in flight.
const OPENED_WITH: &[u8] = b"\0\0\0\x07b\0\0\x06\x03\0\0";

// Ballot 4 is accepted in slot 0 for the addition of shard 0.
const ACCEPTS_ADDITION: &[u8] = b"\0\0\0\x10\x08\0\0\0\0\0\0\0\x04\0\0\0\0\x02\0\0";

// Ballot 3 is lower than 4.
const LOWER: &[u8] = b"\0\0\0\x11\x07\0\0\0\0\0\0\0\x03\0\0\0\0\0\0\0\x04";

// Node 0 is told that peer 1 has no copy.
const NO_COPY: &[u8] = b"\0\0\0\0\0\x06\x02\x01\0\0\0\0";

// The name of a row, its words and items, its replies, and what its history tells.
type Row = (
    &'static str,
    &'static [&'static str],
    &'static [u8],
    &'static [u8],
    &'static [u8],
);

/// Whether the items of a row have its replies, and its history tells what it is to tell.
fn is_answered<R: Threads + Wait + Sync>(rt: &R, alloc: Global, row: &Row) -> Result<bool, Fail> {
    let (_, words, input, replies, told) = row;
    let outcome = run_anew(rt, alloc, words, input)?;
    let Some(history) = outcome.sent.strip_prefix(*replies) else {
        return Ok(false);
    };
    if told.is_empty() {
        return Ok(false);
    }
    let mut parts = history.windows(told.len());
    Ok(outcome.status == status::DONE && parts.any(|bytes| bytes.starts_with(told)))
}

#[test]
fn holds_are_answered(rt: HostRuntime) -> Result<(), Fail> {
    let table: [Row; 6] = [
        ("a hold", &RUN, HELD, HELD_ANSWERED, HEAD),
        (
            "no letter and no append",
            &RUN,
            NOTHING_THERE,
            NOTHING_THERE_ANSWERED,
            HEAD,
        ),
        (
            "a hold that does not end",
            &RUN,
            NOT_SETTLED,
            NOT_SETTLED_ANSWERED,
            HEAD,
        ),
        (
            "an append sent again",
            &RUN,
            RESUBMITTED,
            RESUBMITTED_ANSWERED,
            HEAD,
        ),
        (
            "a finalisation in a hold",
            &RUN,
            FINALISED_IN_HOLD,
            FINALISED_IN_HOLD_ANSWERED,
            HEAD,
        ),
        (
            "an append sent again to a finalised shard",
            &RUN,
            RESUBMITTED_FINALISED,
            RESUBMITTED_FINALISED_ANSWERED,
            HEAD,
        ),
    ];
    for row in &table {
        assert!(rt; is_answered(&rt, rt.alloc(), row)?, "{}", row.0);
    }
    Ok(())
}

#[test]
fn failing_nodes_are_answered(rt: HostRuntime) -> Result<(), Fail> {
    let table: [Row; 3] = [
        (
            "a write that fails at once",
            &RUN,
            STOPPED_AT_ONCE,
            STOPPED_AT_ONCE_ANSWERED,
            HEAD,
        ),
        (
            "a write that fails behind its record",
            &RUN,
            STOPPED_AT_THE_GATE,
            STOPPED_AT_THE_GATE_ANSWERED,
            OPENED_WITH,
        ),
        (
            "nodes that are down",
            &RUN,
            STOPPED_NODES,
            STOPPED_NODES_ANSWERED,
            HEAD,
        ),
    ];
    for row in &table {
        assert!(rt; is_answered(&rt, rt.alloc(), row)?, "{}", row.0);
    }
    Ok(())
}

#[test]
fn picked_letters_are_answered(rt: HostRuntime) -> Result<(), Fail> {
    let table: [Row; 3] = [
        (
            "another orderer leads",
            &ONE_OF_EACH,
            ANOTHER_LEADS,
            ANOTHER_LEADS_ANSWERED,
            ACCEPTS_ADDITION,
        ),
        (
            "two orderers lead",
            &ONE_OF_EACH,
            TWO_LEAD,
            TWO_LEAD_ANSWERED,
            LOWER,
        ),
        (
            "a letter that comes again",
            &ONE_SHARD,
            LETTERS_IN_ANY_ORDER,
            LETTERS_IN_ANY_ORDER_ANSWERED,
            NO_COPY,
        ),
    ];
    for row in &table {
        assert!(rt; is_answered(&rt, rt.alloc(), row)?, "{}", row.0);
    }
    Ok(())
}
