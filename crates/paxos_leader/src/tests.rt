//! Leaders of three orderers and of one.

use crate::*;
use log_base::{Ballot, Config, Shard, Slot};
use message_frame::Vote;
use record_frame::Value;
use std::alloc::{AllocError, Global};
use std::test::Fail;

const SIX: Ballot = Ballot(6);

const WISH: Value = Value::Add(Shard(0));

const VOTED: Value = Value::Add(Shard(1));

fn vote(slot: u32, ballot: u64, value: Value) -> Vote {
    Vote {
        slot: Slot(slot),
        ballot: Ballot(ballot),
        value,
    }
}

// A leader of so many orderers with ballot 6 and a window from slot 0 on.
fn leader_of(alloc: Global, orderers: u8) -> Result<Leader, Fail> {
    let config = Config::new(1, 1, orderers, 1)?;
    let mut leader = Leader::new(alloc, config).map_err(|_| AllocError)?;
    leader.start(SIX, Slot(0));
    Ok(leader)
}

#[test]
fn the_reported_vote_is_proposed_and_chosen(rt: HostRuntime) -> Result<(), Fail> {
    let mut leader = leader_of(rt.alloc(), 3)?;
    let reported = [vote(0, 4, VOTED)];
    assert_eq!(rt;
        leader.promised(SIX, Slot(0), 0, &[]),
        Heard::Counted { answers: 1 }
    );
    assert_eq!(rt;
        leader.promised(SIX, Slot(0), 1, &reported),
        Heard::Counted { answers: 2 }
    );
    let proposed = Next::Propose {
        slot: Slot(0),
        value: VOTED,
    };
    assert_eq!(rt; leader.next(0, Some(WISH)), proposed);
    for (slot, who, want) in [
        (0, 0, Counting::NotYet { votes: 1 }),
        (0, 0, Counting::NotYet { votes: 1 }),
        (0, 2, Counting::Chosen { value: VOTED }),
        (1, 0, Counting::Other),
        (0, 1, Counting::Other),
    ] {
        assert_eq!(rt;
            leader.accepted(SIX, Slot(slot), who),
            want,
            "slot {slot}, orderer {who}"
        );
    }
    Ok(())
}

#[test]
fn promises_are_counted_once(rt: HostRuntime) -> Result<(), Fail> {
    let mut leader = leader_of(rt.alloc(), 3)?;
    for (ballot, from, who, want) in [
        (6, 0, 0, Heard::Counted { answers: 1 }),
        (6, 0, 0, Heard::Counted { answers: 1 }),
        (6, 64, 1, Heard::Other),
        (9, 0, 1, Heard::Other),
    ] {
        let heard = leader.promised(Ballot(ballot), Slot(from), who, &[]);
        assert_eq!(rt; heard, want, "ballot {ballot}, window {from}");
    }
    assert_eq!(rt; leader.next(0, Some(WISH)), Next::Nothing);
    leader.stop();
    assert_eq!(rt; leader.ballot(), None);
    assert_eq!(rt; leader.promised(SIX, Slot(0), 1, &[]), Heard::Other);
    assert_eq!(rt; leader.accepted(SIX, Slot(0), 1), Counting::Other);
    assert_eq!(rt; leader.next(0, Some(WISH)), Next::Nothing);
    assert_eq!(rt; leader.again(), Again::Nothing);
    Ok(())
}

#[test]
fn gaps_are_filled_and_windows_end(rt: HostRuntime) -> Result<(), Fail> {
    let mut leader = leader_of(rt.alloc(), 1)?;
    let reported = [
        vote(1, 4, VOTED),
        vote(2, 4, WISH),
        vote(2, 5, VOTED),
        vote(2, 3, WISH),
        vote(64, 5, WISH),
    ];
    let heard = leader.promised(SIX, Slot(0), 0, &reported);
    assert_eq!(rt; heard, Heard::Counted { answers: 1 });
    for (known, want) in [
        (
            0,
            Next::Propose {
                slot: Slot(0),
                value: Value::Noop,
            },
        ),
        (0, Next::Nothing),
        (
            1,
            Next::Propose {
                slot: Slot(1),
                value: VOTED,
            },
        ),
        (
            2,
            Next::Propose {
                slot: Slot(2),
                value: VOTED,
            },
        ),
        (
            3,
            Next::Propose {
                slot: Slot(3),
                value: WISH,
            },
        ),
        (
            63,
            Next::Propose {
                slot: Slot(63),
                value: WISH,
            },
        ),
        (16384, Next::Nothing),
        (64, Next::Window { from: Slot(64) }),
        (64, Next::Nothing),
    ] {
        leader.passed(known);
        assert_eq!(rt; leader.next(known, Some(WISH)), want, "{known}");
    }
    assert_eq!(rt; leader.promised(SIX, Slot(64), 0, &[]), heard);
    assert_eq!(rt; leader.next(64, None), Next::Nothing);
    Ok(())
}

#[test]
fn what_was_not_answered_is_said_again(rt: HostRuntime) -> Result<(), Fail> {
    let mut leader = leader_of(rt.alloc(), 1)?;
    assert_eq!(rt; leader.ballot(), Some(SIX));
    assert_eq!(rt;
        leader.again(),
        Again::Prepare {
            ballot: SIX,
            from: Slot(0)
        }
    );
    assert_eq!(rt;
        leader.promised(SIX, Slot(0), 0, &[]),
        Heard::Counted { answers: 1 }
    );
    assert_eq!(rt; leader.again(), Again::Nothing);
    let proposed = Next::Propose {
        slot: Slot(5),
        value: WISH,
    };
    assert_eq!(rt; leader.next(5, Some(WISH)), proposed);
    leader.passed(5);
    let again = Again::Accept {
        ballot: SIX,
        slot: Slot(5),
        value: WISH,
    };
    assert_eq!(rt; leader.again(), again);
    leader.passed(6);
    assert_eq!(rt; leader.again(), Again::Nothing);
    passing_is_learning();
    proposed_slot_is_next();
    Ok(())
}
