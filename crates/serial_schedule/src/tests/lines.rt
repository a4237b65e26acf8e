//! Runs with lines of the fault script.

use super::{Says, append, are_next, kind_of, next_turn, put_out, take};
use crate::*;
use command_frame::Item;
use disk_base::Plan;
use fault_script::Fault;
use log_base::{Config, NodeId};
use schedule_model::{NextTurn, Planned};
use std::test::Fail;

// Nothing settles in a hold: the append is asked for at once, and again when the hold ends.
const HELD: [super::Row; 2] = [(2, "submit", Says::Stored), (2, "ask", Says::NotCovered)];

const ASKED_ANEW: [super::Row; 1] = [(2, "ask", Says::Missing)];

// The append is sent again to its primary, and is refused there.
const SENT_AGAIN: [super::Row; 1] = [(2, "submit", Says::NotAdded)];

#[test]
fn holds_and_resubmissions(rt: HostRuntime) -> Result<(), Fail> {
    let alloc = rt.alloc();
    let config = Config::new(2, 2, 3, 1)?;
    let items = [
        Item::Fault {
            lane: 1,
            fault: Fault::Resubmit,
        },
        Item::Fault {
            lane: 1,
            fault: Fault::Hold,
        },
        append(alloc)?,
        Item::Fault {
            lane: 1,
            fault: Fault::Settle,
        },
        Item::Fault {
            lane: 2,
            fault: Fault::Resubmit,
        },
    ];
    let mut schedule = Schedule::new(alloc, config, 1, &items)?;
    assert!(rt; are_next(alloc, &mut schedule, &super::OPENING)?);
    assert!(rt; are_next(alloc, &mut schedule, &HELD)?);
    assert!(rt; are_next(alloc, &mut schedule, &super::SETTLING)?);
    assert!(rt; are_next(alloc, &mut schedule, &ASKED_ANEW)?);
    assert!(rt; are_next(alloc, &mut schedule, &SENT_AGAIN)?);
    assert!(rt; next_turn(&mut schedule)?.is_none());
    let replies = format!(in alloc; "{:?}", schedule.into_replies())?;
    assert_eq!(rt;
        replies.as_str(),
        "[NothingKept, Done, Missing, Done, NotAdded]"
    );
    Ok(())
}

#[test]
fn letters_are_picked(rt: HostRuntime) -> Result<(), Fail> {
    let alloc = rt.alloc();
    let config = Config::new(1, 1, 1, 1)?;
    let items = [
        Item::Fault {
            lane: 0,
            fault: Fault::Tick { node: NodeId(0) },
        },
        Item::Fault {
            lane: 0,
            fault: Fault::Again { letter: 0 },
        },
        Item::Fault {
            lane: 0,
            fault: Fault::Drop { letter: 0 },
        },
        Item::Fault {
            lane: 0,
            fault: Fault::Deliver { letter: 0 },
        },
    ];
    let mut schedule = Schedule::new(alloc, config, 1, &items)?;
    assert!(rt; are_next(alloc, &mut schedule, &super::OPENING[..3])?);
    let lead = next_turn(&mut schedule)?.ok_or("no turn")?;
    assert!(rt; take(alloc, &mut schedule, lead.input, Says::Nothing)?);
    let tick = next_turn(&mut schedule)?.ok_or("no turn")?;
    assert!(rt; put_out(alloc, &mut schedule, tick.input)?);
    let again = next_turn(&mut schedule)?.ok_or("no turn")?;
    assert_eq!(rt; kind_of(&again.input), "deliver");
    assert!(rt; take(alloc, &mut schedule, again.input, Says::Nothing)?);
    assert_eq!(rt; schedule.waiting(), 1);
    assert!(rt; next_turn(&mut schedule)?.is_none());
    assert_eq!(rt; schedule.waiting(), 0);
    let replies = format!(in alloc; "{:?}", schedule.into_replies())?;
    assert_eq!(rt;
        replies.as_str(),
        "[Done, Done, Done, NoLetter { waiting: 0 }]"
    );
    Ok(())
}

#[test]
fn plans_come_before_a_turn(rt: HostRuntime) -> Result<(), Fail> {
    let alloc = rt.alloc();
    let config = Config::new(1, 1, 1, 1)?;
    let items = [
        Item::Fault {
            lane: 0,
            fault: Fault::StopAfter {
                node: NodeId(0),
                after: 3,
                keep: 7,
            },
        },
        Item::Fault {
            lane: 0,
            fault: Fault::Stop { node: NodeId(0) },
        },
    ];
    let mut schedule = Schedule::new(alloc, config, 1, &items)?;
    assert!(rt; are_next(alloc, &mut schedule, &super::OPENING[..3])?);
    let NextTurn { plans, turn } = schedule.next()?;
    assert!(rt; plans.get().is_empty());
    let lead = turn.ok_or("no turn")?;
    assert!(rt; take(alloc, &mut schedule, lead.input, Says::Nothing)?);
    let NextTurn { plans, turn } = schedule.next()?;
    let plan = Plan {
        after: 3,
        keep: 7,
        lose: false,
    };
    let wanted = Planned {
        node: NodeId(0),
        plan,
    };
    assert_eq!(rt; plans.get(), &[wanted][..]);
    let stop = turn.ok_or("no turn")?;
    assert_eq!(rt; kind_of(&stop.input), "stop");
    Ok(())
}
