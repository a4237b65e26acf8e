//! What lines and answers mean in a cluster of two shards of two replicas, with one gatherer and three orderers. Nodes
//! 0 to 3 store, 4 gathers, and 5 to 7 order.

ghost use Rattle.fault_script.specs.Lines.{IsFault};
ghost use Rattle.item_course.specs.Asking.{IsAwaited};
ghost use Rattle.schedule_model.specs.Streams.{IsSingle};
ghost use Rattle.schedule_model.specs.Worked.{two_by_two};

use crate::*;
use client_session::Pair;
use fault_script::Fault;
use log_base::{Client, Config, NodeId, Number, Shard, Slot};
use record_frame::Value;
use reply_frame::Reply;
use schedule_model::Awaited;
use std::alloc::Global;
use std::test::Fail;

/// What a line does while two letters wait and nothing is put off, on a lane whose last append was a record of one
/// byte, under its fourth number.
fn line(alloc: Global, fault: Fault) -> Result<String, Fail>
    requires { IsFault two_by_two fault }
{
    let config = Config::new(2, 2, 3, 1)?;
    let last = Some(Pair {
        node: NodeId(2),
        client: Client(1),
        number: Number(4),
    });
    let course = line_course(alloc, &config, &[], 2, &last, b"a", &fault)?;
    Ok(format!(in alloc; "{course:?}")?)
}

#[test]
fn lines_are_followed(rt: HostRuntime) -> Result<(), Fail> {
    let alloc = rt.alloc();
    assert_eq!(rt; line(alloc, Fault::Hold)?.as_str(), "Replies(Done)");
    assert_eq!(rt;
        line(alloc, Fault::Lead { orderer: 1 })?.as_str(),
        "Answers { reply: Done, duties: List { inner: [Give { signal: Lead, first: NodeId(6), count: 1 }] } }"
    );
    assert_eq!(rt;
        line(alloc, Fault::Again { letter: 1 })?.as_str(),
        "Answers { reply: Done, duties: List { inner: [DeliverOne { letter: 1, afterwards: LeftIn }] } }"
    );
    assert_eq!(rt;
        line(alloc, Fault::Deliver { letter: 2 })?.as_str(),
        "Replies(NoLetter { waiting: 2 })"
    );
    assert_eq!(rt;
        line(alloc, Fault::Resubmit)?.as_str(),
        "GoesOn(List { inner: [MakeCall { node: NodeId(2), \
        call: Submit { client: Client(1), number: Number(4), bytes: Bytes { inner: [97] } }, \
        awaited: Storing { primary: NodeId(2), client: Client(1), number: Number(4) } }] })"
    );
    Ok(())
}

/// The request of a shard's finalisation, of orderer 1.
fn finalisation() -> Awaited
    ensures { IsAwaited two_by_two result }
{
    Awaited::Requesting {
        orderer: 1,
        client: Client(1),
        value: Value::Finalise(Shard(1)),
    }
}

/// What an answer means, while none are held and while some are.
fn answer(alloc: Global, awaited: &Awaited, reply: &Reply) -> Result<(String, String), Fail>
    requires awaited { IsAwaited two_by_two awaited.now }
    requires single { IsSingle reply.now }
{
    let config = Config::new(2, 2, 3, 1)?;
    let course = course_after(alloc, &config, awaited, reply)?;
    let held = held_course(alloc, &config, awaited, reply)?;
    Ok((
        format!(in alloc; "{course:?}")?,
        format!(in alloc; "{held:?}")?,
    ))
}

#[test]
fn answers_are_followed(rt: HostRuntime) -> Result<(), Fail> {
    let alloc = rt.alloc();
    let slot = Slot(3);
    let (course, held) = answer(alloc, &Awaited::Last, &Reply::Settled { slot })?;
    assert_eq!(rt; course.as_str(), "Replies(Settled { slot: Slot(3) })");
    assert_eq!(rt; held.as_str(), "Replies(Settled { slot: Slot(3) })");
    let (course, held) = answer(alloc, &finalisation(), &Reply::NotLeading)?;
    assert_eq!(rt;
        course.as_str(),
        "GoesOn(List { inner: [MakeCall { node: NodeId(7), \
        call: Request { client: Client(1), value: Finalise(Shard(1)) }, \
        awaited: Requesting { orderer: 2, client: Client(1), value: Finalise(Shard(1)) } }] })"
    );
    assert_eq!(rt; held.as_str(), course.as_str());
    let (_, held) = answer(alloc, &finalisation(), &Reply::Taken { from: 3 })?;
    assert_eq!(rt;
        held.as_str(),
        "GoesOn(List { inner: [MakeCall { node: NodeId(6), \
        call: Settled { client: Client(1), value: Finalise(Shard(1)), from: 3 }, \
        awaited: Held(Wish { orderer: 1, client: Client(1), value: Finalise(Shard(1)), from: 3 }) }] })"
    );
    Ok(())
}
