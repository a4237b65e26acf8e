//! Runs whose nodes answer by a table. Of two shards of two replicas with one gatherer and three orderers, nodes
//! 0 to 3 store, 4 gathers, and 5 to 7 order.

ghost use Rattle.std.specs.Prelude.{◌≡◌, ◌≤◌, IfOk};
ghost use Rattle.command_frame.specs.Items.{IsItem};
ghost use Rattle.schedule_model.specs.Streams.{IsSingle};
ghost use Rattle.schedule_model.specs.Worked.{two_by_two};

mod lines;

use crate::*;
use command_frame::{Item, Reply};
use event_letters::EventLetters;
use history_frame::{Call, Happened, Input, Mark};
use log_base::{
    Ballot, Bytes, Client, Config, List, Memory, NodeId, Number, Outbox, Position, Replica, Shard,
    Slot,
};
use message_frame::Message;
use record_frame::{Entry, Value};
use schedule_model::{NextTurn, Turn};
use std::alloc::Global;
use std::test::Fail;

/// What a node answers.
#[derive(Clone, Copy, Debug)]
enum Says {
    Nothing,
    NotLeading,
    Down,
    Taken,
    Settled,
    Elsewhere,
    Trimmed,
    NotAdded,
    Stored,
    Missing,
    NotCovered,
    NoSuchShard,
    Found,
    AtTheEnd,
}

impl Says {
    fn reply(self, alloc: Global) -> Reply
        ensures { IsSingle result }
    {
        match self {
            Says::Nothing => Reply::Nothing,
            Says::NotLeading => Reply::NotLeading,
            Says::Down => Reply::Down,
            Says::Taken => Reply::Taken { from: 3 },
            Says::Settled => Reply::Settled { slot: Slot(4) },
            Says::Elsewhere => Reply::Elsewhere { shard: Shard(1) },
            Says::Trimmed => Reply::Trimmed { mark: Position(9) },
            Says::NotAdded => Reply::NotAdded,
            Says::Stored => Reply::Stored { offset: 0 },
            Says::Missing => Reply::Missing,
            Says::NotCovered => Reply::PendingAsk { covered: 0 },
            Says::NoSuchShard => Reply::NoSuchShard,
            Says::Found => found(alloc),
            Says::AtTheEnd => Reply::PendingRead { end: Position(7) },
        }
    }
}

/// The empty record of client 2 at position 5.
fn found(alloc: Global) -> Reply
    ensures { IsSingle result }
{
    Reply::Found {
        position: Position(5),
        entry: Entry {
            client: Client(2),
            number: Number(4),
            bytes: Bytes::of(Vec::new(alloc)),
        },
    }
}

/// A node, the kind of its input, and what it answers.
type Row = (u16, &'static str, Says);

/// The opening, as far as no letter is put out.
const OPENING: [Row; 9] = [
    (0, "restart", Says::Nothing),
    (1, "restart", Says::Nothing),
    (2, "restart", Says::Nothing),
    (3, "restart", Says::Nothing),
    (4, "restart", Says::Nothing),
    (5, "restart", Says::Nothing),
    (6, "restart", Says::Nothing),
    (7, "restart", Says::Nothing),
    (5, "lead", Says::Nothing),
];

/// Settling, as far as no letter is put out.
const SETTLING: [Row; 12] = [
    (0, "tick", Says::Nothing),
    (1, "tick", Says::Nothing),
    (2, "tick", Says::Nothing),
    (3, "tick", Says::Nothing),
    (4, "tick", Says::Nothing),
    (5, "tick", Says::Nothing),
    (6, "tick", Says::Nothing),
    (7, "tick", Says::Nothing),
    (0, "tick", Says::Nothing),
    (1, "tick", Says::Nothing),
    (2, "tick", Says::Nothing),
    (3, "tick", Says::Nothing),
];

/// The third orderer takes the addition of a shard.
const REQUESTED: [Row; 3] = [
    (5, "add", Says::NotLeading),
    (6, "add", Says::Down),
    (7, "add", Says::Taken),
];

/// The addition is settled, the read goes on to shard 1, and the append is stored there.
const READ: [Row; 4] = [
    (7, "settled", Says::Settled),
    (1, "read", Says::Elsewhere),
    (3, "read", Says::Trimmed),
    (2, "submit", Says::Stored),
];

/// The first append is lost, and the second is refused.
const ASKED: [Row; 2] = [(2, "ask", Says::Missing), (2, "submit", Says::NotAdded)];

/// The first orderer takes a trim.
const TRIMMED: [Row; 1] = [(5, "trim", Says::Taken)];

/// The trim is settled, and the finalisation is refused.
const FINALISED: [Row; 2] = [
    (5, "settled", Says::Settled),
    (5, "finalise", Says::NoSuchShard),
];

/// The last append of lane 2 is asked for at its primary; lane 1 made none.
const ASKED_AGAIN: [Row; 1] = [(2, "ask", Says::Missing)];

/// The kind of a value.
fn kind_of_value(value: &Value) -> &'static str {
    match value {
        Value::Noop => "noop",
        Value::Cut(_) => "cut",
        Value::Add(_) => "add",
        Value::Finalise(_) => "finalise",
        Value::Trim(_) => "trim",
    }
}

/// The kind of an input, or of the value that it requests.
fn kind_of(input: &Input) -> &'static str {
    match input {
        Input::Deliver { .. } => "deliver",
        Input::Tick => "tick",
        Input::Lead => "lead",
        Input::Stop => "stop",
        Input::Restart => "restart",
        Input::Call(Call::Submit { .. }) => "submit",
        Input::Call(Call::Ask { .. }) => "ask",
        Input::Call(Call::Read { .. }) => "read",
        Input::Call(Call::Request { value, .. }) => kind_of_value(value),
        Input::Call(Call::Settled { .. }) => "settled",
    }
}

/// The node takes the input, and answers without a letter.
fn take(
    alloc: Global,
    schedule: &mut Schedule<'_>,
    input: Input,
    says: Says,
) -> Result<bool, Memory> {
    if schedule.place() >= 1000 {
        return Ok(false);
    }
    let happened = Happened {
        input,
        mark: Mark::Done,
        outputs: List::of(Vec::new(alloc)),
        reply: says.reply(alloc),
    };
    schedule.note(&happened, &mut Outbox::new(alloc))?;
    Ok(true)
}

/// The turn that comes next, whatever disks are told before it.
fn next_turn(schedule: &mut Schedule<'_>) -> Result<Option<Turn>, Memory> {
    let NextTurn { plans: _, turn } = schedule.next()?;
    Ok(turn)
}

/// Whether the next turn is that of the row.
fn is_next(alloc: Global, schedule: &mut Schedule<'_>, row: Row) -> Result<bool, Memory> {
    match next_turn(schedule)? {
        None => Ok(false),
        Some(turn) => {
            let matches = turn.node.0 == row.0 && kind_of(&turn.input) == row.1;
            Ok(matches && take(alloc, schedule, turn.input, row.2)?)
        }
    }
}

/// Whether the next turns are those of the rows.
fn are_next(alloc: Global, schedule: &mut Schedule<'_>, rows: &[Row]) -> Result<bool, Memory> {
    for row in rows {
        if !is_next(alloc, schedule, *row)? {
            return Ok(false);
        }
    }
    Ok(true)
}

#[test]
fn no_items(rt: HostRuntime) -> Result<(), Fail> {
    let config = Config::new(2, 2, 3, 1)?;
    let mut schedule = Schedule::new(rt.alloc(), config, 1, &[])?;
    assert!(rt; are_next(rt.alloc(), &mut schedule, &OPENING)?);
    assert!(rt; next_turn(&mut schedule)?.is_none());
    assert_eq!(rt; schedule.place(), 9);
    Ok(())
}

/// A record of one byte, for replica 0 of shard 1.
fn append(alloc: Global) -> Result<Item, Memory>
    ensures { IfOk result (IsItem two_by_two) }
{
    Ok(Item::Append {
        lane: 2,
        shard: Shard(1),
        replica: Replica(0),
        bytes: Bytes::of(Vec::from_slice(alloc, b"a")?),
    })
}

/// Whether the turns of the rows come in order, and no other.
fn runs_in_order(alloc: Global, schedule: &mut Schedule<'_>) -> Result<bool, Memory> {
    let opened = are_next(alloc, schedule, &OPENING)?;
    let requested = opened && are_next(alloc, schedule, &REQUESTED)?;
    let settled = requested && are_next(alloc, schedule, &SETTLING)?;
    let read = settled && are_next(alloc, schedule, &READ)?;
    let again = read && are_next(alloc, schedule, &SETTLING)?;
    let asked = again && are_next(alloc, schedule, &ASKED)?;
    let trimmed = asked && are_next(alloc, schedule, &TRIMMED)?;
    let known = trimmed && are_next(alloc, schedule, &SETTLING)?;
    let finalised = known && are_next(alloc, schedule, &FINALISED)?;
    let asked = finalised && are_next(alloc, schedule, &ASKED_AGAIN)?;
    Ok(asked && next_turn(schedule)?.is_none())
}

/// The replies to the items.
const REPLIES: &str =
    "[Settled { slot: Slot(4) }, Trimmed { mark: Position(9) }, Missing, NotAdded, \
    Settled { slot: Slot(4) }, NoSuchShard, NothingKept, Missing]";

#[test]
fn items_go_on(rt: HostRuntime) -> Result<(), Fail> {
    let alloc = rt.alloc();
    let config = Config::new(2, 2, 3, 1)?;
    let (lane, shard, replica) = (1, Shard(0), Replica(1));
    let position = Position(2);
    let items = [
        Item::Add { lane, shard },
        Item::Read {
            lane,
            shard,
            replica,
            position,
        },
        append(alloc)?,
        append(alloc)?,
        Item::Trim { lane, position },
        Item::Finalise { lane, shard },
        Item::Ask { lane },
        Item::Ask { lane: 2 },
    ];
    let mut schedule = Schedule::new(alloc, config, 1, &items)?;
    assert!(rt; runs_in_order(alloc, &mut schedule)?);
    let replies = format!(in alloc; "{:?}", schedule.into_replies())?;
    assert_eq!(rt; replies.as_str(), REPLIES);
    Ok(())
}

fn prepare() -> Message
    ensures { result ≡ Message.Prepare (record { 0 = 7 }) (record { 0 = 0 }) }
{
    Message::Prepare {
        ballot: Ballot(7),
        from: Slot(0),
    }
}

/// The node puts a letter out, to node 0.
fn put_out(alloc: Global, schedule: &mut Schedule<'_>, input: Input) -> Result<bool, Memory> {
    if schedule.place() >= 1000 {
        return Ok(false);
    }
    let mut letters = EventLetters::new(alloc);
    let mut out = Outbox::new(alloc);
    letters.ready(1, 13, &mut out)?;
    letters.send(NodeId(0), prepare(), &mut out);
    let happened = Happened {
        input,
        mark: Mark::Done,
        outputs: letters.take(),
        reply: Reply::Nothing,
    };
    schedule.note(&happened, &mut out)?;
    Ok(true)
}

/// Whether the next turn delivers that letter, of the event at place 3, to node 0.
fn is_delivered(alloc: Global, schedule: &mut Schedule<'_>) -> Result<bool, Fail> {
    let Some(turn) = next_turn(schedule)? else {
        return Ok(false);
    };
    let input = format!(in alloc; "{:?}", turn.input)?;
    let wanted =
        "Deliver { place: 3, index: 0, message: Some(Prepare { ballot: Ballot(7), from: Slot(0) }) }";
    let matches = turn.node.0 == 0 && input.as_str() == wanted;
    Ok(matches && take(alloc, schedule, turn.input, Says::Nothing)?)
}

/// What a node puts out is delivered, and its place and index are told.
#[test]
fn a_letter_is_delivered(rt: HostRuntime) -> Result<(), Fail> {
    let alloc = rt.alloc();
    let config = Config::new(1, 1, 1, 1)?;
    let mut schedule = Schedule::new(alloc, config, 1, &[])?;
    assert!(rt; are_next(alloc, &mut schedule, &OPENING[..3])?);
    let lead = next_turn(&mut schedule)?.ok_or("no turn")?;
    assert!(rt; put_out(alloc, &mut schedule, lead.input)?);
    assert_eq!(rt; schedule.waiting(), 1);
    assert!(rt; is_delivered(alloc, &mut schedule)?);
    assert!(rt; next_turn(&mut schedule)?.is_none());
    Ok(())
}

/// A subscription asks replica 1 of shard 0 for each position, and goes on to shard 1 for the second. Another takes
/// the one entry that it wants.
const FOLLOWED: [Row; 5] = [
    (1, "read", Says::Found),
    (1, "read", Says::Elsewhere),
    (3, "read", Says::Found),
    (1, "read", Says::AtTheEnd),
    (1, "read", Says::Found),
];

const STREAMS: &str = "[\
    Stream { from: Position(5), entries: List { inner: [\
    Entry { client: Client(2), number: Number(4), bytes: Bytes { inner: [] } }, \
    Entry { client: Client(2), number: Number(4), bytes: Bytes { inner: [] } }] }, \
    last: PendingRead { end: Position(7) } }, \
    Stream { from: Position(5), entries: List { inner: [\
    Entry { client: Client(2), number: Number(4), bytes: Bytes { inner: [] } }] }, last: Nothing }]";

/// A subscription to entries of replica 1 of shard 0, from position 5 on.
fn subscription(count: u16) -> Item
    requires some { 1 ≤ count }
    requires few { count ≤ 4096 }
    ensures { IsItem two_by_two result }
{
    Item::Subscribe {
        lane: 1,
        shard: Shard(0),
        replica: Replica(1),
        from: Position(5),
        count,
    }
}

#[test]
fn subscriptions_go_on(rt: HostRuntime) -> Result<(), Fail> {
    let alloc = rt.alloc();
    let config = Config::new(2, 2, 3, 1)?;
    let items = [subscription(9), subscription(1)];
    let mut schedule = Schedule::new(alloc, config, 1, &items)?;
    assert!(rt; are_next(alloc, &mut schedule, &OPENING)?);
    assert!(rt; are_next(alloc, &mut schedule, &FOLLOWED)?);
    assert!(rt; next_turn(&mut schedule)?.is_none());
    let replies = format!(in alloc; "{:?}", schedule.into_replies())?;
    assert_eq!(rt; replies.as_str(), STREAMS);
    Ok(())
}
