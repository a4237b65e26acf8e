//! Reading the bodies of frames, which are taken to their ends.

ghost use Rattle.std.specs.Prelude.{◌≡◌, ℕ, ◌+◌, ◌≤◌, length, IfOk, MatchResult};
ghost use Rattle.log_base.specs.Shape.{shape};
ghost use Rattle.record_frame.specs.Fields.{Gives, Refuses};
ghost use Rattle.history_frame.specs.declared.pieces.Piece.{Piece};
ghost use Rattle.history_frame.specs.Frames.{IsEventRead};
ghost use Rattle.history_frame.specs.ReplyReading.{told};
ghost use Rattle.history_frame.specs.Reading.{lane_reply_at, lane_reply_of, config_at, run_at, head_at, head_of, kept_of, happened_at, happened_told, event_of};

use crate::events::{Event, Happened, Kept};
use crate::inputs::{Input, Mark};
use crate::pieces::Piece;
use crate::reading::{read_input, read_mark, read_outputs};
use crate::reply_reading::read_reply;
use log_base::{Bytes, Config, List, NodeId};
use record_frame::{Refusal, read_u8, read_u16, read_u32};
use reply_frame::Reply;
use std::alloc::Global;

/// The greatest number of a run.
const LAST_RUN: u32 = 1_000_000;

/// Reads the reply to a lane.
#[tactic(auto, unfolding(crate::specs::Reading::lane_reply_at))]
fn lane_reply_from(alloc: Global, body: &[u8]) -> Result<((u8, Reply), usize), Refusal>
    ensures read { Gives (λ x. ((x.0.0, told x.0.1), x.1)) result (lane_reply_at body.now 0) }
    ensures within { IfOk result (λ x. x.1 ≤ length body.now) }
{
    let (lane, next) = read_u8(body, 0)?;
    let (reply, next) = read_reply(alloc, body, next)?;
    Ok(((lane, reply), next))
}

/// The reply to a lane that a body spells.
#[tactic(auto, unfolding(crate::specs::Reading::lane_reply_of))]
pub fn read_lane_reply(alloc: Global, body: &[u8]) -> Result<(u8, Reply), Refusal>
    ensures { Gives (λ x. (x.0, told x.1)) result (lane_reply_of body.now) }
{
    let (found, next) = lane_reply_from(alloc, body)?;
    if next < body.len() {
        return Err(Refusal::Long {
            extra: body.len() - next,
        });
    }
    Ok(found)
}

/// Reads the numbers of a config.
#[tactic(auto, unfolding(crate::specs::Reading::shape_at, crate::specs::Reading::config_at))]
fn config_from(body: &[u8]) -> Result<(Config, usize), Refusal>
    ensures read { Gives (λ x. (shape x.0, x.1)) result (config_at body.now 0) }
    ensures within { IfOk result (λ x. x.1 ≤ length body.now) }
{
    let (replicas, next) = read_u8(body, 0)?;
    let (shards, next) = read_u8(body, next)?;
    let (orderers, next) = read_u8(body, next)?;
    let (gatherers, next) = read_u8(body, next)?;
    match Config::new(replicas, shards, orderers, gatherers) {
        Ok(config) => Ok((config, next)),
        Err(_) => Err(Refusal::BadNumber { at: 0 }),
    }
}

/// Reads a run.
#[tactic(auto, unfolding(crate::specs::Reading::run_at))]
fn run_from(body: &[u8], at: usize) -> Result<(u32, usize), Refusal>
    requires { at ≤ length body.now }
    ensures read { result ≡ run_at body.now at }
    ensures within { IfOk result (λ x. x.1 ≤ length body.now) }
{
    let (run, next) = read_u32(body, at)?;
    if run < 1 || run > LAST_RUN {
        return Err(Refusal::BadNumber { at });
    }
    Ok((run, next))
}

/// Reads a config and a run.
#[tactic(auto, unfolding(crate::specs::Reading::head_at))]
fn head_from(body: &[u8]) -> Result<((Config, u32), usize), Refusal>
    ensures read { Gives (λ x. ((shape x.0.0, x.0.1), x.1)) result (head_at body.now 0) }
    ensures within { IfOk result (λ x. x.1 ≤ length body.now) }
{
    let (config, next) = config_from(body)?;
    let (run, next) = run_from(body, next)?;
    Ok(((config, run), next))
}

/// The config and the run that a body spells.
#[tactic(auto, unfolding(crate::specs::Reading::head_of))]
pub fn read_head(body: &[u8]) -> Result<(Config, u32), Refusal>
    ensures { Gives (λ x. (shape x.0, x.1)) result (head_of body.now) }
{
    let (found, next) = head_from(body)?;
    if next < body.len() {
        return Err(Refusal::Long {
            extra: body.len() - next,
        });
    }
    Ok(found)
}

/// The payload of a disk that a body spells.
#[tactic(auto, unfolding(crate::specs::Reading::kept_of))]
pub fn read_kept(alloc: Global, body: &[u8]) -> Result<Kept, Refusal>
    ensures { Gives (λ x. x) result (kept_of body.now) }
{
    let (disk, next) = read_u32(body, 0)?;
    let payload = Vec::from_slice(alloc, &body[next..])?;
    Ok(Kept {
        disk,
        payload: Bytes::of(payload),
    })
}

/// Reads what happened into a place. After a refusal the place has something.
#[tactic(auto, unfolding(crate::specs::Reading::happened_at))]
fn read_happened(
    alloc: Global,
    body: &[u8],
    at: usize,
    happened: &mut Happened,
) -> Result<usize, Refusal>
    requires { at ≤ length body.now }
    ensures read { Gives (λ next. (happened_told happened.new, next)) result (happened_at body.now at) }
    ensures within { IfOk result (λ next. next ≤ length body.now) }
{
    let next = read_input(alloc, body, at, &mut happened.input)?;
    let (mark, next) = read_mark(body, next)?;
    let (count, next) = read_u8(body, next)?;
    let next = read_outputs(alloc, body, next, count, &mut happened.outputs)?;
    let (reply, next) = read_reply(alloc, body, next)?;
    happened.mark = mark;
    happened.reply = reply;
    Ok(next)
}

/// Reads the node and what happened there into an event.
#[tactic(auto, unfolding(crate::specs::Reading::event_of, crate::specs::Reading::node_happened_at))]
fn read_into(alloc: Global, place: u32, body: &[u8], event: &mut Event) -> Result<(), Refusal>
    ensures { MatchResult result (λ _. IsEventRead place (event_of body.now) (Piece.Event event.new)) (λ refusal. Refuses refusal (event_of body.now)) }
{
    let (node, next) = read_u16(body, 0)?;
    let next = read_happened(alloc, body, next, &mut event.happened)?;
    if next < body.len() {
        return Err(Refusal::Long {
            extra: body.len() - next,
        });
    }
    event.place = place;
    event.node = NodeId(node);
    Ok(())
}

/// Reads an event in place of another piece.
fn read_anew(alloc: Global, place: u32, body: &[u8], piece: &mut Piece) -> Result<(), Refusal>
    ensures { MatchResult result (λ _. IsEventRead place (event_of body.now) piece.new) (λ refusal. Refuses refusal (event_of body.now)) }
{
    let mut event = Event {
        place,
        node: NodeId(0),
        happened: Happened {
            input: Input::Tick,
            mark: Mark::Done,
            outputs: List::of(Vec::new(alloc)),
            reply: Reply::Nothing,
        },
    };
    read_into(alloc, place, body, &mut event)?;
    *piece = Piece::Event(event);
    Ok(())
}

/// Reads the event at a place that a body spells: its node, and what happened there. The memory of an event that was in the
/// piece is used again.
pub fn read_event(alloc: Global, place: u32, body: &[u8], piece: &mut Piece) -> Result<(), Refusal>
    ensures { MatchResult result (λ _. IsEventRead place (event_of body.now) piece.new) (λ refusal. Refuses refusal (event_of body.now)) }
{
    match piece {
        Piece::Event(event) => read_into(alloc, place, body, event),
        Piece::Reply | Piece::Head { .. } | Piece::Kept(_) | Piece::End => {
            read_anew(alloc, place, body, piece)
        }
    }
}
