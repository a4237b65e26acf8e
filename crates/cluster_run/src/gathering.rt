//! The replies of a run, once its lanes and workers have ended.

ghost use Rattle.std.specs.Prelude.{◌≡◌, ◌≤◌, [], ℕ, length, slice_get, vec_capacity, IfErr, IfOk, Ok, Some};
ghost use Rattle.std.specs.Bool.{OnTrue};
ghost use Rattle.cluster_run.specs.Ordering.{AreGathered, HaveReplies};

use crate::ordering::{all_lists, put_in_order};
use crate::running::LaneAnswers;
use log_base::Memory;
use reply_frame::Reply;
use std::alloc::Global;

/// Whether each worker came to its end.
fn have_turned(turned: &[Result<(), Memory>]) -> bool
    ensures { OnTrue result ((k : ℕ) (answer : _) → slice_get turned.now k ≡ Some answer → answer ≡ Ok tt) }
{
    for answer in turned {
        if answer.is_err() {
            return false;
        }
    }
    true
}

/// The replies of all lanes in the order of the items, if each lane and each worker came to its end.
pub(crate) fn gather(
    alloc: Global,
    lanes: &[u8],
    answers: LaneAnswers,
    replies: Vec<Reply>,
) -> Result<Vec<Reply>, Memory>
    requires replied { HaveReplies lanes.now answers.lanes.items }
    requires empty { replies.items ≡ [] }
    requires room { length lanes.now ≤ vec_capacity replies }
    ensures { IfOk result (λ replies. AreGathered lanes.now answers.lanes.items answers.workers.items replies.items) }
{
    let LaneAnswers {
        lanes: lists,
        workers,
    } = answers;
    if !have_turned(&workers) {
        return Err(Memory);
    }
    let lists = all_lists(alloc, lists)?;
    Ok(put_in_order(lanes, lists, replies))
}

/// The same, where memory may have run out before they began.
pub(crate) fn gather_all(
    alloc: Global,
    lanes: &[u8],
    answers: Result<LaneAnswers, Memory>,
    replies: Vec<Reply>,
) -> Result<Vec<Reply>, Memory>
    requires replied { IfOk answers (λ answers. HaveReplies lanes.now answers.lanes.items) }
    requires empty { replies.items ≡ [] }
    requires room { length lanes.now ≤ vec_capacity replies }
    ensures gathered { IfOk result (λ replies. IfOk answers (λ answers. AreGathered lanes.now answers.lanes.items answers.workers.items replies.items)) }
    ensures come { IfOk result (λ replies. IfErr answers (λ memory. ⊥)) }
{
    match answers {
        Ok(answers) => gather(alloc, lanes, answers, replies),
        Err(memory) => Err(memory),
    }
}
