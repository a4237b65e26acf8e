//! Replies in the order of items.

ghost use Rattle.std.specs.Prelude.{◌≡◌, ◌≢◌, ◌<◌, ◌≤◌, [], length, map, slice_index_or, vec_capacity, IfOk, Ok};
ghost use Rattle.cluster_run.specs.Ordering.{AreAnswered, AreInOrder};
ghost use Rattle.cluster_run.specs.Taking.{IsTaken};

use log_base::{List, Memory};
use reply_frame::Reply;
use std::alloc::Global;

/// The lists of all lanes, if each has one.
pub(crate) fn all_lists(
    alloc: Global,
    answers: Vec<Result<List<Reply>, Memory>>,
) -> Result<Vec<Vec<Reply>>, Memory>
    ensures { IfOk result (λ lists. answers.items ≡ map (λ list. Ok list.items) lists.items) }
{
    let mut lists = Vec::with_capacity(alloc, answers.len())?;
    for answer in answers {
        lists.push_reserved(answer?.into_inner());
    }
    Ok(lists)
}

/// The replies of the lanes, in the order of the items, whose lanes these are. They are moved, the last first.
pub(crate) fn put_in_order(
    lanes: &[u8],
    mut lists: Vec<Vec<Reply>>,
    mut replies: Vec<Reply>,
) -> Vec<Reply>
    requires answered { AreAnswered lanes.now (map (λ list. list.items) lists.items) }
    requires empty { replies.items ≡ [] }
    requires room { length lanes.now ≤ vec_capacity replies }
    ensures { AreInOrder lanes.now (map (λ list. list.items) lists.items) result.items }
{
    let count = lanes.len();
    for done in 0..count {
        let lane = lanes[count - 1 - done];
        replies.push_reserved(take_last(&mut lists, lane));
    }
    replies.reverse();
    replies
}

/// Takes the last reply of a lane out of its list.
fn take_last(lists: &mut Vec<Vec<Reply>>, lane: u8) -> Reply
    requires within { lane < length lists.old.items }
    requires some { slice_index_or (map (λ list. list.items) lists.old.items) lane [] ≢ [] }
    ensures { IsTaken lane (map (λ list. list.items) lists.old.items) (map (λ list. list.items) lists.new.items) result }
{
    match lists[lane as usize].pop() {
        Some(reply) => reply,
        None => unreachable!(),
    }
}
