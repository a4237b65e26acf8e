//! The output of a run: the frames of its replies, and then its history.

ghost use Rattle.std.specs.Prelude.{◌≡◌, ◌++◌, length, IfOk, OnOk};
ghost use Rattle.std.specs.List.{AllByRecursion};
ghost use Rattle.reply_frame.specs.Replies.{HasSpelling};
ghost use Rattle.history_frame.specs.Spelling.{IsHistory, history_spelling};
ghost use Rattle.scalog_run.specs.Output.{lane_frames};

use command_frame::{Reply, write_reply};
use history_frame::{History, write_history};
use log_base::Memory;
use std::alloc::Global;

/// The output of a run that came to its end, by the lanes of its items.
pub fn write_output(
    alloc: Global,
    lanes: &[u8],
    replies: &[Reply],
    history: &History,
) -> Result<Vec<u8>, Memory>
    requires each { length replies.now ≡ length lanes.now }
    requires replies { AllByRecursion HasSpelling replies.now }
    requires history { IsHistory history.now }
    ensures { IfOk result (λ out. out.items ≡ lane_frames lanes.now replies.now ++ history_spelling history.now) }
{
    let mut out = Vec::new(alloc);
    write_replies(lanes, replies, &mut out)?;
    write_history(history, &mut out)?;
    Ok(out)
}

/// Appends the frames of the replies, each behind its lane, or a part of them where memory runs out.
fn write_replies(lanes: &[u8], replies: &[Reply], out: &mut Vec<u8>) -> Result<(), Memory>
    requires each { length replies.now ≡ length lanes.now }
    requires replies { AllByRecursion HasSpelling replies.now }
    ensures { OnOk result (out.new.items ≡ out.old.items ++ lane_frames lanes.now replies.now) }
{
    for at in 0..lanes.len() {
        write_reply(lanes[at], &replies[at], out)?;
    }
    Ok(())
}
