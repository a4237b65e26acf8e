//! How an event turned out.

ghost use Rattle.std.specs.Prelude.{◌≡◌, []};
ghost use Rattle.history_frame.specs.declared.inputs.Mark.TheVariants.{Done};

use history_frame::{Effect, Mark, Sent};
use log_base::List;
use reply_frame::Reply;
use std::alloc::Global;

/// Nothing is sent.
pub(crate) fn silent(alloc: Global, mark: Mark, reply: Reply) -> Effect
    ensures mark { result.mark ≡ mark }
    ensures outputs { result.outputs ≡ [] }
    ensures reply { result.reply ≡ reply }
{
    Effect {
        mark,
        outputs: List::of(Vec::new(alloc)),
        reply,
    }
}

/// Letters are sent, and nothing is answered.
pub(crate) fn told(outputs: List<Sent>) -> Effect
    ensures mark { result.mark ≡ Done }
    ensures outputs { result.outputs ≡ outputs }
    ensures reply { result.reply ≡ Reply.Nothing }
{
    Effect {
        mark: Mark::Done,
        outputs,
        reply: Reply::Nothing,
    }
}
