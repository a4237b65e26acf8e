//! The walker of the rules.

ghost use Rattle.std.specs.Prelude.{◌≡◌, ◌<◌, ℕ, List as Items, [], ◌∷◌, ◌++◌, length, IfOk, IsTrue, ◌↔◌};
ghost use Rattle.std.specs.List.{AllByRecursion};
ghost use Rattle.history_frame.specs.declared.events.Event.{Event};
ghost use Rattle.history_frame.specs.Frames.{TellsNoMessage};
ghost use Rattle.history_frame.specs.Spelling.{IsHappened, IsSent};
ghost use Rattle.history_frame.specs.Widths.{InputFits};
ghost use Rattle.log_base.specs.Shape.{shape};
ghost use Rattle.node_model.specs.NodeState.{KeptLists};
ghost use Rattle.node_model.specs.Sound.{IsSound, payloads_on};
ghost use Rattle.node_table.specs.Numbering.{nodes_of};

use crate::beginning::{MemoryNode, begin};
use crate::filling::fill;
use crate::letters::are_letters;
use crate::replies::is_reply;
use crate::stepping::step_at;
use crate::submissions::Submissions;
use history_frame::{Event, Happened, Kept, Mark, Sent};
use log_base::{Config, List, Memory, NodeId, Outbox};
use node_table::nodes;
use std::alloc::Global;

/// Whether an event may come after those before it.
#[derive(Clone, Copy, Debug, PartialEq, Eq)]
pub enum Following {
    Follows,
    Breaks,
}

/// The nodes of a cluster after some events, with the letters and the submissions of these.
#[derive(Drop)]
pub struct Walker {
    alloc: Global,
    pub config: Config,
    pub run: u32,
    nodes: Vec<MemoryNode>,
    sent: Vec<List<Sent>>,
    submissions: Submissions,
    out: Outbox,
}

impl Walker {
    ghost use Rattle.history_walk.specs.Walking.{IsAnswer, IsTaken, MayTake, Stands, StandsAfter};

    /// Before the first event, over what the disks kept.
    pub fn start(alloc: Global, config: Config, run: u32, kept: Vec<Kept>) -> Result<Walker, Memory>
        requires { IsSound (shape config) run (payloads_on kept.items) }
        ensures config { IfOk result (λ walker. walker.config ≡ config) }
        ensures run { IfOk result (λ walker. walker.run ≡ run) }
        ensures stands { IfOk result (λ walker. StandsAfter walker (payloads_on kept.items) []) }
    {
        let nodes = begin(alloc, &config, kept)?;
        Ok(Walker {
            alloc,
            config,
            run,
            nodes,
            sent: Vec::new(alloc),
            submissions: Submissions::new(alloc),
            out: Outbox::new(alloc),
        })
    }

    /// Whether the event that a written one stands for may come next. It is taken apart. After an event that may
    /// not come, or want of memory, nothing is said of the walker.
    pub fn offer(&mut self, event: &mut Event) -> Result<Following, Memory>
        requires stands { Stands self.old }
        requires spelled { IsHappened event.old.happened }
        requires fits { InputFits event.old.happened.input }
        requires untold { TellsNoMessage event.old.happened.input }
        ensures config { self.new.config ≡ self.old.config }
        ensures run { self.new.run ≡ self.old.run }
        ensures answer { IfOk result (λ following. (kept : KeptLists) (events : Items Event) → StandsAfter self.old kept events → event.old.place ≡ length events
            → IsAnswer self.old self.new kept events event.old following) }
    {
        let node = event.node;
        if node.0 >= nodes(&self.config) {
            return Ok(Following::Breaks);
        }
        let happened = &mut event.happened;
        match fill(
            self.alloc,
            &self.config,
            node,
            &self.sent,
            &mut happened.input,
        )? {
            Following::Follows => {}
            Following::Breaks => return Ok(Following::Breaks),
        }
        if !self.submissions.may_take(self.run, node, &happened.input) {
            return Ok(Following::Breaks);
        }
        let following = self.take(node, happened)?;
        Ok(following)
    }

    // Whether a node made this event, whose input may be handed to it.
    fn take(&mut self, node: NodeId, happened: &mut Happened) -> Result<Following, Memory>
        requires node { node.0 < nodes_of (shape self.old.config) }
        requires may { (kept : KeptLists) × (events : Items Event) × MayTake self.old kept events node.0 happened.old.input }
        requires spelled { AllByRecursion IsSent happened.old.outputs }
        ensures config { self.new.config ≡ self.old.config }
        ensures run { self.new.run ≡ self.old.run }
        ensures taken { IfOk result (λ following. (kept : KeptLists) (events : Items Event) → MayTake self.old kept events node.0 happened.old.input
            → IsTaken self.old self.new kept events node.0 happened.old.input happened.old.mark happened.old.outputs happened.old.reply following) }
    {
        // Spare buffers that an event left over would grow with the history: the outbox keeps a few.
        self.out.reset();
        let effect = step_at(
            &self.config,
            &mut self.nodes,
            node,
            &happened.input,
            happened.mark,
            &mut self.out,
        )?;
        if !is_mark(effect.mark, happened.mark) {
            return Ok(Following::Breaks);
        }
        if !is_reply(&happened.reply, &effect.reply) {
            return Ok(Following::Breaks);
        }
        if !are_letters(happened.outputs.get(), effect.outputs.get()) {
            return Ok(Following::Breaks);
        }
        self.submissions.take(node, &mut happened.input)?;
        self.sent.push(fitted(effect.outputs))?;
        Ok(Following::Follows)
    }
}

// The letters of an event, which are kept to the end, without room for more.
fn fitted(outputs: List<Sent>) -> List<Sent>
    ensures { result ≡ outputs }
{
    let mut letters = outputs.into_inner();
    letters.shrink_to_fit();
    List::of(letters)
}

// Whether two marks are the same.
fn is_mark(mark: Mark, other: Mark) -> bool
    ensures { IsTrue result ↔ (mark ≡ other) }
{
    match mark {
        Mark::Done => matches!(other, Mark::Done),
        Mark::Halted => matches!(other, Mark::Halted),
        Mark::OpenedWithout => matches!(other, Mark::OpenedWithout),
        Mark::OpenedWith => matches!(other, Mark::OpenedWith),
        Mark::StayedDown => matches!(other, Mark::StayedDown),
    }
}
