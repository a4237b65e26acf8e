//! The submissions so far, by their pairs of client and number.

ghost use Rattle.std.specs.Prelude.{◌≡◌, ℕ, ◌/◌, ◌^◌, ◌==◌, ◌&&◌, Some, OnOk, IsTrue, ◌↔◌, if◌then◌else◌};
ghost use Rattle.std.specs.Option.{option_copied};

use history_frame::{Call, Input};
use indexmap::IndexMap;
use log_base::{Bytes, Client, Memory, NodeId, Number};
use std::alloc::Global;
use std::marker::Model;
use std::mem;

/// How many numbers a run has.
const NUMBERS: u64 = 1 << 32;

/// A client, and a number that it gave to an append.
#[derive(Clone, Copy, Debug, PartialEq, Eq, Hash)]
pub struct Pair {
    pub client: Client,
    pub number: Number,
}

/// The node that a pair was submitted to, and the bytes of its record.
#[derive(Debug, Drop)]
pub struct Submission {
    pub node: NodeId,
    pub bytes: Bytes,
}

/// The first submission of each pair.
#[derive(Drop)]
pub struct Submissions {
    noted: IndexMap<Pair, Submission>,
}

impl Model for Submissions {
    ghost use Rattle.std.specs.Prelude.{List};
    ghost use Rattle.history_walk.specs.declared.submissions.Pair.{Pair};
    ghost use Rattle.history_walk.specs.declared.submissions.Submission.{Submission};

    ghost Value = { List (Pair × Submission) };

    ghost view = { λ s. s.noted.entries };
}

impl Submissions {
    ghost use Rattle.std.specs.Prelude.{List as Events, [], ◌∷◌, ◌++◌};
    ghost use Rattle.std.specs.List.{AllByRecursion};
    ghost use Rattle.history_frame.specs.declared.events.Event.{Event};
    ghost use Rattle.node_model.specs.Legal.{AgreesWith};
    ghost use Rattle.history_walk.specs.Submitting.{AreNoted, IsLike, MaySubmit, submission_in};

    /// No submission yet.
    pub fn new(alloc: Global) -> Submissions
        ensures { result ≡ [] }
    {
        Submissions {
            noted: IndexMap::new(alloc),
        }
    }

    /// The submission of a pair.
    pub fn get(&self, client: Client, number: Number) -> Option<&Submission>
        ensures { option_copied result ≡ submission_in self.now client.0 number.0 }
    {
        self.noted.get(&Pair { client, number })
    }

    /// Notes the submission of a pair that was not there.
    pub fn note(
        &mut self,
        client: Client,
        number: Number,
        submission: Submission,
    ) -> Result<(), Memory>
        ensures { OnOk result ((c n : ℕ) → submission_in self.new c n
            ≡ (if (client.0 == c) && (number.0 == n) then Some submission else submission_in self.old c n)) }
    {
        self.noted.insert(Pair { client, number }, submission)?;
        Ok(())
    }

    /// Whether an input of a node submits a number of the run, and what was submitted of its pair before; or
    /// it submits nothing.
    pub fn may_take(&self, run: u32, node: NodeId, input: &Input) -> bool
        ensures { (before : Events Event) (event : Event) → AreNoted self.now before → event.node.0 ≡ node.0 → event.happened.input ≡ input.now
            → (IsTrue result ↔ MaySubmit run before event) }
    {
        match input {
            Input::Call(call) => return self.may_be_called(run, node, call),
            _ => return true,
        }
    }

    fn may_be_called(&self, run: u32, node: NodeId, call: &Call) -> bool
        ensures { (before : Events Event) (event : Event) → AreNoted self.now before → event.node.0 ≡ node.0 → event.happened.input ≡ Input.Call call.now
            → (IsTrue result ↔ MaySubmit run before event) }
    {
        match call {
            Call::Submit {
                client,
                number,
                bytes,
            } => {
                if !is_of_run(*number, run) {
                    return false;
                }
                return self.is_like(*client, *number, node, bytes);
            }
            _ => return true,
        }
    }

    // Whether a pair was submitted to this node with these bytes, or not at all.
    fn is_like(&self, client: Client, number: Number, node: NodeId, bytes: &Bytes) -> bool
        ensures { IsTrue result ↔ IsLike (submission_in self.now client.0 number.0) node.0 bytes.now }
    {
        match self.get(client, number) {
            Some(noted) => noted.node == node && noted.bytes.get() == bytes.get(),
            None => true,
        }
    }

    /// Notes what an input of a node submits, if anything. A call is moved out of its place.
    pub fn take(&mut self, node: NodeId, input: &mut Input) -> Result<(), Memory>
        ensures { OnOk result ((before : Events Event) (event : Event) → AreNoted self.old before → event.node.0 ≡ node.0 → event.happened.input ≡ input.old
            → AllByRecursion (AgreesWith event) before → AreNoted self.new (before ++ event ∷ [])) }
    {
        match input {
            Input::Call(call) => {
                let none = Call::Ask {
                    client: Client(0),
                    number: Number(0),
                };
                return self.take_call(node, mem::replace(call, none));
            }
            _ => return Ok(()),
        }
    }

    fn take_call(&mut self, node: NodeId, call: Call) -> Result<(), Memory>
        ensures { OnOk result ((before : Events Event) (event : Event) → AreNoted self.old before → event.node.0 ≡ node.0 → event.happened.input ≡ Input.Call call
            → AllByRecursion (AgreesWith event) before → AreNoted self.new (before ++ event ∷ [])) }
    {
        match call {
            Call::Submit {
                client,
                number,
                bytes,
            } => {
                if self.get(client, number).is_some() {
                    return Ok(());
                }
                return self.note(client, number, Submission { node, bytes });
            }
            _ => return Ok(()),
        }
    }
}

// Whether a number is of a run.
fn is_of_run(number: Number, run: u32) -> bool
    ensures { IsTrue result ↔ (number.0 / 2 ^ 32 ≡ run) }
{
    number.0 / NUMBERS == u64::from(run)
}
