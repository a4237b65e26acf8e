//! Laws of the schedule. Each function does nothing: its contract is the law.

ghost use Rattle.std.specs.Prelude.{◌≡◌, ◌≢◌, ℕ, ◌<◌, ◌≤◌, List, [], ◌∷◌, ◌++◌, length, Some, slice_get};
ghost use Rattle.std.specs.List.{AllByRecursion};
ghost use Rattle.log_base.specs.ClusterShape.{Shape};
ghost use Rattle.command_frame.specs.declared.items.Item.{Item};
ghost use Rattle.reply_frame.specs.declared.replies.Reply.{Settled};
ghost use Rattle.history_frame.specs.declared.events.Event.{Event};
ghost use Rattle.history_frame.specs.declared.events.Happened.{Happened};
ghost use Rattle.history_frame.specs.declared.inputs.Input.TheVariants.{Restart};
ghost use Rattle.node_model.specs.Histories.{IsDelivered, IsSent};
ghost use Rattle.node_model.specs.Legal.{AgreesWith, IsOfRun};
ghost use Rattle.node_model.specs.NodeState.{IsRow, NodeState};
ghost use Rattle.node_table.specs.Numbering.{nodes_of};
ghost use Rattle.schedule_model.specs.declared.turns.Turn.{Turn};
ghost use Rattle.schedule_model.specs.Calling.{IsAllowed, IsNoLetter, IsPlanned, IsRun};
ghost use Rattle.schedule_model.specs.Driven.{IsDriven, IsFollowed, after_event, next_plans_after, next_turn_after, replies_of, scheduled_after, turn_of};
ghost use Rattle.schedule_model.specs.Streams.{IsSingle};
ghost use Rattle.schedule_model.specs.Scheduling.{Waiting};
ghost use Rattle.schedule_model.specs.Starts.{IsNoRestart, IsStartOf};
ghost use Rattle.schedule_model.specs.Worked.{addition, confirmed, decided, opened, opening_turns, silent, smallest, two_by_two};

/// Runs worked by hand follow the schedule: an opening, and the addition of a shard in the smallest cluster.
pub fn worked_runs()
    ensures opening { IsFollowed two_by_two 1 [] (silent opening_turns) }
    ensures driven { IsDriven smallest 1 addition (opened ++ decided ++ confirmed) }
    ensures replies { replies_of smallest 1 addition (opened ++ decided ++ confirmed) ≡ Settled (record { 0 = 0 }) ∷ [] }
{}

/// An event that is the next turn goes on with the events before it. Its place is how many these are.
pub fn one_event_more()
    ensures place { (config : Shape) (run : ℕ) (items : List Item) (events : List Event)
        → (scheduled_after config run items events).place ≡ length events }
    ensures after { (config : Shape) (run : ℕ) (items : List Item) (events : List Event) (event : Event)
        → scheduled_after config run items (events ++ event ∷ []) ≡ after_event (scheduled_after config run items events) event }
    ensures followed { (config : Shape) (run : ℕ) (items : List Item) (events : List Event) (event : Event) → IsFollowed config run items events
        → next_turn_after config run items events ≡ Some (turn_of event) → IsFollowed config run items (events ++ event ∷ []) }
{}

/// Each letter that waits, or is delivered next, is an output of an event to this node.
pub fn letters_were_sent()
    ensures waiting { (config : Shape) (run : ℕ) (items : List Item) (events : List Event) (k : ℕ) (letter : Waiting)
        → slice_get (scheduled_after config run items events).queue k ≡ Some letter
        → IsSent events letter.sent.to.0 letter.place letter.index letter.sent.message }
    ensures delivered { (config : Shape) (run : ℕ) (items : List Item) (events : List Event) (turn : Turn)
        → next_turn_after config run items events ≡ Some turn → IsDelivered events turn.node.0 turn.input }
{}

/// Each input that delivers no letter is one that its node may take, whatever the events were.
pub fn inputs_are_allowed()
    ensures { (config : Shape) (run : ℕ) (items : List Item) (events : List Event) (turn : Turn) → IsRun config run items
        → next_turn_after config run items events ≡ Some turn → IsNoLetter turn.input → IsAllowed config turn }
{}

/// Only the disks of nodes that keep some are told of failures to come.
pub fn plans_are_allowed()
    ensures { (config : Shape) (run : ℕ) (items : List Item) (events : List Event) → IsRun config run items
        → AllByRecursion (IsPlanned config) (next_plans_after config run items events) }
{}

/// What is submitted next has a number of the run, and what was submitted under the same pair went to the same
/// node with the same bytes.
pub fn submissions_agree()
    ensures of_run { (config : Shape) (run : ℕ) (items : List Item) (events : List Event) (turn : Turn) → IsRun config run items
        → IsFollowed config run items events → next_turn_after config run items events ≡ Some turn → IsOfRun run turn.input }
    ensures one_node { (config : Shape) (run : ℕ) (items : List Item) (events : List Event) (event : Event) → IsRun config run items
        → IsFollowed config run items (events ++ event ∷ []) → AllByRecursion (AgreesWith event) events }
{}

/// No node answers with a stream.
pub fn answers_are_single()
    ensures { (config : Shape) (node : ℕ) (state : NodeState) (happened : Happened) → IsRow config node state happened → IsSingle happened.reply }
{}

/// No item is answered twice, and each is answered when the run is over.
pub fn each_item_is_answered()
    ensures few { (config : Shape) (run : ℕ) (items : List Item) (events : List Event)
        → length (replies_of config run items events) ≤ length items }
    ensures all { (config : Shape) (run : ℕ) (items : List Item) (events : List Event) → next_turn_after config run items events ≡ None
        → length (replies_of config run items events) ≡ length items }
{}

/// A run begins, as far as it goes, with a start of each node, in order of their numbers. When it is over all of
/// them were started, and none is started again but by a line of the fault script.
pub fn nodes_are_started_first()
    ensures first { (config : Shape) (run : ℕ) (items : List Item) (events : List Event) (number : ℕ) (event : Event)
        → IsFollowed config run items events → number < nodes_of config → slice_get events number ≡ Some event → IsStartOf number event }
    ensures later { (config : Shape) (run : ℕ) (items : List Item) (events : List Event) (number : ℕ) (event : Event)
        → AllByRecursion IsNoRestart items → IsFollowed config run items events → nodes_of config ≤ number → slice_get events number ≡ Some event → event.happened.input ≢ Restart }
    ensures all { (config : Shape) (run : ℕ) (items : List Item) (events : List Event) → IsDriven config run items events
        → nodes_of config ≤ length events }
{}
