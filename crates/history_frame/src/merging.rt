//! Putting the events of several nodes in order.

ghost use Rattle.std.specs.Prelude.{◌≡◌, ◌+◌, ◌<◌, ◌≤◌, [], ◌∷◌, ◌++◌, length, map, vec_len, vec_capacity};
ghost use Rattle.history_frame.specs.Merging.{IsComplete, IsMerged, event_at, events_from};

use crate::events::{Event, Happened};
use log_base::{Committed, List, NodeId};

/// Moves all events into `out` in order of place, those of the list with index n as events at node n. It
/// takes no memory.
pub fn merge(lists: List<List<Committed<Happened>>>, out: &mut Vec<Event>)
    requires few { length lists ≤ 43 }
    requires complete { IsComplete lists }
    requires empty { out.old.items ≡ [] }
    requires room { length (events_from 0 lists) ≤ vec_capacity out.old }
    ensures { IsMerged lists out.new.items }
{
    put_lists(lists.into_inner(), out);
    out.sort_unstable_by_key(|event| event.place);
}

/// Moves the events of lists to the end of others, for which there has to be room.
fn put_lists(lists: Vec<List<Committed<Happened>>>, out: &mut Vec<Event>)
    requires few { length lists.items ≤ 43 }
    requires room { vec_len out.old + length (events_from 0 lists.items) ≤ vec_capacity out.old }
    ensures { out.new.items ≡ out.old.items ++ events_from 0 lists.items }
{
    let mut node: u16 = 0;
    for list in lists {
        put_list(list, NodeId(node), out);
        node += 1;
    }
}

/// Moves the events of a node to the end of others, for which there has to be room.
fn put_list(list: List<Committed<Happened>>, node: NodeId, out: &mut Vec<Event>)
    requires { vec_len out.old + length list ≤ vec_capacity out.old }
    ensures items { out.new.items ≡ out.old.items ++ map (event_at node.0) list }
    ensures len { vec_len out.new ≡ vec_len out.old + length list }
    ensures capacity { vec_capacity out.old ≤ vec_capacity out.new }
{
    for committed in list.into_inner() {
        put_committed(committed, node, out);
    }
}

/// Moves an event of a node to the end of others, for which there has to be room.
fn put_committed(committed: Committed<Happened>, node: NodeId, out: &mut Vec<Event>)
    requires { vec_len out.old < vec_capacity out.old }
    ensures items { out.new.items ≡ out.old.items ++ event_at node.0 committed ∷ [] }
    ensures len { vec_len out.new ≡ vec_len out.old + 1 }
    ensures capacity { vec_capacity out.old ≤ vec_capacity out.new }
{
    let event = Event {
        place: committed.place,
        node,
        happened: committed.happened,
    };
    let _ = out.push(event);
}
