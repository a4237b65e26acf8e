//! Two lists of events as one.

ghost use Rattle.std.specs.Prelude.{◌≡◌, ◌≤◌, length, IfOk};
ghost use Rattle.std.specs.Prelude.{◌∷◌, []};
ghost use Rattle.log_base.specs.declared.machine.Committed.{Committed};
ghost use Rattle.history_frame.specs.declared.events.Happened.{Happened};
ghost use Rattle.history_frame.specs.Merging.{IsComplete, events_from};

use crate::{Event, Happened, Input, Mark, merge, one_order};
use log_base::{Committed, List};
use reply_frame::Reply;
use std::alloc::Global;
use std::test::Fail;

/// A list of one event at a place.
fn one_at(alloc: Global, place: u32) -> Result<List<Committed<Happened>>, Fail>
    ensures { IfOk result (λ list. (committed : Committed Happened) × (list ≡ committed ∷ []) × (committed.place ≡ place)) }
{
    let happened = Happened {
        input: Input::Tick,
        mark: Mark::Done,
        outputs: List::of(Vec::new(alloc)),
        reply: Reply::Nothing,
    };
    let mut list = Vec::new(alloc);
    list.push(Committed { place, happened })?;
    Ok(List::of(list))
}

/// An event of node 0 at place 1, and one of node 1 at place 0.
fn two_lists(alloc: Global) -> Result<List<List<Committed<Happened>>>, Fail>
    ensures complete { IfOk result IsComplete }
    ensures few { IfOk result (λ lists. length lists ≤ 43) }
    ensures size { IfOk result (λ lists. length (events_from 0 lists) ≤ 2) }
{
    let first = one_at(alloc, 1)?;
    let second = one_at(alloc, 0)?;
    let mut lists = Vec::new(alloc);
    lists.push(first)?;
    lists.push(second)?;
    Ok(List::of(lists))
}

#[test]
fn two_lists_merged(rt: HostRuntime) -> Result<(), Fail> {
    let lists = two_lists(rt.alloc())?;
    let mut out: Vec<Event> = Vec::with_capacity(rt.alloc(), 2)?;
    merge(lists, &mut out);
    one_order();
    let mut found = Vec::new(rt.alloc());
    for event in &out {
        found.push((event.place, event.node.0))?;
    }
    assert_eq!(rt; found.as_slice(), [(0, 1), (1, 0)].as_slice());
    Ok(())
}
