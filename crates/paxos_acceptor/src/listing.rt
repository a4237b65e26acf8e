//! Reading the list of a journal.

ghost use Rattle.std.specs.Prelude.{◌≡◌, ◌-◌, ◌≤◌, List, [], ◌∷◌, ◌++◌, take, IfSome};
ghost use Rattle.std.specs.Option.{option_map};
ghost use Rattle.paxos_model.specs.Votes.{Payload};
ghost use Rattle.segment_journal.specs.Journalled.{end_of};
ghost use Rattle.paxos_model.specs.Payloads.{payload_found, payloads_in};
ghost use Rattle.paxos_acceptor.specs.Listed.{HasSlot, bad_offset, list_of, payload_so};
ghost use Rattle.paxos_acceptor.specs.Table.{Tables};

use crate::payloads::{Entry, read_entry};
use crate::table::VoteTable;
use segment_journal::Journal;

/// The offset of the first payload that is no promise or vote.
pub fn first_bad<J: Journal>(journal: &J) -> Option<u32>
    ensures { result ≡ bad_offset (J.state journal.now) }
{
    for at in journal.first()..journal.len() {
        if read_entry(journal.get(at)).is_none() {
            return Some(at);
        }
    }
    None
}

/// Notes the promises and votes of a list from an offset on in the table of those before it.
pub fn note_from<J: Journal>(journal: &J, from: u32, table: &mut VoteTable)
    requires first { (J.state journal.now).first ≤ from }
    requires end { from ≤ end_of (J.state journal.now) }
    requires before { Tables table.old (payloads_in (take (from - (J.state journal.now).first) (J.state journal.now).payloads)) }
    ensures { Tables table.new (list_of (J.state journal.now)) }
{
    for at in from..journal.len() {
        note(read_entry(journal.get(at)), table);
    }
}

// Notes what was read, if it is a promise or vote.
fn note(entry: Option<Entry>, table: &mut VoteTable)
    requires { IfSome entry HasSlot }
    ensures { (list : List Payload) → Tables table.old list → Tables table.new (list ++ payload_found (option_map payload_so entry) ∷ []) }
{
    if let Some(entry) = entry {
        table.note(&entry);
    }
}
