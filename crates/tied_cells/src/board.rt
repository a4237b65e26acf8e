//! The table that the passes share: what its slots hold, what a pass knows, and what the table is told
//! when it is made.
//!
//! Word 0 is the next place. Of n nodes, node k has slot k, where its cell lies, and box b of node k is slot
//! `n + 16 k + b`. Slot s has word `s + 1`. The word of a cell is 0 where the cell is at home, and else 1 more
//! than the number of the pass that has the turn. The word of a box is 0 where it is empty, 1 where it is
//! full, and else 2 more than the number of the pass that has it in hand.

use crate::letter::Letter;
use atomic_table::{Seat, Table, TableRule};
use log_base::{Committed, Machine};
use std::alloc::Global;
use std::collections::LinkedList;
use std::snapshot::Snapshot;

/// A node's machine, and its events so far.
#[derive(Drop)]
pub struct Cell<M, H> {
    pub machine: M,
    pub events: Vec<Committed<H>>,
}

/// What a slot holds.
#[derive(Drop)]
pub enum Stored<M, H> {
    /// The cell is out with the pass that has the turn, or the box is empty.
    Nothing,
    /// A cell at home.
    Home(Cell<M, H>),
    /// A letter in a box.
    Mail(Letter),
    /// What a step said, while it is given its place.
    Said(H),
}

/// What the cells were made with: the states at the start, how many passes there are, and how many places
/// each may use.
pub struct Deal<S> {
    pub starts: LinkedList<S>,
    pub passes: u64,
    pub quota: u64,
}

/// An event of a pass.
pub struct Own<H> {
    pub place: u64,
    pub node: u64,
    pub happened: H,
}

/// The turn at a node, with the node's events.
pub struct Turn<H> {
    pub node: u64,
    pub events: LinkedList<Committed<H>>,
}

/// A letter with its addressee.
pub struct Addressed {
    pub node: u64,
    pub letter: Letter,
}

/// A word that a pass tried in vain, and what it found there.
pub struct Note {
    pub word: u64,
    pub found: u64,
}

/// A pass that was joined to another: its number and its own events.
pub struct Joined<H> {
    pub number: u64,
    pub own: LinkedList<Own<H>>,
}

/// What a pass knows. No value of it is made.
pub struct View<S, H> {
    /// False once the pass was joined to another.
    pub alive: bool,
    pub deal: Deal<S>,
    pub number: u64,
    /// The events that it committed, in order.
    pub own: LinkedList<Own<H>>,
    pub joined: LinkedList<Joined<H>>,
    /// The pass that is made first counts those that were split from it.
    pub given: Option<u64>,
    pub turn: Option<Turn<H>>,
    /// The slot of the box in hand.
    pub boxed: Option<u64>,
    /// The last letter that it fetched, unless it was delivered.
    pub fetched: Option<Addressed>,
    /// The letters that it posted, in order.
    pub posted: LinkedList<Addressed>,
    pub notes: LinkedList<Note>,
}

/// An event of the opening.
#[derive(Drop)]
pub struct Opened<H> {
    pub node: u64,
    pub happened: Snapshot<H>,
}

/// What the table is told when it is made.
#[derive(Drop)]
pub struct Key<M, H> {
    pub starts: Snapshot<Vec<M>>,
    pub opening: Vec<Opened<H>>,
    pub passes: u64,
    pub quota: u64,
}

/// The rule of the table.
pub struct Ties;

impl<M: Machine> TableRule<Stored<M, M::Happened>, View<M::State, M::Happened>, Key<M, M::Happened>>
    for Ties {
    ghost use Rattle.tied_cells.specs.Rule.{Holds, deal_of, first_view};

    ghost holds = { λ key. Holds M.state M.meanings (deal_of M.state key) };

    ghost first = { λ key. first_view (deal_of M.state key) key.opening.items };
}

pub type Board<M> = Table<
    Stored<M, <M as Machine>::Happened>,
    View<<M as Machine>::State, <M as Machine>::Happened>,
    Key<M, <M as Machine>::Happened>,
    Ties,
    Global,
>;

pub type Chair<M> = Seat<
    Stored<M, <M as Machine>::Happened>,
    View<<M as Machine>::State, <M as Machine>::Happened>,
>;
