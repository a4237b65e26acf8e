//! Posting letters into the boxes of nodes, and fetching them. A node has 16 boxes.

ghost use Rattle.std.specs.Prelude.{◌≡◌, ◌+◌, ◌*◌, ◌<◌, ◌≤◌, true, None};
ghost use Rattle.tied_cells.specs.Rule.{nodes_of, box_node};
ghost use Rattle.tied_cells.specs.Turns.{IsOwnOutput};
ghost use Rattle.tied_cells.specs.Boxes.{first_box, PostsInto, Posts, FetchesFrom, Fetches};

use crate::board::{Chair, Stored};
use crate::cells::{Cells, Pass};
use crate::letter::Letter;
use crate::plays::{Claim, Fetch, Free, Post};
use log_base::{Machine, NodeId};

/// How many boxes a node has.
const BOXES: usize = 16;

/// What becomes of a letter that is to be posted.
#[derive(Debug, Drop)]
pub enum Posted {
    /// It lies in a box of its addressee.
    Posted,
    /// None of the addressee's boxes was empty, as the notes say that the call added. The letter comes back.
    NoRoom(Letter),
}

/// What is found in a node's boxes.
#[derive(Debug, Drop)]
pub enum Fetched {
    /// A letter.
    Letter(Letter),
    /// None of the boxes was full, as the notes say that the call added.
    Empty,
}

impl<M: Machine> Cells<M> {
    /// The slot of a node's first box.
    fn first_box(&self, node: NodeId) -> usize
        requires { node.0 < self.now.nodes }
        ensures first { result ≡ first_box self.now.nodes node.0 }
        ensures inside { result + 16 ≤ 17 * self.now.nodes }
    {
        self.nodes as usize + BOXES * node.0 as usize
    }

    fn post_into(&self, seat: &mut Chair<M>, mark: u64, slot: usize, letter: Letter) -> Posted
        requires table { seat.old.table_id ≡ self.now.table.shared.table_id }
        requires slot { (self.now.nodes ≤ slot) × (slot < 17 * self.now.nodes) }
        requires alive { seat.old.me.0.alive ≡ true }
        requires free { seat.old.me.0.boxed ≡ None }
        requires mark { mark ≡ seat.old.me.0.number + 2 }
        requires output { IsOwnOutput M.meanings seat.old.me.0 (box_node (nodes_of seat.old.me.0.deal) slot) letter }
        ensures table { seat.new.table_id ≡ seat.old.table_id }
        ensures outcome { PostsInto slot letter seat.old.me seat.new.me result }
    {
        let found = self
            .table
            .shared
            .compare_exchange::<Claim>(seat, slot + 1, 0, mark);
        if found != 0 {
            return Posted::NoRoom(letter);
        }
        let _ = self.table.shared.exchange(seat, slot, Stored::Mail(letter));
        self.table.shared.store::<Post>(seat, slot + 1, 1);
        Posted::Posted
    }

    fn post_somewhere(&self, seat: &mut Chair<M>, mark: u64, to: NodeId, letter: Letter) -> Posted
        requires table { seat.old.table_id ≡ self.now.table.shared.table_id }
        requires node { to.0 < self.now.nodes }
        requires nodes { nodes_of seat.old.me.0.deal ≡ self.now.nodes }
        requires alive { seat.old.me.0.alive ≡ true }
        requires free { seat.old.me.0.boxed ≡ None }
        requires mark { mark ≡ seat.old.me.0.number + 2 }
        requires output { IsOwnOutput M.meanings seat.old.me.0 to.0 letter }
        ensures table { seat.new.table_id ≡ seat.old.table_id }
        ensures outcome { Posts to.0 letter seat.old.me seat.new.me result }
    {
        let first = self.first_box(to);
        let mut letter = letter;
        for index in 0..BOXES {
            match self.post_into(seat, mark, first + index, letter) {
                Posted::Posted => return Posted::Posted,
                Posted::NoRoom(back) => letter = back,
            }
        }
        Posted::NoRoom(letter)
    }

    /// Posts a letter, an output of an event of the pass, to the node that it is addressed to. There is
    /// `NoRoom` only where this call added, for each of the node's boxes, a note that it was not empty.
    pub fn post(&self, pass: &mut Pass<M>, to: NodeId, letter: Letter) -> Posted
        requires table { pass.old.seat.table_id ≡ self.now.table.shared.table_id }
        requires node { to.0 < self.now.nodes }
        requires output { IsOwnOutput M.meanings pass.old.seat.me.0 to.0 letter }
        ensures outcome { Posts to.0 letter pass.old.seat.me pass.new.seat.me result }
        ensures same { (pass.new.seat.table_id ≡ pass.old.seat.table_id) × (pass.new.account ≡ pass.old.account) }
    {
        let mark = pass.account.number as u64 + 2;
        self.post_somewhere(&mut pass.seat, mark, to, letter)
    }

    fn fetch_from(&self, seat: &mut Chair<M>, mark: u64, slot: usize) -> Fetched
        requires table { seat.old.table_id ≡ self.now.table.shared.table_id }
        requires slot { (self.now.nodes ≤ slot) × (slot < 17 * self.now.nodes) }
        requires alive { seat.old.me.0.alive ≡ true }
        requires free { seat.old.me.0.boxed ≡ None }
        requires mark { mark ≡ seat.old.me.0.number + 2 }
        ensures table { seat.new.table_id ≡ seat.old.table_id }
        ensures outcome { FetchesFrom M.meanings slot seat.old.me seat.new.me result }
    {
        let found = self
            .table
            .shared
            .compare_exchange::<Fetch<M>>(seat, slot + 1, 1, mark);
        if found != 1 {
            return Fetched::Empty;
        }
        match self.table.shared.exchange(seat, slot, Stored::Nothing) {
            Stored::Mail(letter) => {
                self.table.shared.store::<Free>(seat, slot + 1, 0);
                Fetched::Letter(letter)
            }
            _ => unreachable!(),
        }
    }

    fn fetch_somewhere(&self, seat: &mut Chair<M>, mark: u64, node: NodeId) -> Fetched
        requires table { seat.old.table_id ≡ self.now.table.shared.table_id }
        requires node { node.0 < self.now.nodes }
        requires nodes { nodes_of seat.old.me.0.deal ≡ self.now.nodes }
        requires alive { seat.old.me.0.alive ≡ true }
        requires free { seat.old.me.0.boxed ≡ None }
        requires mark { mark ≡ seat.old.me.0.number + 2 }
        ensures table { seat.new.table_id ≡ seat.old.table_id }
        ensures outcome { Fetches M.meanings node.0 seat.old.me seat.new.me result }
    {
        let first = self.first_box(node);
        for index in 0..BOXES {
            if let Fetched::Letter(letter) = self.fetch_from(seat, mark, first + index) {
                return Fetched::Letter(letter);
            }
        }
        Fetched::Empty
    }

    /// Fetches a letter for a node. It fits the node's machine where the pass has the turn there. It is
    /// `Empty` only where this call added, for each of the node's boxes, a note that it was not full.
    pub fn fetch(&self, pass: &mut Pass<M>, node: NodeId) -> Fetched
        requires table { pass.old.seat.table_id ≡ self.now.table.shared.table_id }
        requires node { node.0 < self.now.nodes }
        ensures outcome { Fetches M.meanings node.0 pass.old.seat.me pass.new.seat.me result }
        ensures same { (pass.new.seat.table_id ≡ pass.old.seat.table_id) × (pass.new.account ≡ pass.old.account) }
    {
        let mark = pass.account.number as u64 + 2;
        self.fetch_somewhere(&mut pass.seat, mark, node)
    }
}
