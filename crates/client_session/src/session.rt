//! A client's session.

ghost use Rattle.std.specs.Prelude.{◌≡◌, ◌-◌, ◌<◌, ◌≤◌, ◌↔◌, Some, None, IfSome, IsTrue};
ghost use Rattle.client_session.specs.Sessions.{after_draw, after_note, fresh, greater_of, pair_at};

use crate::Pair;
use log_base::{Client, NodeId, Number, Position};
use std::marker::Model;

/// The session of a client in one run.
#[derive(Debug, Drop)]
pub struct Session {
    client: Client,
    run: u32,
    draws: u32,
    last: Option<Pair>,
    greatest: Option<Position>,
}

impl Model for Session {
    ghost use Rattle.client_session.specs.Sessions.{Drawing, IsDrawing};

    ghost Value = { Drawing };

    ghost view = { λ s. record { client = s.client.0; run = s.run; draws = s.draws; last = s.last; greatest = s.greatest } };

    ghost invariant = { λ s. IsDrawing s.client.0 s.run s.draws s.last };
}

impl Session {
    /// A session that has drawn and noted nothing yet.
    pub fn new(client: Client, run: u32) -> Session
        requires { run ≤ 1000000 }
        ensures { result ≡ fresh client.0 run }
    {
        Session {
            client,
            run,
            draws: 0,
            last: None,
            greatest: None,
        }
    }

    /// Draws the next pair, for an append at a node.
    pub fn draw(&mut self, node: NodeId) -> Pair
        requires { self.old.draws < 65536 }
        ensures pair { result ≡ pair_at self.old.client self.old.run self.old.draws node.0 }
        ensures after { self.new ≡ after_draw self.old node.0 }
    {
        let number = u64::from(self.run) * 4_294_967_296 + u64::from(self.draws);
        let pair = Pair {
            client: self.client,
            number: Number(number),
            node,
        };
        self.draws += 1;
        self.last = Some(pair);
        pair
    }

    /// The pair that was drawn last.
    pub fn last(&self) -> Option<Pair>
        ensures last { result ≡ self.now.last }
        ensures none { (result ≡ None) ↔ (self.now.draws ≡ 0) }
        ensures pair { IfSome result (λ pair. pair ≡ pair_at self.now.client self.now.run (self.now.draws - 1) pair.node.0) }
    {
        self.last
    }

    /// Notes a position that the client was told.
    pub fn note(&mut self, position: Position)
        ensures { self.new ≡ after_note self.old position }
    {
        self.greatest = Some(greater(self.greatest, position));
    }

    /// The greatest position that was noted.
    pub fn greatest(&self) -> Option<Position>
        ensures { result ≡ self.now.greatest }
    {
        self.greatest
    }

    /// Whether an append may be sent again under this pair: only the last one that was drawn.
    pub fn may_resubmit(&self, pair: &Pair) -> bool
        ensures { IsTrue result ↔ (self.now.last ≡ Some pair.now) }
    {
        self.last == Some(*pair)
    }
}

// The greater of the position that was greatest, if there was one, and another.
fn greater(greatest: Option<Position>, position: Position) -> Position
    ensures { result ≡ greater_of greatest position }
{
    match greatest {
        Some(greatest) if position <= greatest => greatest,
        _ => position,
    }
}
