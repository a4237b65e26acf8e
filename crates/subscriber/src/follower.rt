//! The subscriber.

ghost use Rattle.std.specs.Prelude.{◌≡◌, ◌^◌, ◌<◌, IfOk, OnOk, IfErr, OnErr};
ghost use Rattle.subscriber.specs.Following.{after_offer, answer_to, following_from, next_of};

use log_base::{Memory, Position};
use record_frame::Entry;
use std::alloc::Global;
use std::marker::Model;

/// What becomes of an entry that is offered.
#[derive(Clone, Copy, Debug, PartialEq, Eq)]
pub enum Offered {
    /// It is delivered.
    Taken,
    /// It does not stand at the next position, which is told. It is dropped.
    NotNext { next: Position },
}

/// A subscriber: the entries that it took, from a position on.
#[derive(Debug, Drop)]
pub struct Subscriber {
    from: Position,
    delivered: Vec<Entry>,
}

impl Model for Subscriber {
    ghost use Rattle.subscriber.specs.Following.{Following, IsFollowing};

    ghost Value = { Following };

    ghost view = { λ s. record { from = s.from.0; delivered = s.delivered.items } };

    ghost invariant = { λ s. IsFollowing s.from.0 s.delivered.items };
}

impl Subscriber {
    /// A subscriber that has taken nothing yet. It keeps the allocator.
    pub fn new(alloc: Global, from: Position) -> Subscriber
        ensures { result ≡ following_from from.0 }
    {
        Subscriber {
            from,
            delivered: Vec::new(alloc),
        }
    }

    /// The position of the first entry.
    pub fn from(&self) -> Position
        ensures { result.0 ≡ self.now.from }
    {
        self.from
    }

    /// The position of the entry that is taken next.
    pub fn next(&self) -> Position
        ensures { result.0 ≡ next_of self.now }
    {
        Position(self.from.0 + self.delivered.len() as u64)
    }

    /// The entries that were taken, in order.
    pub fn delivered(&self) -> &[Entry]
        ensures { result.now ≡ self.now.delivered }
    {
        &self.delivered
    }

    /// The entries that were taken, in order, are handed over.
    pub fn into_delivered(self) -> Vec<Entry>
        ensures { result.items ≡ self.delivered }
    {
        self.delivered
    }

    /// Offers the entry of a position. It is taken where that is the next position. Where memory runs
    /// out, which it does only then, the entry is handed back.
    pub fn offer(&mut self, position: Position, entry: Entry) -> Result<Offered, (Memory, Entry)>
        requires { position.0 < 2 ^ 31 }
        ensures answer { IfOk result (λ offered. offered ≡ answer_to self.old position.0) }
        ensures after { OnOk result (self.new ≡ after_offer self.old position.0 entry) }
        ensures memory { OnErr result (position.0 ≡ next_of self.old) }
        ensures back { IfErr result (λ failed. failed.1 ≡ entry) }
        ensures err { OnErr result (self.new ≡ self.old) }
    {
        let next = self.next();
        if position != next {
            return Ok(Offered::NotNext { next });
        }
        match self.delivered.push(entry) {
            Ok(()) => Ok(Offered::Taken),
            Err(failed) => Err((Memory, failed.value)),
        }
    }
}
