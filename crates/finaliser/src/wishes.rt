//! The list of wishes.

ghost use Rattle.std.specs.Prelude.{◌≡◌, ◌↔◌, ◌+◌, ◌<◌, ◌≤◌, [], IsTrue, OnOk, OnErr};
ghost use Rattle.paxos_model.specs.Learner.{is_left, left_wishes};
ghost use Rattle.finaliser.specs.Wishing.{IsWishable, requested_of, after_request, first_value};

use log_base::{Memory, Slot};
use record_frame::Value;
use std::alloc::Global;
use std::marker::Model;

/// What becomes of a value that is wished for.
#[derive(Clone, Copy, Debug, PartialEq, Eq)]
pub enum Requested {
    /// It waits for its decision in a slot from this one on.
    Taken { from: u32 },
    /// It finalises a shard that was not added.
    NoSuchShard,
}

/// A value that is to be decided, in a slot from one on.
#[derive(Debug, Drop)]
struct Wish {
    value: Value,
    from: u32,
}

impl Model for Wish {
    ghost use Rattle.paxos_model.specs.Learner.{Wish as Wished};

    ghost Value = { Wished };

    ghost view = { λ w. record { value = w.value; from = w.from } };
}

impl Wish {
    // Whether the decision of a slot leaves it open.
    fn is_left(&self, slot: Slot, value: &Value) -> bool
        ensures { result ≡ is_left slot.0 value.now self.now }
    {
        !(is_same(&self.value, value) && self.from <= slot.0)
    }
}

// Whether two values are the same.
fn is_same(value: &Value, other: &Value) -> bool
    ensures { IsTrue result ↔ (value.now ≡ other.now) }
{
    *value == *other
}

/// The values that wait for their decision, the oldest first.
#[derive(Debug, Drop)]
pub struct Wishes {
    wishes: Vec<Wish>,
}

impl Model for Wishes {
    ghost use Rattle.std.specs.Prelude.{◌-◌, vec_len, vec_capacity};
    ghost use Rattle.finaliser.specs.Wishing.{Wishing};

    ghost Value = { Wishing };

    ghost view = { λ w. record { wishes = w.wishes.items; room = vec_capacity w.wishes - vec_len w.wishes } };
}

impl Wishes {
    /// No value waits, and there is no room. It keeps the allocator.
    pub fn new(alloc: Global) -> Wishes
        ensures { result.wishes ≡ [] }
    {
        Wishes {
            wishes: Vec::new(alloc),
        }
    }

    /// Makes room for one wish.
    pub fn ready(&mut self) -> Result<(), Memory>
        ensures wishes { self.new.wishes ≡ self.old.wishes }
        ensures room { OnOk result (0 < self.new.room) }
        ensures err { OnErr result (self.new ≡ self.old) }
    {
        self.wishes.reserve(1)?;
        Ok(())
    }

    /// Takes a wish, where it is no finalisation of a shard that is not added. So many values are known: it
    /// is open from the next slot on. It takes no memory.
    pub fn request(&mut self, value: &Value, added: bool, known: u32) -> Requested
        requires wishable { IsWishable value.now }
        requires room { 0 < self.old.room }
        ensures answer { result ≡ requested_of value.now added known }
        ensures wishes { self.new.wishes ≡ after_request self.old.wishes value.now added known }
        ensures room { self.old.room ≤ self.new.room + 1 }
    {
        if let Value::Finalise(_) = value {
            if !added {
                return Requested::NoSuchShard;
            }
        }
        let _ = self.wishes.push(Wish {
            value: *value,
            from: known,
        });
        Requested::Taken { from: known }
    }

    /// Drops each wish that the decision of a slot fulfils: it is of that value, and open from that slot on
    /// or from an earlier one.
    #[tactic(auto, unfolding(paxos_model::specs::Learner::left_wishes))]
    pub fn seen(&mut self, slot: Slot, value: &Value)
        ensures wishes { self.new.wishes ≡ left_wishes self.old.wishes slot.0 value.now }
        ensures room { self.old.room ≤ self.new.room }
    {
        self.wishes.retain(|wish| wish.is_left(slot, value));
    }

    /// The value of the oldest wish.
    pub fn first(&self) -> Option<Value>
        ensures { result ≡ first_value self.now.wishes }
    {
        self.wishes.first().map(|wish| wish.value)
    }

    /// Drops all wishes.
    pub fn clear(&mut self)
        ensures wishes { self.new.wishes ≡ [] }
        ensures room { self.old.room ≤ self.new.room }
    {
        self.wishes.clear();
    }
}
