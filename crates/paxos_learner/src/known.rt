//! The known values.

ghost use Rattle.std.specs.Prelude.{◌≡◌, ◌≢◌, ◌+◌, ◌<◌, ◌≤◌, [], length, take, drop, slice_get, ◌↔◌, Some, IsTrue, OnOk, OnErr};
ghost use Rattle.std.specs.Option.{option_map};
ghost use Rattle.paxos_model.specs.Learner.{find_value, learn};
ghost use Rattle.paxos_learner.specs.Learning.{learned_of, to_slot};

use log_base::{Memory, Slot};
use record_frame::Value;
use std::alloc::Global;
use std::marker::Model;

// The most values that are given at once.
const GIVEN: usize = 16;

/// What becomes of a slot's value that is learned.
#[derive(Clone, Copy, Debug, PartialEq, Eq)]
pub enum Learned {
    /// It is known from now on.
    Added,
    /// The slot's value was known before.
    Have,
    /// The value of a slot before it is not known yet: the next to learn is told. It is dropped.
    Gap { next: Slot },
}

/// The decided values of the slots from 0 on, with none left out.
#[derive(Debug, Drop)]
pub struct Known {
    values: Vec<Value>,
}

impl Model for Known {
    ghost use Rattle.std.specs.Prelude.{◌-◌, ◌≤◌, length, vec_len, vec_capacity};
    ghost use Rattle.paxos_learner.specs.Learning.{Learning};

    ghost Value = { Learning };

    ghost view = { λ k. record { known = k.values.items; room = vec_capacity k.values - vec_len k.values } };

    ghost invariant = { λ k. length k.values.items ≤ 16384 };
}

impl Known {
    /// No value is known yet, and there is no room. It keeps the allocator.
    pub fn new(alloc: Global) -> Known
        ensures { result.known ≡ [] }
    {
        Known {
            values: Vec::new(alloc),
        }
    }

    /// Makes room for one value.
    pub fn ready(&mut self) -> Result<(), Memory>
        ensures known { self.new.known ≡ self.old.known }
        ensures room { OnOk result (0 < self.new.room) }
        ensures err { OnErr result (self.new ≡ self.old) }
    {
        self.values.reserve(1)?;
        Ok(())
    }

    /// Learns the value of a slot, where it is the next. It takes no memory.
    #[tactic(auto, unfolding(paxos_model::specs::Learner::learn))]
    pub fn learn(&mut self, slot: Slot, value: &Value) -> Learned
        requires slot { slot.0 ≤ 16383 }
        requires room { 0 < self.old.room }
        ensures answer { result ≡ learned_of (length self.old.known) slot.0 }
        ensures known { self.new.known ≡ learn self.old.known slot.0 value.now }
        ensures room { self.old.room ≤ self.new.room + 1 }
        ensures refused { slot.0 ≢ length self.old.known → self.new ≡ self.old }
    {
        let next = self.len();
        if slot.0 < next {
            return Learned::Have;
        }
        if slot.0 > next {
            return Learned::Gap { next: Slot(next) };
        }
        let _ = self.values.push(*value);
        Learned::Added
    }

    /// How many values are known.
    pub fn len(&self) -> u32
        ensures count { result ≡ length self.now.known }
        ensures most { result ≤ 16384 }
    {
        self.values.len() as u32
    }

    /// The known values from a slot on, the first 16 where there are more.
    pub fn give(&self, from: Slot) -> &[Value]
        ensures { result.now ≡ take 16 (drop from.0 self.now.known) }
    {
        let start = self.values.len().min(from.0 as usize);
        let rest = &self.values[start..];
        &rest[..rest.len().min(GIVEN)]
    }

    /// The least slot from one on that holds the value.
    pub fn find(&self, value: &Value, from: Slot) -> Option<Slot>
        ensures { result ≡ option_map to_slot (find_value self.now.known value.now from.0) }
    {
        for at in from.0..self.len() {
            if self.holds(at, value) {
                return Some(Slot(at));
            }
        }
        None
    }

    // Whether the value of a slot is known, and is the given one.
    fn holds(&self, at: u32, value: &Value) -> bool
        ensures { IsTrue result ↔ (slice_get self.now.known at ≡ Some value.now) }
    {
        match self.values.get(at as usize) {
            Some(known) => return is_same(known, value),
            None => return false,
        }
    }

    /// Forgets all values.
    pub fn clear(&mut self)
        ensures known { self.new.known ≡ [] }
        ensures room { self.old.room ≤ self.new.room }
    {
        self.values.clear();
    }
}

// Whether two values are the same.
fn is_same(value: &Value, other: &Value) -> bool
    ensures { IsTrue result ↔ (value.now ≡ other.now) }
{
    *value == *other
}
