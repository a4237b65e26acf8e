//! What a replica's peers acknowledged.

ghost use Rattle.std.specs.Prelude.{◌≡◌, ◌≢◌, ◌<◌, ◌≤◌, length, slice_index};
ghost use Rattle.log_base.specs.Shape.{shape};
ghost use Rattle.peer_copy.specs.Copying.{after_note, fresh, span_of_note, window_at};

use crate::Span;
use log_base::{Config, Replica};
use std::marker::Model;

/// How many entries past the acknowledged ones are on their way to a peer at once.
const WINDOW: u32 = 4;

/// How much of its own list each peer of a replica acknowledged.
#[derive(Debug, Drop)]
pub struct CopyState {
    own: Replica,
    replicas: u8,
    acked: [u32; 5],
}

impl Model for CopyState {
    ghost use Rattle.std.specs.Prelude.{take};
    ghost use Rattle.peer_copy.specs.Copying.{Copying, IsCopying};

    ghost Value = { Copying };

    ghost view = { λ s. record { own = s.own.0; acked = take s.replicas s.acked } };

    ghost invariant = { λ s. IsCopying s.replicas s.acked };
}

impl CopyState {
    /// At first no peer acknowledged anything.
    pub fn new(config: &Config, own: Replica) -> CopyState
        requires { own.0 < (shape config.now).replicas }
        ensures { result ≡ fresh (shape config.now).replicas own.0 }
    {
        CopyState {
            own,
            replicas: config.replicas(),
            acked: [0; 5],
        }
    }

    /// How many entries a peer acknowledged.
    pub fn acked(&self, peer: Replica) -> u32
        requires peer { peer.0 < length self.now.acked }
        requires other { peer.0 ≢ self.now.own }
        ensures acked { result ≡ slice_index self.now.acked peer.0 }
        ensures small { result ≤ 16384 }
    {
        prove!(peer.0 != self.own.0);
        self.acked[usize::from(peer.0)]
    }

    /// What is on its way to a peer, of an own list of so many entries.
    pub fn window(&self, peer: Replica, len: u32) -> Span
        requires peer { peer.0 < length self.now.acked }
        requires other { peer.0 ≢ self.now.own }
        requires len { len ≤ 16384 }
        ensures { result ≡ window_at (slice_index self.now.acked peer.0) len }
    {
        let acked = self.acked(peer);
        Span {
            from: acked,
            to: (acked + WINDOW).min(len),
        }
    }

    /// A peer says how many entries it holds, of an own list of so many. Where this is more than it
    /// acknowledged, it is acknowledged, and what is to be sent now is told.
    pub fn note(&mut self, peer: Replica, held: u32, len: u32) -> Span
        requires peer { peer.0 < length self.old.acked }
        requires other { peer.0 ≢ self.old.own }
        requires held { held ≤ len }
        requires len { len ≤ 16384 }
        ensures span { result ≡ span_of_note (slice_index self.old.acked peer.0) held len }
        ensures after { self.new ≡ after_note self.old peer.0 held }
    {
        let acked = self.acked(peer);
        if held <= acked {
            return Span {
                from: acked,
                to: acked,
            };
        }
        self.acked[usize::from(peer.0)] = held;
        Span {
            from: (acked + WINDOW).max(held),
            to: (held + WINDOW).min(len),
        }
    }

    /// Forgets what the peers acknowledged.
    pub fn reset(&mut self)
        ensures { self.new ≡ fresh (length self.old.acked) self.old.own }
    {
        self.acked = [0; 5];
    }
}
