//! What each step on the table tells the pass that makes it.

ghost use Rattle.tied_cells.specs.Plays.{took, placed, fetched, released, claimed, posted, freed};
ghost use Rattle.tied_cells.specs.Views.{split_left, split_right, joined_with, spent_view};

use crate::board::{Stored, View};
use atomic_table::{Join, Play, Split};
use log_base::Machine;
use std::marker::PhantomData;

/// The turn at a node is taken.
pub(crate) struct TakeTurn<M> {
    machine: PhantomData<M>,
}

impl<M: Machine> Play<Stored<M, M::Happened>, View<M::State, M::Happened>> for TakeTurn<M> {
    ghost then = { took M.state M.meanings };
}

/// An event gets its place.
pub(crate) struct Commit<M> {
    machine: PhantomData<M>,
}

impl<M: Machine> Play<Stored<M, M::Happened>, View<M::State, M::Happened>> for Commit<M> {
    ghost then = { placed M.meanings };
}

/// A letter is taken out of its box.
pub(crate) struct Fetch<M> {
    machine: PhantomData<M>,
}

impl<M: Machine> Play<Stored<M, M::Happened>, View<M::State, M::Happened>> for Fetch<M> {
    ghost then = { fetched M.meanings };
}

/// The turn is given back.
pub(crate) struct Release;

impl<A, S, H> Play<Stored<A, H>, View<S, H>> for Release {
    ghost then = { released };
}

/// An empty box is taken in hand.
pub(crate) struct Claim;

impl<A, S, H> Play<Stored<A, H>, View<S, H>> for Claim {
    ghost then = { claimed };
}

/// The box in hand is full.
pub(crate) struct Post;

impl<A, S, H> Play<Stored<A, H>, View<S, H>> for Post {
    ghost then = { posted };
}

/// The box in hand is empty.
pub(crate) struct Free;

impl<A, S, H> Play<Stored<A, H>, View<S, H>> for Free {
    ghost then = { freed };
}

/// One pass is made two, or two one.
pub(crate) struct Share;

impl<S, H> Split<View<S, H>> for Share {
    ghost left = { split_left };

    ghost right = { split_right };
}

impl<S, H> Join<View<S, H>> for Share {
    ghost both = { joined_with };

    ghost spent = { spent_view };
}
