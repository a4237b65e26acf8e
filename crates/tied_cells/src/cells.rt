//! The cells of all nodes, and the passes by which threads go to them.

ghost use Rattle.std.specs.Prelude.{◌≡◌, ◌+◌, ◌*◌, ◌<◌, ◌≤◌, length, true, None};
ghost use Rattle.std.proofs.Props.{props};
ghost use Rattle.tied_cells.specs.Sizes.{sizes_of};

use crate::account::Account;
use crate::board::{Board, Chair};
use log_base::Machine;
use std::alloc::Global;

/// The nodes of a cluster, which threads share by a `&`.
#[derive(Drop)]
pub struct Cells<M: Machine> {
    pub(crate) table: Board<M>,
    pub(crate) nodes: u16,
    pub(crate) alloc: Global,
    ghost sized: { (table.shared.table_id.slots ≡ 17 * nodes) × (table.shared.table_id.words ≡ 17 * nodes + 1) },
    ghost few: { nodes ≤ 43 },
    ghost some_pass: { 0 < table.shared.key.passes },
}

/// A caller's token. It says what its caller did: the events that got places, the words that were tried in
/// vain, and the letters that went in and out.
#[derive(Drop)]
pub struct Pass<M: Machine> {
    pub(crate) seat: Chair<M>,
    pub(crate) account: Account,
    ghost is_alive: { seat.me.0.alive ≡ true },
    ghost is_free: { seat.me.0.boxed ≡ None } by { Prim.hlevel props },
    ghost number_is: { seat.me.0.number ≡ account.number },
    ghost used_is: { length seat.me.0.own ≡ account.used },
    ghost places_are: { seat.me.0.deal.quota ≡ account.places },
    ghost bytes_are: { sizes_of M.meanings seat.me.0.own ≤ account.bytes },
    ghost within: { account.bytes ≤ account.room },
    ghost together: { account.room * seat.me.0.deal.passes ≤ 536870912 },
    ghost nodes_are: { seat.table_id.slots ≡ 17 * length seat.me.0.deal.starts },
}

impl<M: Machine> Pass<M> {
    /// Its number among the passes, from 0.
    pub fn number(&self) -> u16
        ensures { result ≡ self.now.account.number }
    {
        self.account.number
    }

    /// How many places it has used.
    pub fn used(&self) -> u32
        ensures { result ≡ length self.now.seat.me.0.own }
    {
        self.account.used
    }
}
