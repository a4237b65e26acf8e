//! Posting the letters that an event put out.

ghost use Rattle.std.specs.Prelude.{◌≡◌, ◌<◌, ◌≤◌, length};
ghost use Rattle.cluster.specs.Posting.{AllGoOut, GoesOut, HasOutputs, IsMail, lost_by};
ghost use Rattle.tied_cells.specs.Turns.{IsOwnOutput};

use log_base::{Bytes, Machine, NodeId, Outbox};
use tied_cells::{Cells, Letter, Pass, Posted};

/// What becomes of a letter that is sent.
#[derive(Clone, Copy, Debug, PartialEq, Eq)]
pub enum Sending {
    /// It lies in a box of its addressee.
    Posted,
    /// Its addressee had no room, or is no node of the cluster.
    Lost,
}

impl Sending {
    /// How many letters are lost.
    fn lost(self) -> u8
        ensures lost { result ≡ lost_by self }
        ensures few { result ≤ 1 }
    {
        match self {
            Sending::Posted => 0,
            Sending::Lost => 1,
        }
    }
}

/// Posts an output of an event of the pass.
fn post_one<M: Machine>(
    cells: &Cells<M>,
    nodes: u16,
    pass: &mut Pass<M>,
    to: NodeId,
    letter: Letter,
) -> Sending
    requires table { pass.old.seat.table_id ≡ cells.now.table.shared.table_id }
    requires nodes { nodes ≡ cells.now.nodes }
    requires output { IsOwnOutput M.meanings pass.old.seat.me.0 to.0 letter }
    ensures goes { GoesOut nodes to.0 letter pass.old.seat.me pass.new.seat.me result }
    ensures mail { IsMail pass.old.seat.me pass.new.seat.me }
    ensures same { (pass.new.seat.table_id ≡ pass.old.seat.table_id) × (pass.new.account ≡ pass.old.account) }
{
    if to.0 >= nodes {
        return Sending::Lost;
    }
    match cells.post(pass, to, letter) {
        Posted::Posted => return Sending::Posted,
        Posted::NoRoom(_letter) => return Sending::Lost,
    }
}

/// Posts the letters of an event of the pass, in order. The number is that of the lost ones.
pub fn post_all<M: Machine>(
    cells: &Cells<M>,
    nodes: u16,
    pass: &mut Pass<M>,
    place: u32,
    out: &mut Outbox,
) -> u8
    requires table { pass.old.seat.table_id ≡ cells.now.table.shared.table_id }
    requires nodes { nodes ≡ cells.now.nodes }
    requires outputs { HasOutputs M.meanings pass.old.seat.me.0 place out.old.letters }
    requires few { length out.old.letters ≤ 255 }
    ensures go_out { AllGoOut nodes place 0 out.old.letters pass.old.seat.me pass.new.seat.me result }
    ensures mail { IsMail pass.old.seat.me pass.new.seat.me }
    ensures same { (pass.new.seat.table_id ≡ pass.old.seat.table_id) × (pass.new.account ≡ pass.old.account) }
{
    let mut lost = 0u8;
    let count = out.len();
    for index in 0..count {
        let to = out.to(index);
        let letter = Letter {
            place,
            index: index as u8,
            bytes: Bytes::of(out.take(index)),
        };
        let sending = post_one(cells, nodes, pass, to, letter);
        lost += sending.lost();
    }
    lost
}
