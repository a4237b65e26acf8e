//! Where an item stands.

use history_frame::Call;
use log_base::NodeId;
use reply_frame::Reply;
use schedule_model::Awaited;
use subscriber::Subscriber;

/// A call that is due, and which answer is awaited.
#[derive(Debug, Drop)]
pub struct Due {
    pub node: NodeId,
    pub call: Call,
    pub awaited: Awaited,
}

/// An item that is not done: its call, how often it was asked again, and what its subscription has taken.
#[derive(Debug, Drop)]
pub struct Asking {
    pub due: Due,
    pub again: u16,
    pub taken: Subscriber,
}

/// Where an item stands.
#[derive(Debug, Drop)]
pub enum Stage {
    /// The call is due.
    Asks(Asking),
    /// Nodes are turned, this one next, before the same call is made again.
    Turns { next: NodeId, asking: Asking },
    /// The item is done, with this reply.
    Replied(Reply),
}
