//! What goes wrong, as a line tells it.

use log_base::NodeId;

/// One line of faults. A letter is the number of a waiting message in the queue, counted from 0. Letters
/// and what a plan counts are at most 1,000,000.
#[derive(Clone, Copy, Debug, PartialEq, Eq)]
pub enum Fault {
    /// `hold`: from now on nothing settles by itself.
    Hold,
    /// `settle`: ends the hold and settles.
    Settle,
    /// `tick n`: a tick of a node.
    Tick { node: NodeId },
    /// `deliver k`: delivers a letter and takes it out of the queue.
    Deliver { letter: u32 },
    /// `drop k`: takes a letter out of the queue undelivered.
    Drop { letter: u32 },
    /// `again k`: delivers a letter and leaves it in the queue.
    Again { letter: u32 },
    /// `stop n`: stops a node.
    Stop { node: NodeId },
    /// `stop n after w keep b`: each disk of the node stops after some writes, and keeps some bytes of the
    /// next one.
    StopAfter { node: NodeId, after: u32, keep: u32 },
    /// `lose n after w`: each disk of the node stops after some writes, and loses what was not synced.
    Lose { node: NodeId, after: u32 },
    /// `restart n`: starts a node again.
    Restart { node: NodeId },
    /// `lead p`: an orderer tries to lead.
    Lead { orderer: u8 },
    /// `resubmit`: sends a lane's last append again.
    Resubmit,
}

/// The text is no line.
#[derive(Clone, Copy, Debug, PartialEq, Eq)]
pub struct FaultLine {
    /// The length of the longest front of the text that begins some line.
    pub at: usize,
}
