//! How a run of a cluster ends.

use core_step::Node;
use cut_chain::Places;
use history_frame::History;
use log_base::List;
use quiet_run::DriveStop;
use reply_frame::Reply;
use segment_journal::Journal;

/// A run to its end: its history, a reply to each item, and the nodes as they stand after it.
#[derive(Drop)]
pub struct Served<J: Journal + Drop, P: Places> {
    pub history: History,
    pub replies: List<Reply>,
    pub nodes: Vec<Node<J, P>>,
}

/// Why a run did not come to its end, with the nodes as its events left them. Where the cluster could not be
/// closed for want of memory the nodes are gone.
#[derive(Drop)]
pub struct ServeStop<J: Journal + Drop, P: Places> {
    pub stop: DriveStop,
    pub nodes: Option<Vec<Node<J, P>>>,
}
