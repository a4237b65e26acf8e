//! The letters of events.

ghost use Rattle.std.specs.Prelude.{◌≡◌, Some, OnOk, IsTrue, ◌↔◌};
ghost use Rattle.history_walk.specs.Letters.{IsLetterAt};
ghost use Rattle.message_frame.specs.declared.messages.Message.{Message};

use crate::messages::{copy_to, is_message};
use history_frame::Sent;
use log_base::{List, Memory, NodeId};
use message_frame::Message;
use std::alloc::Global;

/// Whether an event's letters are those that its node put out.
pub(crate) fn are_letters(outputs: &[Sent], made: &[Sent]) -> bool
    ensures { IsTrue result ↔ (outputs.now ≡ made.now) }
{
    if outputs.len() != made.len() {
        return false;
    }
    for (i, sent) in outputs.iter().enumerate() {
        if !is_letter(sent, &made[i]) {
            return false;
        }
    }
    true
}

// Whether two letters are the same.
fn is_letter(sent: &Sent, made: &Sent) -> bool
    ensures { IsTrue result ↔ (sent.now ≡ made.now) }
{
    sent.to == made.to && is_message(&sent.message, &made.message)
}

/// Puts the message of the letter to a node that is named by the place of its event and its index there in a
/// place, or none where there is no such letter.
pub(crate) fn letter_to(
    alloc: Global,
    node: NodeId,
    sent: &[List<Sent>],
    place: u32,
    index: u8,
    message: &mut Option<Message>,
) -> Result<(), Memory>
    ensures { OnOk result ((told : Message) → (message.new ≡ Some told) ↔ IsLetterAt sent.now node.0 place index told) }
{
    *message = None;
    let outputs = match sent.get(place as usize) {
        Some(outputs) => outputs,
        None => return Ok(()),
    };
    match outputs.get().get(usize::from(index)) {
        Some(output) if output.to == node => return copy_to(alloc, &output.message, message),
        _ => return Ok(()),
    }
}
