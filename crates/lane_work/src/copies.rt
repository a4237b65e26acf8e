//! Copies of calls.

ghost use Rattle.std.specs.Prelude.{◌≡◌, IfOk};

use history_frame::Call;
use log_base::{Bytes, Memory};
use std::alloc::Global;

/// A copy of a call.
pub(crate) fn copy_call(alloc: Global, call: &Call) -> Result<Call, Memory>
    ensures { IfOk result (λ copy. copy ≡ call.now) }
{
    let copy = match call {
        Call::Submit {
            client,
            number,
            bytes,
        } => Call::Submit {
            client: *client,
            number: *number,
            bytes: Bytes::of(Vec::from_slice(alloc, bytes.get())?),
        },
        Call::Ask { client, number } => Call::Ask {
            client: *client,
            number: *number,
        },
        Call::Read { client, position } => Call::Read {
            client: *client,
            position: *position,
        },
        Call::Request { client, value } => Call::Request {
            client: *client,
            value: *value,
        },
        Call::Settled {
            client,
            value,
            from,
        } => Call::Settled {
            client: *client,
            value: *value,
            from: *from,
        },
    };
    Ok(copy)
}
