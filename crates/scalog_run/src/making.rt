//! Making an input from a seed.

ghost use Rattle.std.specs.Prelude.{◌≤◌};
ghost use Rattle.log_base.specs.Shape.{shape};
ghost use Rattle.scalog_run.specs.Making.{SendsMade};
ghost use Rattle.scalog_run.specs.Output.{sinking};

use crate::sending::send_bytes;
use crate::status;
use command_frame::make;
use command_words::Options;
use log_base::Sink;
use std::alloc::Global;

/// Makes an input from a seed and sends it: the additions of all shards, and as many items behind them as are
/// counted. Nothing is sent where memory runs out.
pub fn make_items<K: Sink>(
    alloc: Global,
    options: &Options,
    seed: u32,
    count: u32,
    sink: &mut K,
) -> u8
    requires some { 1 ≤ count }
    requires most { count ≤ 60000 }
    ensures { SendsMade (shape options.now.config) seed count (sinking (K.taken sink.old) (K.faults sink.old)) (sinking (K.taken sink.new) (K.faults sink.new)) result }
{
    let mut input = Vec::new(alloc);
    match make(&options.config, seed, count, &mut input) {
        Ok(()) => send_bytes(sink, &input, status::DONE),
        Err(_) => status::OUT_OF_MEMORY,
    }
}
