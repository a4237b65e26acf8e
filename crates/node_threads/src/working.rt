//! What lanes and workers do.

ghost use Rattle.std.specs.Prelude.{ℕ, Result};
ghost use Rattle.log_base.specs.declared.outside.Memory.{Memory as NoMemory};

use crate::gates::Gate;
use log_base::Memory;
use std::sync::Wait;

/// What lanes and workers do, each with a token of its own. Threads share it, and it keeps the allocator that
/// its calls use.
pub trait Work: Sync {
    /// What a thread carries.
    type Token: Send + Drop;
    /// What a lane leaves beside its token.
    type Answers: Send + Drop;

    /// The token is one for the lane of this number.
    ghost fits_lane: { Self → ℕ → Self.Token → Type 0 };

    /// The lane of this number may make of the token the next one, and give these answers.
    ghost lane_gives: { Self → ℕ → Self.Token → Self.Token → Self.Answers → Type 0 };

    /// The token is one for a worker.
    ghost fits_worker: { Self → Self.Token → Type 0 };

    /// A worker may make of the token the next one, and answer this. That holds after `Memory` too.
    ghost worker_gives: { Self → Self.Token → Self.Token → Result (Unit {0}) NoMemory → Type 0 };

    /// One client's calls, to their end. It may wait.
    fn lane<R: Wait, G: Gate>(
        &self,
        rt: &R,
        token: &mut Self::Token,
        lane: u8,
        gate: &G,
    ) -> Self::Answers
        requires { fits_lane self.now lane token.old }
        ensures { lane_gives self.now lane token.old token.new result };

    /// What keeps the lanes going. It may wait.
    fn worker<R: Wait>(&self, rt: &R, token: &mut Self::Token) -> Result<(), Memory>
        requires { fits_worker self.now token.old }
        ensures { worker_gives self.now token.old token.new result };
}
