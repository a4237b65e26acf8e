//! What a node tells of itself.

ghost use Rattle.std.specs.Prelude.{◌≡◌};
ghost use Rattle.core_step.specs.Known.{is_down as is_down_in, known_chain, known_count};
ghost use Rattle.core_step.specs.Standing.{state_of};

use crate::node::Node;
use cut_chain::Places;
use log_base::Position;
use segment_journal::Journal;

impl<J: Journal, P: Places> Node<J, P> {
    /// Whether it is down.
    pub fn is_down(&self) -> bool
        ensures { result ≡ is_down_in (state_of J.state self.now.part) }
    {
        self.part.is_down()
    }

    /// How many values it knows. A gatherer knows none.
    pub fn known(&self) -> u32
        ensures { result ≡ known_count (state_of J.state self.now.part) }
    {
        self.part.known()
    }

    /// The end of the log by its known values.
    pub fn end(&self) -> Position
        ensures { result.0 ≡ (known_chain self.now.config (state_of J.state self.now.part)).end }
    {
        self.part.end()
    }

    /// The mark below which positions are given up, by its known values.
    pub fn trim(&self) -> Position
        ensures { result.0 ≡ (known_chain self.now.config (state_of J.state self.now.part)).mark }
    {
        self.part.trim()
    }
}
