//! Who has answered.

ghost use Rattle.std.specs.Prelude.{◌≡◌, ◌≤◌};
ghost use Rattle.paxos_model.specs.Majority.{count_marks, marked, most, no_marks};

/// A mark for each of up to seven orderers.
#[derive(Clone, Copy, Debug)]
pub struct Marks(pub [bool; 7]);

impl Marks {
    /// None is marked.
    #[tactic(auto, unfolding(paxos_model::specs::Majority::no_marks))]
    pub fn none() -> Marks
        ensures { result.0 ≡ no_marks }
    {
        Marks([false; 7])
    }

    /// Marks an orderer. There is no eighth to mark.
    pub fn mark(&mut self, who: u8)
        ensures { self.new.0 ≡ marked self.old.0 who }
    {
        let who = usize::from(who);
        if who < self.0.len() {
            self.0[who] = true;
        }
    }

    /// How many of the first so many are marked.
    pub fn count(&self, orderers: u8) -> u8
        requires { orderers ≤ 7 }
        ensures { result ≡ count_marks orderers self.now.0 }
    {
        let mut count = 0;
        for orderer in 0..orderers {
            if self.0[usize::from(orderer)] {
                count += 1;
            }
        }
        count
    }

    /// Whether more than half of the first so many are marked.
    #[tactic(auto, unfolding(paxos_model::specs::Majority::is_majority))]
    pub fn are_most(&self, orderers: u8) -> bool
        requires { orderers ≤ 7 }
        ensures { result ≡ most orderers self.now.0 }
    {
        self.count(orderers) > orderers / 2
    }
}
