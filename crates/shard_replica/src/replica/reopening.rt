//! Reading the lists anew.

ghost use Rattle.std.specs.Prelude.{◌≡◌, ℕ, length, map, Some, IsSome, OnOk, OnErr};
ghost use Rattle.std.specs.List.{All};
ghost use Rattle.shard_replica.specs.Lists.{HoldsRecords, ReloadsAll, segments_of, media_of, segment_at, medium_at, but_turns, turns_after, answer_of, segments_after};
ghost use Rattle.shard_replica.specs.Replica.{state_after};
ghost use Rattle.shard_replica.specs.Telling.{AreTold};

use super::ShardReplica;
use crate::lists::LastReload;
use cut_chain::Places;
use disk_base::Plan;
use segment_journal::{Installed, Journal, OpenFault};

impl<J: Journal, P: Places> ShardReplica<J, P> {
    /// Reads the lists anew, in order of segment, and ends at the first fault. What was read stands
    /// beside the lists until it is installed.
    pub fn reload(&mut self) -> Result<(), OpenFault>
        ensures state { self.new.state ≡ self.old.state }
        ensures media { ReloadsAll result self.old.media self.new.media }
        ensures count { length self.old.media ≡ self.old.state.config.replicas }
        ensures counted { length self.new.media ≡ self.new.state.config.replicas }
        ensures flight { OnOk result ((k : ℕ) → (medium_at self.new.media k).reloaded ≡ Some Installed.OneMore
            → IsSome (segment_at self.new.state.segments k).flight) }
        ensures ok { OnOk result (self.new.last_reload ≡ Some LastReload.Read) }
        ensures err { OnErr result (self.new.last_reload ≡ Some LastReload.Failed) }
    {
        self.lists.reload()
    }

    /// Puts what was read in place of the lists, and sets all else as at first. Where the last reload
    /// failed, nothing changes.
    pub fn install(&mut self) -> Installed
        requires { IsSome self.old.last_reload }
        ensures answer { result ≡ answer_of self.old.last_reload self.old.media }
        ensures state { self.new.state ≡ state_after self.old.last_reload self.old.state self.old.media }
        ensures failed { result ≡ Installed.Failed → self.new ≡ self.old }
        ensures faults { map (λ m. m.faults) self.new.media ≡ map (λ m. m.faults) self.old.media }
        ensures keeps { map (λ m. m.keeps_synced) self.new.media ≡ map (λ m. m.keeps_synced) self.old.media }
    {
        let answer = self.lists.install();
        if answer == Installed::Failed {
            return answer;
        }
        self.chain.clear();
        self.copying.reset();
        answer
    }

    /// Hands the plan to each journal.
    pub fn plan(&mut self, plan: Plan)
        ensures state { self.new.state ≡ self.old.state }
        ensures media { map but_turns self.new.media ≡ map but_turns self.old.media }
        ensures turns { (k : ℕ) → (medium_at self.new.media k).turns
            ≡ turns_after (segment_at self.old.state.segments k) plan (medium_at self.old.media k) }
        ensures reading { self.new.last_reload ≡ self.old.last_reload }
    {
        self.lists.plan(plan);
    }

    /// What is told of the journals is what they tell, one for each segment. It does nothing.
    pub fn tell(&self)
        ensures { AreTold J.state J.faults J.keeps_synced J.turns self.now.state.config.replicas self.now.media }
    {
        self.lists.tell();
    }

    /// Gives the journals back.
    pub fn into_journals(self) -> Vec<J>
        ensures segments { segments_of J.state result.items ≡ self.state.segments }
        ensures media { media_of J.state J.faults J.keeps_synced J.turns result.items ≡ self.media }
        ensures records { All (λ j. HoldsRecords (J.state j)) result.items }
    {
        let ShardReplica {
            config: _,
            shard: _,
            own: _,
            lists,
            chain: _,
            copying: _,
            spelling: _,
        } = self;
        lists.into_journals()
    }
}
