// Algorithm 1, lines 39 to 41: distribution.
ghost use Rattle.std.specs.Prelude.{◌≡◌};
ghost use Rattle.node.specs.Core.{core_taken, take_move_by};

use crate::{Core, CoreStep, Move};

// A determined schedule is dropped where the version changes.
fn take_move(same: bool) -> Move
    ensures { result ≡ take_move_by same }
{
    if same { Move::Keep } else { Move::Drop }
}

impl Core {
    // Lines 39 to 41, and the specification's own rule on `updated` (3.3): the sender's schedule is held in place of the own one, and then
    // the schedules are moved.
    #[tactic(auto, unfolding(crate::specs::Core::core_taken, crate::specs::Distribution::taken_node, crate::specs::Distribution::taken_epoch))]
    pub fn take(mut self, v: u32) -> CoreStep
        ensures { result ≡ core_taken self v }
    {
        let same = self.version == v;
        self.request = self.request_at(v);
        self.version = v;
        self.interactions = words::all(self.setup.config.nodes);
        self.updated &= same;
        CoreStep {
            core: self,
            change: take_move(same),
        }
    }
}
