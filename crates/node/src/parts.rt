// A node but for its two schedules. Every rule of Algorithm 1 is a step of a core: a node by value, an area and a site's storage run it
// alike.
ghost use Rattle.std.specs.Prelude.{◌≡◌};
ghost use Rattle.node.specs.Steps.{wanted_node};
ghost use Rattle.node.specs.Core.{bare, core_of};
ghost use Rattle.node.specs.Inner.{core_request};

use crate::Core;

impl Core {
    // The request once the version is v.
    pub(crate) fn request_at(self, v: u32) -> u8
        ensures { result ≡ core_request self v }
    {
        if self.version == v {
            self.request
        } else {
            self.demand
        }
    }

    // Another demand, where it was not refused. The request stays.
    #[tactic(auto, unfolding(crate::specs::Steps::wanted_node))]
    pub fn want(mut self, demand: u8) -> Core
        ensures { result ≡ core_of (wanted_node (bare self) demand) }
    {
        self.demand = demand;
        self
    }
}
