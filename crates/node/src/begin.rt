// How a node begins: at its start, after a restart, and with an epoch.
ghost use Rattle.std.specs.Prelude.{◌≡◌};
ghost use Rattle.allotment.specs.Allotment.{free};
ghost use Rattle.node.specs.Begin.{begun, starting, waiting};
ghost use Rattle.node.specs.Core.{core_of};

use crate::close::no_round;
use crate::negotiation::opening;
use crate::{Core, Phase, Setup};

impl Core {
    // A node as an epoch begins, in the first round's negotiation.
    #[tactic(auto, unfolding(crate::specs::Begin::begun))]
    pub(crate) fn begin(setup: Setup, version: u32, demand: u8, request: u8, flags: u32) -> Core
        ensures { result ≡ core_of (begun setup version free demand request flags) }
    {
        Core {
            setup,
            version,
            demand,
            request,
            phase: Phase::Negotiation,
            flags,
            round: opening(setup.node, version, flags, request),
            counters: [0u8; 32],
            interactions: 0,
            place: 0,
            updated: false,
        }
    }

    // A starting node: the request is the demand, and all slots are free.
    pub fn start(setup: Setup, version: u32, flags: u32, demand: u8) -> Core
        ensures { result ≡ core_of (starting setup version flags demand) }
    {
        Core::begin(setup, version, demand, demand, flags)
    }

    // A restarted node, which waits for the epoch's end at a place.
    #[tactic(auto, unfolding(crate::specs::Begin::waiting))]
    pub fn restart(setup: Setup, flags: u32, place: u32) -> Core
        ensures { result ≡ core_of (waiting setup flags place 0) }
    {
        Core {
            setup,
            version: 0,
            demand: 0,
            request: 0,
            phase: Phase::Waiting,
            flags,
            round: no_round(),
            counters: [0u8; 32],
            interactions: 0,
            place,
            updated: false,
        }
    }
}
