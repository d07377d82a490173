// The demand that a box asks for, looked up in a lent list of windows (include/hydra.h).
ghost use Rattle.std.specs.Prelude.{◌≡◌};
ghost use Rattle.node.specs.Answers.{number};
ghost use Rattle.host.specs.lookup.Lookup.{demand_answer, demand_after};

use windows::Window;

// The demand of a node as an epoch begins, with the windows lent, is written to `demand`, which stays as
// it was where the node has no windows and after a refusal.
#[unsafe(no_mangle)]
pub extern "C" fn hydra_demand(
    nodes: u32,
    node: u32,
    day: u32,
    windows: &[Window],
    epoch: u32,
    demand: &mut u32,
) -> u32
    ensures { (result ≡ number (demand_answer nodes node day windows.now epoch))
        × (demand.new ≡ demand_after nodes node day windows.now epoch demand.old) }
{
    node::code(host::lookup::hydra_demand(nodes, node, day, windows, epoch, demand))
}
