// The demand that a box asks for as an epoch begins, looked up in a lent list of windows.
ghost use Rattle.std.specs.Prelude.{◌≡◌};
ghost use Rattle.host.specs.lookup.Lookup.{nodes_ok, demand_answer, demand_after};

use node::{Answer, Core, Refusal};
use windows::Window;

// N is 1 to 32.
fn nodes_ok(nodes: u32) -> bool
    ensures { result ≡ nodes_ok nodes }
{
    (1 <= nodes) & (nodes <= Core::NODES)
}

// The demand of a node as an epoch begins, with the windows lent, is written to `demand`, which stays as it was where the node has no
// windows and after a refusal.
pub fn hydra_demand(
    nodes: u32,
    node: u32,
    day: u32,
    windows: &[Window],
    epoch: u32,
    demand: &mut u32,
) -> Answer
    ensures { (result ≡ demand_answer nodes node day windows.now epoch)
        × (demand.new ≡ demand_after nodes node day windows.now epoch demand.old) }
{
    if !nodes_ok(nodes) {
        return Err(Refusal::OutOfRange);
    }
    if !((1 <= node) & (node <= nodes)) {
        return Err(Refusal::NoSuchNode);
    }
    let due = windows::look(windows, nodes, day, node, epoch, *demand).ok_or(Refusal::BadWindows)?;
    if day <= epoch {
        return Err(Refusal::OutOfRange);
    }
    *demand = due;
    Ok(())
}
