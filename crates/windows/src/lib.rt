// Demands by the hour: windows of a day, lent as a list.
#![tactic(auto)]

ghost use Rattle.std.specs.Prelude.{◌≡◌, ◌<◌, length, not};
ghost use Rattle.std.specs.List.{list_all};
ghost use Rattle.lists.specs.All.{all_below};
ghost use Rattle.windows.specs.Windows.{window_at, day_ok, window_ok, holds_at, is_due, overlap, entry_ok, list_ok, due_at, due_all};
ghost use Rattle.windows.specs.Windows.{looked_of};
ghost use Rattle.windows.specs.Inner.{follows, ordered_at, demand_entry, entry_due};

// What a node wants from an epoch of the day up to the one before `end`. The fields lie as C has them.
#[repr(C)]
#[derive(Clone, Copy)]
pub struct Window {
    pub node: u32,
    pub first: u32,
    pub end: u32,
    pub demand: u32,
}

// A day is 1 to 1,440 epochs.
fn day_ok(day: u32) -> bool
    ensures { result ≡ day_ok day }
{
    (1..=1440).contains(&day)
}

impl Window {
    // What stands before the first window of a list.
    const NONE: Window = Window {
        node: 0,
        first: 0,
        end: 0,
        demand: 0,
    };

    // Node 1 to N; first below end, and end at most D; demand within its range.
    fn is_ok(self, nodes: u32, day: u32) -> bool
        ensures { result ≡ window_ok nodes day self }
    {
        let of_site = 1 <= self.node && self.node <= nodes;
        let of_day = self.first < self.end
            && self.end <= day
            && self.demand <= u32::from(allotment::TOP_REQUEST);
        of_site && of_day
    }

    // Two windows of one node that share an epoch.
    fn overlaps(self, w: Window) -> bool
        ensures { result ≡ overlap self w }
    {
        self.node == w.node && self.first < w.end && w.first < self.end
    }

    // Whether it holds in an epoch: at its first, and no longer at its end.
    fn holds_at(self, epoch: u32) -> bool
        ensures { result ≡ holds_at self epoch }
    {
        (self.first..self.end).contains(&epoch)
    }

    // Whether it is one of a node that holds in an epoch.
    fn is_due(self, node: u32, epoch: u32) -> bool
        ensures { result ≡ is_due node epoch self }
    {
        self.node == node && self.holds_at(epoch)
    }

    // Whether it overlaps none of a list.
    fn is_apart(self, ws: &[Window]) -> bool
        ensures { result ≡ list_all (λ v. not (overlap v self)) ws.now }
    {
        ws.iter().all(|v| !v.overlaps(self))
    }

    // Whether it stands behind another one: of a later node, or of the same node and not before the other's end.
    fn follows(self, v: Window) -> bool
        ensures { result ≡ follows v self }
    {
        v.node < self.node || (v.node == self.node && v.end <= self.first)
    }

    // Where its node's number stands in a list of the numbers 0 to 32; that of none of 32 nodes at 0, which stands for no node.
    fn entry(self) -> usize
        ensures value { result ≡ demand_entry self.node }
        ensures upper_bound { result < 33 }
    {
        if self.node <= 32 {
            self.node as usize
        } else {
            0
        }
    }

    // The same where it holds in an epoch, and otherwise 0.
    fn entry_due(self, epoch: u32) -> usize
        ensures value { result ≡ entry_due epoch self }
        ensures upper_bound { result < 33 }
    {
        if self.holds_at(epoch) {
            self.entry()
        } else {
            0
        }
    }
}

// Whether each window keeps the rules by itself and stands behind the one before it. Then no two overlap, which is told in one pass.
fn in_order(ws: &[Window], nodes: u32, day: u32) -> bool
    ensures { result ≡ all_below (length ws.now) (ordered_at nodes day (window_at ws.now)) }
{
    let mut last = Window::NONE;
    for w in ws {
        if !(w.is_ok(nodes, day) && w.follows(last)) {
            return false;
        }
        last = *w;
    }
    true
}

// Whether each window keeps the rules for N nodes and a day, and overlaps none before it. A list in order needs no comparison of all pairs.
fn entries_ok(ws: &[Window], nodes: u32, day: u32) -> bool
    ensures { result ≡ all_below (length ws.now) (entry_ok nodes day ws.now) }
{
    if in_order(ws, nodes, day) {
        return true;
    }
    for (i, w) in ws.iter().enumerate() {
        if !(w.is_ok(nodes, day) && w.is_apart(&ws[..i])) {
            return false;
        }
    }
    true
}

// Whether a list keeps the rules for N nodes and a day. One that is too long is not looked at.
pub fn list_ok(ws: &[Window], nodes: u32, day: u32) -> bool
    ensures { result ≡ list_ok nodes day ws.now }
{
    if ws.len() > 64 {
        return false;
    }
    day_ok(day) && entries_ok(ws, nodes, day)
}

// The demands of 32 nodes as an epoch begins: a node without windows keeps the one it had, here the same for all. In one pass each window
// marks its node and, where it holds, tells what is due. One that doesn't hold writes to entry 0: nothing that was written is read again.
pub fn due_all(ws: &[Window], epoch: u32, demand: u32) -> [u32; 32]
    ensures { result ≡ due_all ws.now epoch demand }
{
    let mut own = [false; 33];
    let mut due = [0; 33];
    for w in ws {
        own[w.entry()] = true;
        due[w.entry_due(epoch)] = w.demand;
    }
    let mut demands = [demand; 32];
    for (i, d) in demands.iter_mut().enumerate() {
        *d = if own[i + 1] { due[i + 1] } else { demand };
    }
    demands
}

// The demand of a node as an epoch begins, where it was d: a node without windows keeps it.
fn due_at(ws: &[Window], node: u32, epoch: u32, d: u32) -> u32
    ensures { result ≡ due_at ws.now node epoch d }
{
    let mut own = false;
    let mut due = 0;
    for w in ws {
        own |= w.node == node;
        if w.is_due(node, epoch) {
            due = w.demand;
        }
    }
    if own { due } else { d }
}

// A lent list, tested and looked up where it lies: for N nodes and a day, and for one node and an epoch. Nothing where it breaks the rules.
pub fn look(ws: &[Window], nodes: u32, day: u32, node: u32, epoch: u32, demand: u32) -> Option<u32>
    ensures { result ≡ looked_of nodes day ws.now node epoch demand }
{
    list_ok(ws, nodes, day).then(|| due_at(ws, node, epoch, demand))
}
