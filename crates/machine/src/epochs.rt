// The tally of a site in storage: where an epoch begins, the slots are counted that each live node holds by its own schedule.
ghost use Rattle.std.specs.Prelude.{◌≡◌};
ghost use Rattle.machine.specs.Layout.{store, site_in};
ghost use Rattle.lists.specs.All.{tab};
ghost use Rattle.tally.specs.Claims.{held_by};
ghost use Rattle.tally.specs.Ends.{schedules_of, tally_at};

use crate::layout::Lent;
use tally::Tally;

// How many slots each node holds by its own schedule, with which an epoch begins.
fn slots_held(m: Lent) -> [u8; 32]
    ensures { result ≡ tab 32 (held_by (schedules_of (site_in (store m.entry.words.now m.entry.bytes.now)))) }
{
    std::array::from_fn(|i| crate::look::slots_held(m.words, m.bytes, i as u32 + 1))
}

// The tally as a round begins: the first round of an epoch is counted.
pub(crate) fn tally_at(m: Lent, t: Tally) -> Tally
    ensures { result ≡ tally_at (site_in (store m.entry.words.now m.entry.bytes.now)) t }
{
    let k = m.header();
    if k.place == 0 {
        return t.counted(slots_held(m));
    }
    t
}
