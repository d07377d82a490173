// A site by the numbers of its nodes: what it holds of each, and what is put there.
ghost use Rattle.std.specs.Prelude.{◌≡◌, not, ◌&&◌};
ghost use Rattle.node.specs.Core.{bare, core_of};
ghost use Rattle.node.specs.Figures.{is_waiting};
ghost use Rattle.site.specs.Members.{node_index, is_live, state_of};
ghost use Rattle.machine.specs.Layout.{store, up_in, phase_in};
ghost use Rattle.machine.specs.Written.{member_put};
ghost use Rattle.machine.specs.Loading.{no_header, header_read, member_read, slots_read, node_owners_written};

use crate::acts::no_node;
use crate::layout::{Lent, NODE_BYTES, SCHEDULE};
use crate::read::{is_short, is_up, own_slots, phase_at};
use crate::write::put_free;
use node::{Config, Core, Phase, Setup};
use site::{SiteHeader, State};

// What storage that is too short stands for.
fn no_header() -> SiteHeader
    ensures { result ≡ no_header }
{
    SiteHeader {
        config: Config::none(),
        negotiates: true,
        place: 0,
        sent: [0u8; 32],
    }
}

// What the site holds beside its members.
#[tactic(auto, unfolding(crate::specs::Loading::header_read))]
pub fn header(words: &[u32], bytes: &[u8]) -> SiteHeader
    ensures { result ≡ header_read (store words.now bytes.now) }
{
    if is_short(words, bytes) {
        return no_header();
    }
    Lent { words, bytes }.header()
}

// The core of node j. A number of none of the N nodes has a member that is down, here and in the next four.
pub fn core(words: &[u32], bytes: &[u8], j: u32) -> Core
    ensures { result ≡ core_of (member_read (store words.now bytes.now) j).node }
{
    if is_short(words, bytes) {
        let setup = Setup {
            node: j,
            config: Config::none(),
        };
        return Core::restart(setup, 0, 0);
    }
    let k = Lent { words, bytes }.header();
    if k.outside(j) {
        let f = k.config;
        let setup = Setup { node: j, config: f };
        return Core::restart(setup, 0, 0);
    }
    Lent { words, bytes }.core(site::node_index(j))
}

// Whether it is live.
pub fn is_live(words: &[u32], bytes: &[u8], j: u32) -> bool
    ensures { result ≡ is_live (member_read (store words.now bytes.now) j) }
{
    if no_node(words, bytes, j) {
        return false;
    }
    live(bytes, j)
}

// How many slots it holds by its own schedule; none where it isn't live.
pub fn slots_held(words: &[u32], bytes: &[u8], j: u32) -> u8
    ensures { result ≡ slots_read (store words.now bytes.now) j }
{
    if !is_live(words, bytes, j) {
        return 0;
    }
    let i = site::node_index(j);
    own_slots(bytes, NODE_BYTES * i + SCHEDULE, i)
}

// The owners of its own schedule's slots, from the masks to a place of an output; of a number of none of the N nodes nothing is written.
pub fn tell_owners(words: &[u32], bytes: &[u8], j: u32, out: &mut [u8], to: usize)
    ensures { out.new ≡ node_owners_written (store words.now bytes.now) j out.old to }
{
    if no_node(words, bytes, j) {
        return;
    }
    masks::tell(
        bytes,
        NODE_BYTES * site::node_index(j) + SCHEDULE,
        32,
        out,
        to,
    );
}

// What the listing says of it.
pub fn state(words: &[u32], bytes: &[u8], j: u32) -> State
    ensures { result ≡ state_of (member_read (store words.now bytes.now) j) }
{
    if no_node(words, bytes, j) {
        return State::Down;
    }
    if live(bytes, j) {
        return State::Live;
    }
    if up(bytes, j) {
        return State::Waiting;
    }
    State::Down
}

// Whether node j is up; the first stands in for a number of none, here and in the next two.
pub fn up(bytes: &[u8], j: u32) -> bool
    ensures { result ≡ up_in bytes.now (node_index j) }
{
    is_up(bytes, site::node_index(j))
}

// Its phase.
pub fn phase(bytes: &[u8], j: u32) -> Phase
    ensures { result ≡ phase_in bytes.now (node_index j) }
{
    phase_at(bytes, site::node_index(j))
}

// Whether it is up and doesn't wait.
pub fn live(bytes: &[u8], j: u32) -> bool
    ensures { result ≡ (up_in bytes.now (node_index j) && not (is_waiting (phase_in bytes.now (node_index j)))) }
{
    crate::read::is_live(bytes, site::node_index(j))
}

// Node j has this core from now on, and all slots free; a number of none of the N nodes writes nothing.
pub fn set_free(words: &mut [u32], bytes: &mut [u8], j: u32, up: bool, c: Core)
    ensures words_after { words.new
        ≡ (member_put (store words.old bytes.old) j (record { up = up; node = bare c })).words }
    ensures bytes_after { bytes.new
        ≡ (member_put (store words.old bytes.old) j (record { up = up; node = bare c })).bytes }
{
    if is_short(words, bytes) {
        return;
    }
    let k = Lent { words, bytes }.header();
    if k.outside(j) {
        return;
    }
    put_free(words, bytes, site::node_index(j), up, c);
}
