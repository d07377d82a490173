// A close and an end of all nodes of a site.
ghost use Rattle.std.specs.Prelude.{◌≡◌, Bool, cond, ◌+◌, ◌≤◌, ◌<◌, length};
ghost use Rattle.lists.specs.All.{iter};
ghost use Rattle.node.specs.Figures.{is_last};
ghost use Rattle.node.specs.declared.Move.{Move};
ghost use Rattle.site.specs.Model.{Member};
ghost use Rattle.site.specs.Steps.{close_member, end_member};
ghost use Rattle.machine.specs.Layout.{store, config_at, words_size, bytes_size};
ghost use Rattle.machine.specs.Written.{closes, close_change, ends, end_change, nodes_in, each, store_closed, store_ended};

use crate::layout::{Lent, NODE_BYTES, PLACE, SCHEDULE};
use crate::places;
use crate::read::{is_live, is_short, is_up};
use crate::write::{move_schedules, put_core, put_opened, put_phase};
use node::Config;

// A turn of each node: which ones it is for, what becomes of such a node, and what of its schedules.
trait Turn {
    ghost turns: { Member → Bool };

    ghost step: { Member → Member };

    ghost change: { Member → Move };

    // Kept: lengths in `requires`, as in `turn_each`. In a struct of two `&mut` each clause and the loop need both references' names.
    fn turn(words: &mut [u32], bytes: &mut [u8], i: usize, f: Config)
        requires { (i < 32) × (words_size ≤ length words.old) × (bytes_size ≤ length bytes.old) × (f ≡ config_at words.old) }
        ensures words_after { words.new ≡ (each turns step change i (store words.old bytes.old)).words }
        ensures bytes_after { bytes.new ≡ (each turns step change i (store words.old bytes.old)).bytes };
}

// A close: of a node that is live and not refused.
struct Closing;

impl Turn for Closing {
    ghost turns = { closes };

    ghost step = { close_member };

    ghost change = { close_change };

    fn turn(words: &mut [u32], bytes: &mut [u8], i: usize, f: Config) {
        if !is_live(bytes, i) {
            return;
        }
        let c = Lent { words, bytes }.core_with(i, f);
        if node::negotiation_answer(c.phase).is_err() {
            return;
        }
        let o = c.close();
        let next = o.core;
        let change = o.change;
        put_core(words, bytes, i, next);
        move_schedules(bytes, i, change, c);
    }
}

// An end: for a node that is up and not refused. A node that doesn't wait on opens a round.
struct Ending;

impl Turn for Ending {
    ghost turns = { ends };

    ghost step = { end_member };

    ghost change = { end_change };

    fn turn(words: &mut [u32], bytes: &mut [u8], i: usize, f: Config) {
        if !is_up(bytes, i) {
            return;
        }
        let c = Lent { words, bytes }.core_with(i, f);
        if node::end_answer(c.phase).is_err() {
            return;
        }
        let o = c.end();
        let next = o.core;
        let change = o.change;
        let after = next.phase;
        if node::is_waiting(after) {
            put_core(words, bytes, i, next);
            change.drop_at(bytes, NODE_BYTES * i + SCHEDULE);
            return;
        }
        put_opened(words, bytes, i, next);
        change.drop_at(bytes, NODE_BYTES * i + SCHEDULE);
    }
}

// The turn of each of the N nodes. No node's turn changes the figures, so they are read once for all.
fn turn_each<T: Turn>(words: &mut [u32], bytes: &mut [u8], f: Config)
    requires { (words_size ≤ length words.old) × (bytes_size ≤ length bytes.old) × (f ≡ config_at words.old) }
    ensures words_after { words.new
        ≡ (iter (nodes_in (store words.old bytes.old)) (each T.turns T.step T.change)
        (store words.old bytes.old)).words }
    ensures bytes_after { bytes.new
        ≡ (iter (nodes_in (store words.old bytes.old)) (each T.turns T.step T.change)
        (store words.old bytes.old)).bytes }
{
    let n = places(f.nodes) as usize;
    for i in 0..n {
        T::turn(words, bytes, i, f);
    }
}

// All live nodes close; the packets lapse. Storage that is too short stays as it is.
pub fn close(words: &mut [u32], bytes: &mut [u8])
    ensures words_after { words.new ≡ (store_closed (store words.old bytes.old)).words }
    ensures bytes_after { bytes.new ≡ (store_closed (store words.old bytes.old)).bytes }
{
    if is_short(words, bytes) {
        return;
    }
    let f = Lent { words, bytes }.config();
    turn_each::<Closing>(words, bytes, f);
    put_phase(bytes, false);
}

// The place after this round, 0 where the epoch ends.
fn place_after(f: Config, place: u32) -> u32
    ensures { result ≡ cond (is_last f place) 0 (place + 1) }
{
    if f.is_last(place) {
        return 0;
    }
    place + 1
}

// The round ends for all nodes that are up; the next one starts. Storage that is too short stays as it is.
pub fn end(words: &mut [u32], bytes: &mut [u8])
    ensures words_after { words.new ≡ (store_ended (store words.old bytes.old)).words }
    ensures bytes_after { bytes.new ≡ (store_ended (store words.old bytes.old)).bytes }
{
    if is_short(words, bytes) {
        return;
    }
    let f = Lent { words, bytes }.config();
    let place = place_after(f, words[PLACE]);
    turn_each::<Ending>(words, bytes, f);
    words[PLACE] = place;
    put_phase(bytes, true);
}
