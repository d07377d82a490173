// A site loaded into storage.
ghost use Rattle.std.specs.Prelude.{◌≡◌, true, [], ◌∷◌, min, ◌≤◌, ◌<◌, length};
ghost use Rattle.lists.specs.All.{iter};
ghost use Rattle.lists.specs.Bytes.{written};
ghost use Rattle.node.specs.Core.{bare};
ghost use Rattle.site.specs.Load.{loaded_member};
ghost use Rattle.machine.specs.Inner.{member_of};
ghost use Rattle.machine.specs.Layout.{store, at_config, site_in, words_size, bytes_size};
ghost use Rattle.machine.specs.Loading.{loaded_at, loading_answer, loaded_store, site_loaded};

use crate::layout::NODES;
use crate::places;
use crate::read::is_short;
use crate::write::{put_free, put_phase};
use node::{Answer, Config, Core, Refusal, Setup};
use site::Table;

// The figures and the first place.
// Kept: the length in `requires`, as in `put_nodes`: a struct of two `&mut` needs clauses of both references' names instead.
fn put_config(words: &mut [u32], f: Config)
    requires { words_size ≤ length words.old }
    ensures { words.new
        ≡ written words.old at_config (f.nodes ∷ f.slots ∷ f.rounds ∷ f.min_heard ∷ f.split ∷ 0 ∷ []) }
{
    words[NODES..NODES + 6].copy_from_slice(&[f.nodes, f.slots, f.rounds, f.min_heard, f.split, 0]);
}

// The core of the node at an index as a site is loaded.
fn loaded_core(f: Config, t: Table, i: usize) -> Core
    requires { (i < 32) × (i < f.nodes) }
    ensures { member_of true (bare result) ≡ loaded_member f t i }
{
    let rows = t.rows;
    let row = rows[i];
    let setup = Setup {
        node: i as u32 + 1,
        config: f,
    };
    Core::start(setup, row.version, row.flags, row.want)
}

// The N nodes.
fn put_nodes(words: &mut [u32], bytes: &mut [u8], f: Config, t: Table)
    requires { (words_size ≤ length words.old) × (bytes_size ≤ length bytes.old) }
    ensures words_after { words.new
        ≡ (iter (min f.nodes 32) (loaded_at f t) (store words.old bytes.old)).words }
    ensures bytes_after { bytes.new
        ≡ (iter (min f.nodes 32) (loaded_at f t) (store words.old bytes.old)).bytes }
{
    let n = places(f.nodes) as usize;
    for i in 0..n {
        put_free(words, bytes, i, true, loaded_core(f, t, i));
    }
}

// A site just loaded, whatever the figures and the table. Refused as 15 where words or bytes are too few.
pub fn begin_site(words: &mut [u32], bytes: &mut [u8], f: Config, t: Table) -> Answer
    ensures value { result ≡ loading_answer (store words.old bytes.old) }
    ensures words_after { words.new ≡ (loaded_store (store words.old bytes.old) f t).words }
    ensures bytes_after { bytes.new ≡ (loaded_store (store words.old bytes.old) f t).bytes }
    ensures bytes_after_2 { site_in (store words.new bytes.new)
        ≡ site_loaded (store words.old bytes.old) f t }
{
    if is_short(words, bytes) {
        return Err(Refusal::NoRoom);
    }
    put_config(words, f);
    put_phase(bytes, true);
    put_nodes(words, bytes, f, t);
    Ok(())
}
