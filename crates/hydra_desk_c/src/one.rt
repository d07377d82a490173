// One site in lent memory (include/hydra-desk.h).
ghost use Rattle.std.specs.Prelude.{◌≡◌};
ghost use Rattle.node.specs.Answers.{number};
ghost use Rattle.machine.specs.Layout.{store};
ghost use Rattle.script.specs.events.Events.{event_at};
ghost use Rattle.sites.specs.one.Memory.{timed_of, kept_of};
ghost use Rattle.sites.specs.one.Calls.{config_from, loading_of, after_load, timed_after_load, tally_after_load};
ghost use Rattle.sites.specs.one.Calls.{site_event_answer, after_event, kept_after_event, report_after_event};
ghost use Rattle.sites.specs.one.Calls.{showing_of, out_node_of};

use tally::Tally;
use windows::Window;

// A site loaded into memory: three words of `rows` for each node, and a day of so many epochs with its windows. The tally is set anew.
#[unsafe(no_mangle)]
pub extern "C" fn hydra_site_load(
    words: &mut [u32],
    bytes: &mut [u8],
    nodes: u32,
    slots: u32,
    rounds: u32,
    heard: u32,
    split: u32,
    rows: &[u32],
    day: u32,
    windows: &[Window],
    tally: &mut Tally,
) -> u32
    ensures { (result ≡ number (loading_of (store words.old bytes.old) (config_from nodes slots rounds heard split)
        rows.now day windows.now))
        × (words.new ≡ (after_load (store words.old bytes.old) (config_from nodes slots rounds heard split)
        rows.now day windows.now).words)
        × (bytes.new ≡ (after_load (store words.old bytes.old) (config_from nodes slots rounds heard split)
        rows.now day windows.now).bytes)
        × (timed_of (store words.new bytes.new)
        ≡ timed_after_load (store words.old bytes.old) (config_from nodes slots rounds heard split) rows.now
        day windows.now)
        × (tally.new ≡ tally_after_load (store words.old bytes.old) (config_from nodes slots rounds heard split)
        rows.now day windows.now tally.old) }
{
    node::code(sites::one::hydra_site_load(
        words, bytes, nodes, slots, rounds, heard, split, rows, day, windows, tally,
    ))
}

// One event: its number, its node, and what stands behind the node in a script. The report of an accepted close goes to the start of
// `reports`.
#[unsafe(no_mangle)]
pub extern "C" fn hydra_site_event(
    words: &mut [u32],
    bytes: &mut [u8],
    area: &mut [u8],
    event: u32,
    node: u32,
    with: u32,
    windows: &[Window],
    tally: &mut Tally,
    reports: &mut [u8],
) -> u32
    ensures { (result ≡ number
        (site_event_answer (store words.old bytes.old) area.old windows.now
        tally.old reports.old (event_at event node with)))
        × (words.new ≡ (after_event (store words.old bytes.old) area.old windows.now
        tally.old reports.old (event_at event node with)).words)
        × (bytes.new ≡ (after_event (store words.old bytes.old) area.old windows.now
        tally.old reports.old (event_at event node with)).bytes)
        × (reports.new ≡ report_after_event (store words.old bytes.old) area.old
        windows.now tally.old reports.old (event_at event node with))
        × (kept_of (store words.new bytes.new) area.new tally.new
        ≡ kept_after_event (store words.old bytes.old) area.old windows.now tally.old
        reports.old (event_at event node with)) }
{
    // The header says that each event reads the tally and writes it back, a refused one too.
    let mut t = *tally;
    let answer = sites::one::hydra_site_event(
        words, bytes, area, event, node, with, windows, &mut t, reports,
    );
    *tally = t;
    node::code(answer)
}

// What a listing shows of node j of a site in memory, in 90 bytes at the start of an output.
#[unsafe(no_mangle)]
pub extern "C" fn hydra_site_node(words: &[u32], bytes: &[u8], j: u32, out: &mut [u8]) -> u32
    ensures value { result ≡ number (showing_of (store words.now bytes.now) j out.old) }
    ensures out_after { out.new ≡ out_node_of (store words.now bytes.now) j out.old }
{
    node::code(sites::one::hydra_site_node(words, bytes, j, out))
}
