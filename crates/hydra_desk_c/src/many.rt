// A group of sites in lent memory (include/hydra-desk.h).
ghost use Rattle.std.specs.Prelude.{◌≡◌, List, ℕ};
ghost use Rattle.node.specs.Answers.{number};
ghost use Rattle.script.specs.events.Events.{event_at};
ghost use Rattle.sites.specs.one.Calls.{config_from};
ghost use Rattle.group.specs.Group.{vacant};
ghost use Rattle.sites.specs.many.Memory.{memory, lent, group_in};
ghost use Rattle.sites.specs.many.Calls.{begin_answer, begun_table};
ghost use Rattle.sites.specs.many.Calls.{rows_answer, after_rows, group_rows, tally_loaded};
ghost use Rattle.sites.specs.many.Calls.{group_line_answer, after_line, area_after_line, tally_after_line};
ghost use Rattle.sites.specs.many.Calls.{report_after_line};
ghost use Rattle.sites.specs.many.Calls.{group_after_line, group_node_answer, node_out};

use tally::Tally;
use windows::Window;

// Nothing is loaded and every place is free. Refused as 15 where the memory is too short.
#[unsafe(no_mangle)]
pub extern "C" fn hydra_group_begin(words: &[u32], bytes: &[u8], table: &mut [u32]) -> u32
    ensures value { result ≡ number (begin_answer (memory words.now bytes.now table.old)) }
    ensures table_after { table.new ≡ begun_table (memory words.now bytes.now table.old) }
    ensures by_index { (area : List ℕ) → group_in (memory words.now bytes.now table.new)
        area ≡ vacant area }
{
    node::code(sites::many::hydra_group_begin(words, bytes, table))
}

// A load of a number: three words of `rows` for each node, and a day of so many epochs with its windows. The number's tally is set anew.
#[unsafe(no_mangle)]
pub extern "C" fn hydra_group_load(
    words: &mut [u32],
    bytes: &mut [u8],
    table: &mut [u32],
    a: u32,
    nodes: u32,
    slots: u32,
    rounds: u32,
    heard: u32,
    split: u32,
    rows: &[u32],
    day: u32,
    windows: &[Window],
    tally: &mut Tally,
) -> u32
    ensures { (result ≡ number (rows_answer (memory words.old bytes.old table.old) a
        (config_from nodes slots rounds heard split) rows.now day windows.now))
        × (words.new ≡ (after_rows (memory words.old bytes.old table.old) a
        (config_from nodes slots rounds heard split) rows.now day windows.now).words)
        × (bytes.new ≡ (after_rows (memory words.old bytes.old table.old) a
        (config_from nodes slots rounds heard split) rows.now day windows.now).bytes)
        × (table.new ≡ (after_rows (memory words.old bytes.old table.old) a
        (config_from nodes slots rounds heard split) rows.now day windows.now).table)
        × ((area : List ℕ) → group_in (memory words.new bytes.new table.new) area
        ≡ group_rows (memory words.old bytes.old table.old) area a
        (config_from nodes slots rounds heard split) rows.now day windows.now)
        × (tally.new ≡ tally_loaded (memory words.old bytes.old table.old) a
        (config_from nodes slots rounds heard split) rows.now day windows.now tally.old) }
{
    node::code(sites::many::hydra_group_load(
        words, bytes, table, a, nodes, slots, rounds, heard, split, rows, day, windows, tally,
    ))
}

// An event of a number: its own number, its node, and what stands behind the node in a script. The number's tally is lent. The report of an
// accepted close goes to the start of `reports`.
#[unsafe(no_mangle)]
pub extern "C" fn hydra_group_event(
    words: &mut [u32],
    bytes: &mut [u8],
    table: &mut [u32],
    area: &mut [u8],
    a: u32,
    event: u32,
    node: u32,
    with: u32,
    windows: &[Window],
    tally: &mut Tally,
    reports: &mut [u8],
) -> u32
    ensures { (result ≡ number
        (group_line_answer (memory words.old bytes.old table.old) area.old a
        (lent windows.now tally.old reports.old) (event_at event node with)))
        × (words.new ≡ (after_line (memory words.old bytes.old table.old) area.old a
        (lent windows.now tally.old reports.old) (event_at event node with)).words)
        × (bytes.new ≡ (after_line (memory words.old bytes.old table.old) area.old a
        (lent windows.now tally.old reports.old) (event_at event node with)).bytes)
        × (table.new ≡ (after_line (memory words.old bytes.old table.old) area.old a
        (lent windows.now tally.old reports.old) (event_at event node with)).table)
        × (area.new ≡ area_after_line (memory words.old bytes.old table.old) area.old a
        (lent windows.now tally.old reports.old) (event_at event node with))
        × (reports.new ≡ report_after_line (memory words.old bytes.old table.old) area.old
        a (lent windows.now tally.old reports.old) (event_at event node with))
        × (group_in (memory words.new bytes.new table.new) area.new
        ≡ group_after_line (memory words.old bytes.old table.old) area.old a
        (lent windows.now tally.old reports.old) (event_at event node with))
        × (tally.new ≡ tally_after_line (memory words.old bytes.old table.old) area.old a
        (lent windows.now tally.old reports.old) (event_at event node with)) }
{
    // The header says that each event reads the tally and writes it back, a refused one too.
    let mut t = *tally;
    let answer = sites::many::hydra_group_event(
        words, bytes, table, area, a, event, node, with, windows, &mut t, reports,
    );
    *tally = t;
    node::code(answer)
}

// What a listing shows of node j of a number, in 90 bytes at the start of an output.
#[unsafe(no_mangle)]
pub extern "C" fn hydra_group_node(
    words: &[u32],
    bytes: &[u8],
    table: &[u32],
    a: u32,
    j: u32,
    out: &mut [u8],
) -> u32
    ensures value { result ≡ number
        (group_node_answer (memory words.now bytes.now table.now) a j out.old) }
    ensures out_after { out.new
        ≡ node_out (memory words.now bytes.now table.now) a j out.old }
{
    node::code(sites::many::hydra_group_node(words, bytes, table, a, j, out))
}
