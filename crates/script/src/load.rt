// The lines of a script before its events: settings and table.
ghost use Rattle.std.specs.Prelude.{◌≡◌, true, ◌+◌, ◌≤◌, ◌<◌, length, drop, IfOk, MatchResult};
ghost use Rattle.text.specs.Read.{split};
ghost use Rattle.node.specs.Figures.{no_config, config_ok};
ghost use Rattle.script.specs.declared.Line.TheVariants.{Ended};
ghost use Rattle.script.specs.lines.Lines.{line_at};
ghost use Rattle.script.specs.lines.Fields.{numbers_of};
ghost use Rattle.script.specs.load.Opening.{settings_line, config_read, empty_table, table_lines, opening};
ghost use Rattle.script.specs.load.Opening.{script_head_of, read_back};
ghost use Rattle.script.specs.load.Inner.{Gives, Stops, name_line, any_line, good_config, found_row};

use crate::{Line, Opened, RefusedHead};
use node::{Config, Refusal};
use site::{Row, Table};

// Where the byte 10 of a line stands. A line without it is refused as the caller says; a refusal tells the line's number and the figures
// read so far.
fn ended_line(
    s: &[u8],
    at: usize,
    unended: Refusal,
    line: u32,
    config: Config,
) -> Result<usize, RefusedHead>
    ensures line { MatchResult result (λ e. line_at s.now at ≡ Ended e)
        (Stops config (any_line line unended (split 10 (drop at s.now)))) }
    ensures within { IfOk result (λ e. (at ≤ e) × (e < length s.now)) }
{
    let refusal = match crate::lines::next_line(s, at) {
        Line::Nothing => Refusal::BadNames,
        Line::Open => unended,
        Line::Ended(e) => return Ok(e),
    };
    Err(RefusedHead {
        refusal,
        line,
        config,
    })
}

// A line of names, compared byte by byte: where the line behind it starts.
fn names_line(
    s: &[u8],
    at: usize,
    names: &[u8],
    line: u32,
    config: Config,
) -> Result<usize, RefusedHead>
    ensures { MatchResult result (Gives s.now (name_line line names.now (split 10 (drop at s.now))) tt)
        (Stops config (name_line line names.now (split 10 (drop at s.now)))) }
{
    let e = ended_line(s, at, Refusal::BadNames, line, config)?;
    if lists::equal(&s[at..e], names) {
        return Ok(e + 1);
    }
    Err(RefusedHead {
        refusal: Refusal::BadNames,
        line,
        config,
    })
}

// The figures in a line, where they are good.
fn config_in(line: &[u8]) -> Option<Config>
    ensures { result ≡ good_config (numbers_of 5 (split 32 line.now)) }
{
    let [nodes, slots, rounds, min_heard, split] = crate::lines::numbers::<5>(line)?;
    let config = Config {
        nodes,
        slots,
        rounds,
        min_heard,
        split,
    };
    config.config_ok().then_some(config)
}

// The settings, and where the line behind them starts.
fn settings(s: &[u8], at: usize) -> Result<(Config, usize), RefusedHead>
    ensures line { MatchResult result (λ r. Gives s.now (settings_line 2 (split 10 (drop at s.now))) r.0 r.1)
        (Stops no_config (settings_line 2 (split 10 (drop at s.now)))) }
    ensures good { IfOk result (λ r. config_ok r.0 ≡ true) }
{
    let none = Config::none();
    let e = ended_line(s, at, Refusal::OutOfRange, 2, none)?;
    let Some(config) = config_in(&s[at..e]) else {
        return Err(RefusedHead {
            refusal: Refusal::OutOfRange,
            line: 2,
            config: none,
        });
    };
    Ok((config, e + 1))
}

// The row of the node at index i, from its line.
fn row_in(config: Config, i: u32, line: &[u8]) -> Option<Row>
    requires { i < 32 }
    ensures { result ≡ found_row config i (numbers_of 4 (split 32 line.now)) }
{
    let [node, version, flags, want] = crate::lines::numbers::<4>(line)?;
    let row = Row {
        version,
        flags,
        want: u8::try_from(want).ok()?,
    };
    let good = node == i + 1 && row.want <= allotment::TOP_REQUEST && site::row_ok(config, i, row);
    good.then_some(row)
}

// The rows of the table, and where the line behind them starts.
fn rows(s: &[u8], from: usize, config: Config) -> Result<(Table, usize), RefusedHead>
    requires { (config.nodes ≤ 32) × (from ≤ length s.now) }
    ensures { MatchResult result (λ r. Gives s.now (table_lines config config.nodes 0 4 empty_table (split 10 (drop from s.now))) r.0 r.1)
        (Stops config (table_lines config config.nodes 0 4 empty_table (split 10 (drop from s.now)))) }
{
    let none = Row {
        version: 0,
        flags: 0,
        want: 0,
    };
    let mut rows = [none; 32];
    let mut at = from;
    for i in 0..config.nodes {
        let line = 4 + i;
        let e = ended_line(s, at, Refusal::OutOfRange, line, config)?;
        let Some(row) = row_in(config, i, &s[at..e]) else {
            return Err(RefusedHead {
                refusal: Refusal::OutOfRange,
                line,
                config,
            });
        };
        rows[i as usize] = row;
        at = e + 1;
    }
    Ok((Table { rows }, at))
}

// Settings, table, and the names of the events: where the event lines start; or a refusal with the settings that were accepted before it.
// The first clause says every field for every script; the second, that the lines from the place on are those that the opening leaves.
pub fn open(script: &[u8]) -> Result<Opened, RefusedHead>
    ensures value { result ≡ script_head_of script.now (config_read (split 10 script.now))
        (opening (split 10 script.now)) }
    ensures lines { read_back script.now result ≡ opening (split 10 script.now) }
    ensures within { IfOk result (λ o. o.at ≤ length script.now) }
{
    let names = b"nodes slots rounds heard split";
    let a = names_line(script, 0, names, 1, Config::none())?;
    let (config, b) = settings(script, a)?;
    let c = names_line(script, b, b"node version flags want", 3, config)?;
    let (table, d) = rows(script, c, config)?;
    let at = names_line(script, d, b"event node with", 4 + config.nodes, config)?;
    Ok(Opened { at, config, table })
}
