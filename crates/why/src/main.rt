// Reads a script from standard input, runs it with no windows for the head and for each node, and prints why the node sent what it sent, or
// nothing, at each close.
// Refused lines have no reason, so it says on standard error how many there are. One byte above the greatest script is enough to know that
// it is too long.
#![tactic(auto)]

ghost use Rattle.std.specs.Prelude.{◌≡◌};
ghost use Rattle.why.specs.Refused.{byte_count, refused_in};

use desk::View;
use std::io::{Eprint, Print};

// How many bytes c there are.
fn count_of(s: &[u8], c: u8) -> usize
    ensures { result ≡ byte_count c s.now }
{
    s.iter().filter(|b| **b == c).count()
}

// How many refused lines a listing has.
fn refused_lines(listing: &[u8]) -> usize
    ensures { result ≡ refused_in listing.now }
{
    let head = text::find(listing, 10);
    let under = &listing[head..];
    let end = text::find(under, 110);
    count_of(&under[..end], 10).saturating_sub(1)
}

// Says on standard error how many lines of a script were refused, if any.
fn tell_refused<P: Eprint>(to: &P, script: &[u8]) {
    let mut area = [0u8; 11520];
    let mut listing = [0u8; 400000];
    let Ok(k) = desk::listings::show(script, &mut area, &mut listing, 1, &[], View::Refusals) else {
        return;
    };
    let refused = refused_lines(&listing[..k]);
    if refused == 0 {
        return;
    }
    let _ = eprintln!(to; "why: lines refused: {refused} (replay lists them)");
}

fn main(rt: HostRuntime) {
    let mut script = [0u8; 40001];
    let Ok(n) = input::script(
        &rt,
        &mut script,
        b"why 2.0.0: takes no arguments and reads a script from standard input (why < SCRIPT), nothing was run\n",
        b"why: standard input could not be read, nothing was run\n",
    ) else {
        return;
    };
    let mut out = [0u8; 160100];
    for j in 0..=32 {
        let mut area = [0u8; 11520];
        let Ok(k) = desk::listings::show(
            &script[..n],
            &mut area,
            &mut out,
            1,
            &[],
            View::Reasons(j),
        ) else {
            return;
        };
        if rt.stdout().write_all(&out[..k]).is_err() {
            let _ = rt
                .stderr()
                .write_all(b"why: the reasons could not be written\n");
            return;
        }
    }
    tell_refused(&rt, &script[..n]);
}
