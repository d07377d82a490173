// Reads a script from standard input, runs it with no windows, and prints. One byte above the greatest script is enough to know that it is
// too long.
#![tactic(auto)]

use desk::View;
use std::io::Print;

fn main(rt: HostRuntime) {
    let mut script = [0u8; 40001];
    let Ok(n) = input::script(
        &rt,
        &mut script,
        b"replay 2.0.0: takes no arguments and reads a script from standard input (replay < SCRIPT), nothing was run\n",
        b"replay: standard input could not be read, nothing was run\n",
    ) else {
        return;
    };
    let mut area = [0u8; 11520];
    let mut out = [0u8; 400000];
    let Ok(k) = desk::listings::show(&script[..n], &mut area, &mut out, 1, &[], View::Refusals)
    else {
        return;
    };
    if rt.stdout().write_all(&out[..k]).is_err() {
        let _ = rt
            .stderr()
            .write_all(b"replay: the listing could not be written\n");
    }
}
