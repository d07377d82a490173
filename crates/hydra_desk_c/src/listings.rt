// Scripts run, and their reasons (include/hydra-desk.h).
ghost use Rattle.std.specs.Prelude.{◌≡◌};
ghost use Rattle.node.specs.Answers.{number};
ghost use Rattle.desk.specs.declared.View.TheVariants.{Refusals, Reasons};
ghost use Rattle.desk.specs.listings.Calls.{run_answer, out_after, area_after_run, length_after};

use windows::Window;

// Runs a script, with the windows lent: the answer's number. The length of what is printed is written to `length`, which stays as
// it was after a refusal.
#[unsafe(no_mangle)]
pub extern "C" fn hydra_replay(
    script: &[u8],
    area: &mut [u8],
    out: &mut [u8],
    length: &mut u32,
    day: u32,
    windows: &[Window],
) -> u32
    ensures { (result ≡ number (run_answer Refusals script.now out.old))
        × (area.new ≡ area_after_run Refusals day windows.now script.now area.old out.old)
        × (out.new ≡ out_after Refusals day windows.now script.now area.old out.old)
        × (length.new ≡ length_after Refusals day windows.now script.now area.old out.old
        length.old) }
{
    node::code(desk::listings::hydra_replay(script, area, out, length, day, windows))
}

// The same for part j of the reasons: part 0 is their head, part j has those of node j.
#[unsafe(no_mangle)]
pub extern "C" fn hydra_why(
    script: &[u8],
    j: u32,
    area: &mut [u8],
    out: &mut [u8],
    length: &mut u32,
    day: u32,
    windows: &[Window],
) -> u32
    ensures { (result ≡ number (run_answer (Reasons j) script.now out.old))
        × (area.new ≡ area_after_run (Reasons j) day windows.now script.now
        area.old out.old)
        × (out.new ≡ out_after (Reasons j) day windows.now script.now area.old out.old)
        × (length.new ≡ length_after (Reasons j) day windows.now script.now area.old
        out.old length.old) }
{
    node::code(desk::listings::hydra_why(script, j, area, out, length, day, windows))
}
