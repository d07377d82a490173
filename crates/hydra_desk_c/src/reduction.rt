// Scripts with no idle event (include/hydra-desk.h).
ghost use Rattle.hydra_desk_c.specs.Reduction.{Returns};

// A script with no idle event: the answer's number. The length of what is written is written to `length`, which stays as it was after a
// refusal.
#[unsafe(no_mangle)]
pub extern "C" fn hydra_reduce(script: &[u8], out: &mut [u8], length: &mut u32, number: u32) -> u32
    ensures { Returns number script.now out.old length.old result out.new length.new }
{
    node::code(reduce::hydra_reduce(script, out, length, number))
}
