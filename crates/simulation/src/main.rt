// Reads a stored plan from standard input, simulates it on a head at power-on, and prints the report, or says why the plan is refused.
#![tactic(auto)]

use report::printed::printed;
use report::report::LONGEST;
use std::io;
use std::io::Read;
use text::listing::MOST_INPUT;

fn main(rt: HostRuntime) -> io::Result<()> {
    // One byte more than a plan may have tells whether the input is too long.
    let mut plan = Vec::new(rt.alloc());
    rt.stdin()
        .take(MOST_INPUT as u64 + 1)
        .read_to_end(&mut plan)?;
    let mut out = [0u8; LONGEST];
    let n = printed(&plan, &mut out);
    rt.write_all(&out[..n])
}
