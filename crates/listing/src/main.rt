// Reads a stored plan from standard input, translates it for a head at power-on, and lists its words with their ticks, or says why
// it is refused.
#![tactic(auto)]

use std::io;
use std::io::Read;
use text::listing::{LONGEST, MOST_INPUT, listing};

fn main(rt: HostRuntime) -> io::Result<()> {
    // One byte more than a plan may have tells whether the input is too long.
    let mut plan = Vec::new(rt.alloc());
    rt.stdin()
        .take(MOST_INPUT as u64 + 1)
        .read_to_end(&mut plan)?;
    let mut out = [0u8; LONGEST];
    let n = listing(&plan, &mut out);
    rt.write_all(&out[..n])
}
