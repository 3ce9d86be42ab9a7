// Reads a list of timed words as text from standard input, gives it to a head at power-on, and prints what becomes of each word, or says
// why the text is refused.
#![tactic(auto)]

use import::read::MOST_BYTES;
use imported::printed::printed;
use inspection::inspection::LONGEST;
use std::io;
use std::io::Read;

fn main(rt: HostRuntime) -> io::Result<()> {
    // One byte more than a text may have tells whether the input is too long.
    let mut text = Vec::new(rt.alloc());
    rt.stdin()
        .take(MOST_BYTES as u64 + 1)
        .read_to_end(&mut text)?;
    let mut out = [0u8; LONGEST];
    let n = printed(&text, &mut out);
    rt.write_all(&out[..n])
}
