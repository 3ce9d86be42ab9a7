// Reads the pixel map of the high-resolution head from standard input, and prints it as a portable bitmap, or says why it is refused.
#![tactic(auto)]

use picture::printed::{LONGEST, printed};
use pixels::BYTES;
use std::io;
use std::io::Read;

fn main(rt: HostRuntime) -> io::Result<()> {
    // One byte more than a map has tells whether the input is too long.
    let mut map = Vec::new(rt.alloc());
    rt.stdin().take(BYTES as u64 + 1).read_to_end(&mut map)?;
    let mut out = [0u8; LONGEST];
    let n = printed(&map, &mut out);
    rt.write_all(&out[..n])
}
