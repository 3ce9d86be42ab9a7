// Prints the table of upper bytes: each with the kind of the words that begin with it, and the ranges of those that are allowed.
#![tactic(auto)]

use names::table::{LONGEST, upper_bytes};
use std::io;

fn main(rt: HostRuntime) -> io::Result<()> {
    let mut out = [0u8; LONGEST];
    let n = upper_bytes(&mut out);
    rt.write_all(&out[..n])
}
