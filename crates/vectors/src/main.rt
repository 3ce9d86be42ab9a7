// Runs the examples of document 01 that are not starred, and shows the way from a tick to the two blocks: HK from power-on, cover shut.
#![tactic(auto)]

use blocks::ccd::CcdBits;
use blocks::ir::IrBits;
use due::{Given, write_due};
use head::state::Head;
use std::io;

// The number of the head's answer; 0 for a word that is taken.
fn answer(head: Head, word: u16) -> u64 {
    u64::from(head.word(word).outcome.number())
}

fn print_line(rt: &impl Print, name: &str, number: u64) -> io::Result<()> {
    println!(rt; "{name} {number}")
}

fn print_word(rt: &impl Print, name: &str, word: u16) -> io::Result<()> {
    println!(rt; "{name} {word:04x}")
}

fn words(rt: &impl Print) -> io::Result<()> {
    let idle = Head::power_on();
    let busy = idle.word(0x8000).head;
    print_line(rt, "AA00", answer(idle, 0xAA00))?;
    print_line(rt, "C001 idle", answer(idle, 0xC001))?;
    print_line(rt, "C001 busy", answer(busy, 0xC001))
}

fn housekeeping(rt: &impl Print) -> io::Result<()> {
    let asked = Head::power_on().word(0x4000).head;
    let last = asked.tick().head.tick().head.tick();
    let given = Given {
        irreadings: [0; 14],
        irbits: IrBits {
            latchup: false,
            notclosed: false,
            notopen: true,
        },
        ccdreadings: [0; 16],
        ccdbits: CcdBits { latchup: false },
    };
    let mut ir = [0u16; 20];
    let mut ccd = [0u16; 25];
    write_due(last, given, &mut ir, &mut ccd);
    print_word(rt, "lamp and shutter", ir[18])?;
    print_word(rt, "IR flags", ir[19])?;
    print_word(rt, "VIS flags", ccd[24])
}

fn main(rt: HostRuntime) -> io::Result<()> {
    words(&rt)?;
    housekeeping(&rt)
}
