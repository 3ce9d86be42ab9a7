// The reports of further plans: one with every order, one with an exposure on either side of a mirror move, and two in a row, of which
// the first leaves the cover moving.
#![tactic(auto)]

ghost use Rattle.io.specs.Counts.{IsPrefixLen};

use head::state::Head;
use layout::writer::Writer;
use report::refusal::put_refusal;
use report::report::{LONGEST, report};
use std::io;

// A length as a count of the bytes of a text.
fn counted(length: usize, out: &[u8]) -> usize
    ensures { IsPrefixLen result out.now }
{
    if length < LONGEST {
        return length.min(out.len());
    }
    0
}

// Prints the report of a plan or its refusal, and answers the head then.
fn show(rt: &impl Print, head: Head, plan: &[u8]) -> io::Result<Head> {
    let mut out = [0u8; LONGEST];
    match report(head, plan, &mut out) {
        Ok(reported) => {
            let n = counted(reported.length, &out);
            rt.write_all(&out[..n])?;
            Ok(reported.head)
        }
        Err(error) => {
            let mut writer = Writer::new(&mut out);
            put_refusal(&mut writer, error.number(), error.place(), plan);
            let length = writer.len();
            let n = counted(length, &out);
            rt.write_all(&out[..n])?;
            Ok(head)
        }
    }
}

// Orders 1-17.
fn every_order(rt: &impl Print) -> io::Result<()> {
    show(
        rt,
        Head::power_on(),
        b"\x01\x00\x4B\
          \x03\x01\x09\x88\x03\x02\x08\x98\x05\x03\x00\x0A\x00\x0A\x05\x04\x00\x06\x00\x14\x02\x05\x01\
          \x09\x06\x00\x94\x00\x00\x03\xFF\x01\xFF\x02\x07\x01\x03\x08\x01\x02\x03\x09\x01\x09\x03\x0A\x01\x05\x03\x0B\x01\x28\
          \x05\x0C\x00\x64\x0F\xA0\x02\x0D\x01\x05\x0E\x01\x01\x01\x51\x01\x0F\x01\x10\x03\x11\x03\xE8",
    )?;
    Ok(())
}

// Expose, mirror sine -256 and cosine 4088, expose.
fn mirror_moved(rt: &impl Print) -> io::Result<()> {
    show(
        rt,
        Head::power_on(),
        b"\x01\x00\x0A\x01\x0F\x05\x0C\xFF\x00\x0F\xF8\x01\x0F",
    )?;
    Ok(())
}

// Cover open by 81 steps; then IR delay and exposure 10, and an exposure. At last a plan that is refused.
fn in_a_row(rt: &impl Print) -> io::Result<()> {
    let moving = show(
        rt,
        Head::power_on(),
        b"\x01\x00\x06\x05\x0E\x01\x00\x00\x51",
    )?;
    let last = show(rt, moving, b"\x01\x00\x08\x05\x03\x00\x0A\x00\x0A\x01\x0F")?;
    show(rt, last, b"\x01\x00\x05\x01\x0F\x02\x05\x02")?;
    Ok(())
}

fn main(rt: HostRuntime) -> io::Result<()> {
    every_order(&rt)?;
    mirror_moved(&rt)?;
    in_a_row(&rt)
}
