// A plan for each refusal of document 01's table, with the number and the byte place that translation answers.
#![tactic(auto)]

use head::state::Head;
use schedule::translate::{MOST_WORDS, translate};
use schedule::{TranslateError, Translation};
use std::io;
use text::lines::refusal_line;

fn print_refusal(rt: &impl Print, error: TranslateError) -> io::Result<()> {
    let mut line = [0u8; 64];
    let n = refusal_line(error.number(), error.place(), &mut line);
    rt.write_all(&line[..n])
}

fn print_count(rt: &impl Print, count: usize) -> io::Result<()> {
    println!(rt; "count {count}")
}

fn show(rt: &impl Print, answer: Result<Translation, TranslateError>) -> io::Result<()> {
    match answer {
        Ok(translation) => print_count(rt, translation.count),
        Err(TranslateError::Short { count }) => {
            print_refusal(rt, TranslateError::Short { count })?;
            print_count(rt, count)
        }
        Err(error) => print_refusal(rt, error),
    }
}

fn translated(head: Head, plan: &[u8]) -> Result<Translation, TranslateError> {
    let mut words = [0u16; MOST_WORDS];
    let mut ticks = [0u32; MOST_WORDS];
    translate(head, plan, &mut words, &mut ticks)
}

fn at_power_on(rt: &impl Print, plan: &[u8]) -> io::Result<()> {
    show(rt, translated(Head::power_on(), plan))
}

// Housekeeping 65 times.
fn too_many() -> [u8; 133] {
    let mut plan = [1u8; 133];
    plan[1] = 0;
    plan[2] = 130;
    for k in 0..65 {
        plan[4 + 2 * k] = 16;
    }
    plan
}

// Refusals of the plan as a whole: 2, 3, 4 and 9.
fn whole_plans(rt: &impl Print) -> io::Result<()> {
    at_power_on(rt, b"\x01\x00")?;
    at_power_on(rt, b"\x02\x00\x00")?;
    at_power_on(rt, b"\x01\x00\x02\x01")?;
    at_power_on(rt, &too_many())
}

// Refusals of the second order, 5-8: length 0, length past the end, code 18, a length not of its code, window mode 2.
fn orders(rt: &impl Print) -> io::Result<()> {
    at_power_on(rt, b"\x01\x00\x03\x01\x0F\x00")?;
    at_power_on(rt, b"\x01\x00\x04\x01\x0F\x02\x0F")?;
    at_power_on(rt, b"\x01\x00\x04\x01\x0F\x01\x12")?;
    at_power_on(rt, b"\x01\x00\x05\x01\x0F\x02\x0F\x00")?;
    at_power_on(rt, b"\x01\x00\x05\x01\x0F\x02\x05\x02")
}

// 1: a head that is busy with an acquisition.
fn busy_head(rt: &impl Print) -> io::Result<()> {
    let started = Head::power_on().word(0x8000).head;
    show(rt, translated(started, b"\x01\x00\x00"))
}

// 10: an exposure and housekeeping, with room for one of the two words.
fn short_buffers(rt: &impl Print) -> io::Result<()> {
    let mut words = [0u16; 1];
    let mut ticks = [0u32; 2];
    let plan = b"\x01\x00\x04\x01\x0F\x01\x10";
    let answer = translate(Head::power_on(), plan, &mut words, &mut ticks);
    show(rt, answer)
}

fn main(rt: HostRuntime) -> io::Result<()> {
    busy_head(&rt)?;
    whole_plans(&rt)?;
    orders(&rt)?;
    short_buffers(&rt)
}
