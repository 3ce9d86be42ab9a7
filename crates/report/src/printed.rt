// What the simulation program prints for the bytes that it reads.
ghost use Rattle.layout.specs.Written.{Front};
ghost use Rattle.report.specs.Printed.{printed_for};

use crate::refusal::put_refusal;
use crate::report::{LONGEST, report};
use head::state::Head;
use layout::writer::Writer;
use text::listing::MOST_INPUT;

// The text for a plan; the answer is its length.
pub fn printed(plan: &[u8], out: &mut [u8; LONGEST]) -> usize
    ensures { Front out.old (printed_for plan.now) result out.new }
{
    if MOST_INPUT < plan.len() {
        let mut writer = Writer::new(out);
        writer.put_bytes(b"input too long\n");
        return writer.len();
    }
    match report(Head::power_on(), plan, out) {
        Ok(report) => report.length,
        Err(error) => {
            let mut writer = Writer::new(out);
            put_refusal(&mut writer, error.number(), error.place(), plan);
            writer.len()
        }
    }
}
