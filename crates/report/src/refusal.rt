// A refusal in words: number, rule, place, and the index of the order.
ghost use Rattle.std.specs.Prelude.{◌≡◌};
ghost use Rattle.layout.specs.Adds.{Adds};
ghost use Rattle.report.specs.Refusal.{order_index, refusal_text};

use layout::numbers::bit;
use layout::writer::Writer;
use plan::stored::{HEADER, byte_at};

// The index, counted from 1, of the order whose length byte is at a place; at most 65.
fn order_index(plan: &[u8], place: usize) -> usize
    ensures { result ≡ order_index plan.now place }
{
    let mut at: usize = HEADER;
    for index in 1..65 {
        if place <= at {
            return index;
        }
        at = at + 1 + byte_at(plan, at) as usize;
    }
    65
}

#[tactic(auto, unfolding(crate::specs::Refusal::refusal_text, crate::specs::Refusal::refusal_template, layout::specs::Numbers::ascii))]
pub fn put_refusal(writer: &mut Writer<'_>, number: u8, place: usize, plan: &[u8])
    ensures { Adds writer.old writer.new (refusal_text number place plan.now) }
{
    let order = bit((5 <= number) & (number <= 9));
    let values = [
        number as u64,
        number as u64,
        place as u64,
        order,
        order_index(plan, place) as u64,
    ];
    writer.put_template(
        b"refused @@@: {|the state is out of range, busy, or something moves\
        |fewer than 3 bytes\
        |the version is not 1\
        |the bytes after the third are not as many as the length says\
        |an order's length is 0 or past the end\
        |an order's code is not 1-17\
        |an order's length is not that of its code\
        |a field is out of range\
        |a 65th order begins\
        |a buffer is too short} (byte @@@@@@@@@@@@@@@@@@@@{|, order @@})\n",
        &values,
        &values,
    );
}
