// Request P5's refusals in words.
ghost use Rattle.std.specs.Prelude.{◌≡◌};
ghost use Rattle.layout.specs.Adds.{Adds};
ghost use Rattle.picture.specs.Printed.{reason_index, refusal_text};

use layout::writer::Writer;

// The first of the numbers.
const MAP_LENGTH: u8 = 41;

// The index of a reason among the texts.
fn reason_index(number: u8) -> u64
    ensures { result ≡ reason_index number }
{
    u64::from(number.saturating_sub(MAP_LENGTH))
}

pub fn put_refusal(writer: &mut Writer<'_>, number: u8)
    ensures { Adds writer.old writer.new (refusal_text number) }
{
    let values = [u64::from(number), reason_index(number)];
    writer.put_template(
        b"refused @@@: {a pixel map has 14,783 bytes\
        |a spare bit after the last pixel is set\
        |no such request\
        |the request's value is out of range}\n",
        &values,
        &[],
    );
}
