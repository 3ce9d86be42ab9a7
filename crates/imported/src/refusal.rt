// A refusal of a text list in words: number, reason and line.
ghost use Rattle.std.specs.Prelude.{◌≡◌};
ghost use Rattle.layout.specs.Adds.{Adds};
ghost use Rattle.imported.specs.Printed.{reason_index, refusal_text};

use layout::writer::Writer;

// The first of the reasons' numbers.
const FIRST_REASON: u8 = 91;

// The index of a reason among the texts.
fn reason_index(number: u8) -> u64
    ensures { result ≡ reason_index number }
{
    u64::from(number.saturating_sub(FIRST_REASON))
}

pub fn put_refusal(writer: &mut Writer<'_>, number: u8, line: usize)
    ensures { Adds writer.old writer.new (refusal_text number line) }
{
    let values = [u64::from(number), reason_index(number), line as u64];
    writer.put_template(
        b"refused @@@: {the first line is not \"tick word\"\
        |not a tick and a word\
        |the tick is not above the one before\
        |more than 256 words\
        |a line after the end\
        |more than 8,192 bytes} (line @@@@@@@@@@@@@@@@@@@@)\n",
        &values,
        &[],
    );
}
