// Request P6's refusals in words.
ghost use Rattle.std.specs.Prelude.{◌≡◌};
ghost use Rattle.layout.specs.Adds.{Adds};
ghost use Rattle.merged.specs.Refusal.{reason_index, refusal_text};

use layout::writer::Writer;

// The first of the numbers.
const NOT_PASSED: u8 = 51;

// The index of a reason among the texts.
fn reason_index(number: u8) -> u64
    ensures { result ≡ reason_index number }
{
    u64::from(number.saturating_sub(NOT_PASSED))
}

pub fn put_refusal(writer: &mut Writer<'_>, number: u8)
    ensures { Adds writer.old writer.new (refusal_text number) }
{
    let values = [u64::from(number), reason_index(number)];
    writer.put_template(
        b"refused @@@: {the word is not passed on: not allowed, not in the operator's group, or the head is busy\
        |the ticks of a list do not rise\
        |the same tick in both lists\
        |no room for the merged part}\n",
        &values,
        &[],
    );
}
