// A field of a line: a number as text in a given width.
ghost use Rattle.std.specs.Prelude.{◌≡◌, length};
ghost use Rattle.layout.specs.Adds.{Adds};
ghost use Rattle.layout.specs.Fields.{value_text, field_text};

use crate::numbers::decimal_length;
use crate::writer::Writer;

// The marks of fields: a decimal number at the right of its field or by itself, a sine register, ticks in seconds.
pub const NUMBER: u8 = b'#';

pub const PLAIN: u8 = b'@';

pub const SINE: u8 = b'~';

pub const SECONDS: u8 = b'%';

// What a field that is too narrow shows in each column.
pub const TOO_NARROW: u8 = b'#';

#[tactic(auto, unfolding(crate::specs::Fields::value_text, crate::specs::Numbers::sine_text, crate::specs::Numbers::seconds_of))]
fn value_length(mark: u8, value: u64) -> usize
    ensures { result ≡ length (value_text mark value) }
{
    match mark {
        SINE => decimal_length(value % 4096) + 1,
        SECONDS => decimal_length(value / 100) + 3,
        _ => decimal_length(value),
    }
}

impl<'a> Writer<'a> {
    #[tactic(auto, unfolding(crate::specs::Fields::value_text))]
    fn put_value(&mut self, mark: u8, value: u64)
        ensures { Adds self.old self.new (value_text mark value) }
    {
        match mark {
            SINE => self.put_sine(value),
            SECONDS => self.put_seconds(value),
            _ => self.put_decimal(value),
        }
    }

    #[tactic(auto, unfolding(crate::specs::Fields::field_text))]
    pub fn put_field(&mut self, mark: u8, width: usize, value: u64)
        ensures { Adds self.old self.new (field_text mark width value) }
    {
        let length = value_length(mark, value);
        if width < length {
            self.put_repeated(TOO_NARROW, width);
            return;
        }
        if mark != PLAIN {
            self.put_repeated(b' ', width - length);
        }
        self.put_value(mark, value);
    }
}
