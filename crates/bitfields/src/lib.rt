// Bit fields of a 16-bit word, placed and read by a table. It has a row for each field: its lowest bit and its width, bit 0 being the
// word's lowest. Any table may be given: what a field would have above bit 15 is lost, and where fields share a bit their values are
// added.
#![tactic(auto)]

ghost use Rattle.std.specs.Prelude.{◌≡◌, ◌%◌, ◌^◌, min, length};
ghost use Rattle.std.proofs.Math.Seq.{paste};
ghost use Rattle.bitfields.specs.Fields.{placed_in, composed, value_in, values_in, word_bits};

const WORD_BITS: u8 = 16;

// A field of a word.
#[derive(Clone, Copy)]
pub struct Field {
    pub lowest: u8,
    pub width: u8,
}

// As many of the lowest bits as the width says.
fn low_bits(value: u16, width: u8) -> u16
    ensures { result ≡ value % 2 ^ width }
{
    if WORD_BITS <= width {
        return value;
    }
    value % (1u16 << width)
}

impl Field {
    // A value at the field's place.
    fn placed(self, value: u16) -> u16
        ensures { result ≡ placed_in self value % 2 ^ word_bits }
    {
        let lowest = self.lowest;
        let width = self.width;
        if WORD_BITS <= lowest {
            return 0;
        }
        low_bits(value, width) << lowest
    }

    // The value that a word holds in the field.
    fn value_in(self, word: u16) -> u16
        ensures { result ≡ value_in self word }
    {
        let lowest = self.lowest;
        if WORD_BITS <= lowest {
            return 0;
        }
        low_bits(word >> lowest, self.width)
    }
}

// The word whose fields hold the values, in the table's order.
pub fn compose(fields: &[Field], values: &[u16]) -> u16
    ensures { result ≡ composed fields.now values.now % 2 ^ word_bits }
{
    // Not a fold over the zip: the proof of that chain does not close.
    let mut word: u16 = 0;
    for (field, value) in fields.iter().zip(values) {
        word = word.wrapping_add(field.placed(*value));
    }
    word
}

// Stores the values that the word holds in its fields, in the table's order, from the first place on.
pub fn values_in(fields: &[Field], word: u16, values: &mut [u16])
    ensures { values.new ≡ paste values.old 0 (values_in fields.now word) (min (length fields.now) (length values.old)) }
{
    // By index: of what a zip over iter_mut wrote a proof knows nothing.
    for place in 0..fields.len().min(values.len()) {
        values[place] = fields[place].value_in(word);
    }
}

// The values that the word holds in its fields, one for each row of the table.
pub fn values_of<const N: usize>(fields: &[Field; N], word: u16) -> [u16; N]
    ensures { result ≡ values_in fields.now word }
{
    let mut values = [0; N];
    values_in(fields, word, &mut values);
    values
}
