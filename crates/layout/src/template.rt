// Lines laid out by a template: its bytes as they stand, but for marks, whose places the values take one after another.
ghost use Rattle.std.specs.Prelude.{◌≡◌, [], ◌∷◌, ◌+◌, ◌<◌, ◌^◌, get_or};
ghost use Rattle.layout.specs.Adds.{Adds};
ghost use Rattle.layout.specs.Template.{is_mark, change_mark, moved, piece, layout};

use crate::fields::{NUMBER, PLAIN, SECONDS, SINE};
use crate::writer::Writer;

// Alternatives, of which the next value chooses one, and the mark of a value that has changed.
pub const OPEN: u8 = b'{';

pub const BAR: u8 = b'|';

pub const CLOSE: u8 = b'}';

pub const CHANGED: u8 = b'^';

// Where a template has been read to.
#[derive(Clone, Copy)]
pub struct Cursor {
    // The alternative that is copied, and the bars that have been passed; equal outside of alternatives.
    pub chosen: u64,
    pub bars: u64,
    // How many marks of a field have been passed.
    pub width: usize,
    // The index of the next value.
    pub value: usize,
}

// A byte; 0 past the end.
pub fn byte_at(bytes: &[u8], i: usize) -> u8
    ensures { result ≡ get_or bytes.now i 0 }
{
    bytes.get(i).copied().unwrap_or(0)
}

#[tactic(auto, unfolding(crate::specs::Template::is_mark))]
pub fn is_mark(byte: u8) -> bool
    ensures { result ≡ is_mark byte }
{
    matches!(byte, NUMBER | PLAIN | SINE | SECONDS)
}

impl Cursor {
    // The cursor after a byte; the byte after it and the next value are given.
    #[tactic(auto, unfolding(crate::specs::Template::moved))]
    fn moved(self, byte: u8, next: u8, value: u64) -> Cursor
        requires fact_1 { self.bars + 1 < 2 ^ 64 }
        requires fact_2 { self.width + 1 < 2 ^ 64 }
        requires fact_3 { self.value + 1 < 2 ^ 64 }
        ensures { result ≡ moved self byte next value }
    {
        if byte == BAR {
            return Cursor {
                bars: self.bars + 1,
                width: 0,
                ..self
            };
        }
        if byte == CLOSE {
            return Cursor {
                chosen: 0,
                bars: 0,
                width: 0,
                ..self
            };
        }
        if self.bars != self.chosen {
            return self;
        }
        if byte == OPEN {
            return Cursor {
                chosen: value,
                bars: 0,
                width: 0,
                value: self.value + 1,
            };
        }
        if !is_mark(byte) {
            return self;
        }
        if next == byte {
            return Cursor {
                width: self.width + 1,
                ..self
            };
        }
        Cursor {
            width: 0,
            value: self.value + 1,
            ..self
        }
    }
}

impl<'a> Writer<'a> {
    // What a byte of the template stands for.
    #[tactic(auto, using(crate::proofs::Adding::adds_none), unfolding(crate::specs::Template::piece))]
    fn put_piece(&mut self, cursor: Cursor, byte: u8, next: u8, value: u64, before: u64)
        requires { cursor.width + 1 < 2 ^ 64 }
        ensures { Adds self.old self.new (piece cursor byte next value before) }
    {
        let closing = (byte == BAR) | (byte == CLOSE);
        let silent = closing | (byte == OPEN) | (cursor.bars != cursor.chosen);
        if silent {
            return;
        }
        if byte == CHANGED {
            self.put_changed(value == before);
            return;
        }
        if !is_mark(byte) {
            self.put_byte(byte);
            return;
        }
        if next == byte {
            return;
        }
        self.put_field(byte, cursor.width + 1, value);
    }

    fn put_changed(&mut self, same: bool)
        ensures { Adds self.old self.new (change_mark same ∷ []) }
    {
        if same {
            self.put_byte(b' ');
            return;
        }
        self.put_byte(b'*');
    }

    // The text of a template with these values; what they were before is asked where the template marks changes.
    pub fn put_template(&mut self, template: &[u8], values: &[u64], before: &[u64])
        ensures { Adds self.old self.new (layout template.now values.now before.now) }
    {
        let mut cursor = Cursor {
            chosen: 0,
            bars: 0,
            width: 0,
            value: 0,
        };
        for (i, byte) in template.iter().enumerate() {
            let next = byte_at(template, i + 1);
            let value = values.get(cursor.value).copied().unwrap_or(0);
            let was = before.get(cursor.value).copied().unwrap_or(0);
            self.put_piece(cursor, *byte, next, value, was);
            cursor = cursor.moved(*byte, next, value);
        }
    }
}
