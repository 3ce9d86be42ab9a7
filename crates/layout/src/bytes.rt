// Bytes added by a writer.
ghost use Rattle.std.specs.Prelude.{[], ◌∷◌, replicate};
ghost use Rattle.layout.specs.Adds.{Adds};

use crate::writer::Writer;

impl<'a> Writer<'a> {
    pub fn put_byte(&mut self, byte: u8)
        ensures { Adds self.old self.new (byte ∷ []) }
    {
        if self.at < self.out.len() {
            self.out[self.at] = byte;
            self.at += 1;
        }
    }

    pub fn put_bytes(&mut self, bytes: &[u8])
        ensures { Adds self.old self.new bytes.now }
    {
        for byte in bytes {
            self.put_byte(*byte);
        }
    }

    // One byte so many times.
    pub fn put_repeated(&mut self, byte: u8, count: usize)
        ensures { Adds self.old self.new (replicate count byte) }
    {
        for _ in 0..count {
            self.put_byte(byte);
        }
    }
}
