// Numbers as text: in decimal, in hexadecimal, as seconds, and as a sine with its sign.
ghost use Rattle.std.specs.Prelude.{◌≡◌, ◌++◌, ◌<◌, length};
ghost use Rattle.layout.specs.Adds.{Adds};
ghost use Rattle.layout.specs.Numbers.{bit, decimal_of, hex_digit, hex_of, seconds_of, sine_text};

use crate::writer::Writer;

// 1 for true, 0 for false.
pub fn bit(b: bool) -> u64
    ensures { result ≡ bit b }
{
    u64::from(b)
}

// How many digits a number has in decimal.
pub fn decimal_length(n: u64) -> usize
    ensures { result ≡ length (decimal_of n) }
{
    if n < 10 {
        return 1;
    }
    decimal_length(n / 10) + 1
}

impl<'a> Writer<'a> {
    pub fn put_decimal(&mut self, n: u64)
        ensures { Adds self.old self.new (decimal_of n) }
    {
        if 10 <= n {
            self.put_decimal(n / 10);
        }
        self.put_byte(b'0' + (n % 10) as u8);
    }

    // A number in decimal after its name.
    pub fn put_named(&mut self, name: &[u8], n: u64)
        ensures { Adds self.old self.new (name.now ++ decimal_of n) }
    {
        self.put_bytes(name);
        self.put_decimal(n);
    }

    // Ticks of 10 ms as seconds, with two decimals.
    pub fn put_seconds(&mut self, ticks: u64)
        ensures { Adds self.old self.new (seconds_of ticks) }
    {
        let tenths = (ticks / 10 % 10) as u8;
        let hundredths = (ticks % 10) as u8;
        self.put_decimal(ticks / 100);
        self.put_bytes(&[b'.', b'0' + tenths, b'0' + hundredths]);
    }

    // The sine register: its sign, always, and its magnitude.
    pub fn put_sine(&mut self, register: u64)
        ensures { Adds self.old self.new (sine_text register) }
    {
        let sign = if register < 4096 { b'+' } else { b'-' };
        self.put_byte(sign);
        self.put_decimal(register % 4096);
    }
}

// A hexadecimal digit, in upper case.
#[tactic(auto, unfolding(crate::specs::Numbers::hex_digit))]
fn hex_digit(d: u16) -> u8
    requires { d < 16 }
    ensures { result ≡ hex_digit d }
{
    if d < 10 {
        b'0' + d as u8
    } else {
        b'A' + (d - 10) as u8
    }
}

// A word in four hexadecimal digits, in upper case.
#[tactic(auto, unfolding(crate::specs::Numbers::hex_of))]
pub fn hex4(word: u16) -> [u8; 4]
    ensures { result ≡ hex_of word }
{
    [
        hex_digit(word / 4096),
        hex_digit(word / 256 % 16),
        hex_digit(word / 16 % 16),
        hex_digit(word % 16),
    ]
}
