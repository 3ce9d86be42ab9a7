// A line of a list: a tick and a word, or the end. It is one where it reads as the listing prints them, and in no other form.
ghost use Rattle.std.specs.Prelude.{◌≡◌, ◌+◌, ◌*◌, ◌≤◌, min};
ghost use Rattle.text.specs.Lines.{timed_text, end_text};
ghost use Rattle.import.specs.Line.{upper, stands_for, is_text, digit_value, value_from, tick_limit, tick_in, word_in, end_in, reads_timed, reads_end, line_of};

use layout::writer::Writer;
use text::lines::put_timed;

#[derive(Clone, Copy)]
pub enum Line {
    Word { tick: u32, word: u16 },
    End { tick: u32 },
}

// One more than the largest tick.
const TICK_LIMIT: u64 = 0x1_0000_0000;

const WORD_LIMIT: u64 = 0x1_0000;

// A hexadecimal letter in upper case; any other byte as it is.
#[tactic(auto, unfolding(crate::specs::Line::upper))]
fn upper(byte: u8) -> u8
    ensures { result ≡ upper byte }
{
    if (b'a' <= byte) & (byte <= b'f') {
        return byte - 32;
    }
    byte
}

// Whether a byte stands for one that is printed: a hexadecimal letter may be of either case.
#[tactic(auto, unfolding(crate::specs::Line::stands_for))]
fn stands_for(byte: u8, printed: u8) -> bool
    ensures { result ≡ stands_for byte printed }
{
    (byte == printed) | (upper(byte) == printed)
}

// Whether a line reads as what is printed.
pub(crate) fn is_text(line: &[u8], printed: &[u8]) -> bool
    ensures { result ≡ is_text line.now printed.now }
{
    if line.len() != printed.len() {
        return false;
    }
    line.iter()
        .zip(printed)
        .all(|(byte, printed)| stands_for(*byte, *printed))
}

// The value of a digit; that of any other byte is of no account, since it is not printed again.
#[tactic(auto, unfolding(crate::specs::Line::digit_value))]
fn digit_value(byte: u8) -> u64
    ensures { result ≡ digit_value byte }
{
    if byte < b'0' {
        return 0;
    }
    if byte < b'A' {
        return (byte - b'0') as u64;
    }
    (upper(byte) - 55) as u64
}

// A number with one digit more, at most the limit.
fn grown(base: u64, n: u64, digit: u8) -> u64
    requires fact_1 { base ≤ 16 }
    requires fact_2 { n ≤ tick_limit }
    ensures { result ≡ min (base * n + digit_value digit) tick_limit }
{
    (base * n + digit_value(digit)).min(TICK_LIMIT)
}

// The number that digits stand for, at most the limit.
fn value(base: u64, digits: &[u8]) -> u64
    requires { base ≤ 16 }
    ensures { result ≡ value_from base 0 digits.now }
{
    let mut n: u64 = 0;
    for digit in digits {
        n = grown(base, n, *digit);
    }
    n
}

// The tick before a space and a word of four digits.
#[tactic(auto, unfolding(crate::specs::Line::tick_in))]
fn tick_in(line: &[u8]) -> u64
    ensures { result ≡ tick_in line.now }
{
    value(10, &line[..line.len().saturating_sub(5)])
}

#[tactic(auto, unfolding(crate::specs::Line::word_in))]
fn word_in(line: &[u8]) -> u64
    ensures { result ≡ word_in line.now }
{
    value(16, &line[line.len().saturating_sub(4)..])
}

// The tick after "end ".
#[tactic(auto, unfolding(crate::specs::Line::end_in))]
fn end_in(line: &[u8]) -> u64
    ensures { result ≡ end_in line.now }
{
    value(10, &line[line.len().min(4)..])
}

// Whether a line reads as this tick and word.
fn is_timed(line: &[u8], tick: u32, word: u16) -> bool
    ensures { result ≡ is_text line.now (timed_text tick word) }
{
    let mut printed = [0u8; 32];
    let mut writer = Writer::new(&mut printed);
    put_timed(&mut writer, u64::from(tick), word);
    let length = writer.len();
    is_text(line, &printed[..length])
}

// Whether a line reads as this end.
fn is_end(line: &[u8], tick: u32) -> bool
    ensures { result ≡ is_text line.now (end_text tick) }
{
    let mut printed = [0u8; 32];
    let mut writer = Writer::new(&mut printed);
    writer.put_named(b"end ", u64::from(tick));
    let length = writer.len();
    is_text(line, &printed[..length])
}

#[tactic(auto, unfolding(crate::specs::Line::reads_timed))]
fn reads_timed(line: &[u8], tick: u64, word: u64) -> bool
    ensures { result ≡ reads_timed line.now tick word }
{
    if TICK_LIMIT <= tick {
        return false;
    }
    if WORD_LIMIT <= word {
        return false;
    }
    is_timed(line, tick as u32, word as u16)
}

#[tactic(auto, unfolding(crate::specs::Line::reads_end))]
fn reads_end(line: &[u8], tick: u64) -> bool
    ensures { result ≡ reads_end line.now tick }
{
    if TICK_LIMIT <= tick {
        return false;
    }
    is_end(line, tick as u32)
}

// None for a line of any other form.
#[tactic(auto, unfolding(crate::specs::Line::line_of))]
pub fn line_of(line: &[u8]) -> Option<Line>
    ensures { result ≡ line_of line.now }
{
    let tick = tick_in(line);
    let word = word_in(line);
    if reads_timed(line, tick, word) {
        return Some(Line::Word {
            tick: tick as u32,
            word: word as u16,
        });
    }
    let end = end_in(line);
    if reads_end(line, end) {
        return Some(Line::End { tick: end as u32 });
    }
    None
}
