// What the inspect program prints for the bytes that it reads.
ghost use Rattle.std.specs.Prelude.{◌≡◌, true, ◌≤◌, length, take};
ghost use Rattle.timed.specs.List.{is_list};
ghost use Rattle.layout.specs.Written.{Front};
ghost use Rattle.import.specs.Read.{import_of, import_count, words_in, ticks_in};
ghost use Rattle.inspection.specs.Inspection.{inspection_text};
ghost use Rattle.imported.specs.Printed.{printed_for};

use crate::refusal::put_refusal;
use import::read::read_list;
use import::reasons::ImportError;
use inspection::inspection::{LONGEST, inspect};
use layout::writer::Writer;
use timed::MOST_WORDS;

// The text of the inspection of a list; the answer is its length.
fn inspected(words: &[u16], ticks: &[u32], out: &mut [u8; LONGEST]) -> usize
    requires { is_list words.now ticks.now ≡ true }
    ensures { Front out.old (inspection_text words.now ticks.now) result out.new }
{
    match inspect(words, ticks, out) {
        Ok(inspection) => inspection.length,
        Err(_) => 0,
    }
}

// The same of the first places of two buffers.
fn inspected_first(words: &[u16], ticks: &[u32], count: usize, out: &mut [u8; LONGEST]) -> usize
    requires fact_1 { count ≤ length words.now }
    requires fact_2 { count ≤ length ticks.now }
    requires fact_3 { is_list (take count words.now) (take count ticks.now) ≡ true }
    ensures { Front out.old (inspection_text (take count words.now) (take count ticks.now)) result out.new }
{
    inspected(&words[..count], &ticks[..count], out)
}

// Reads a list into two buffers with room for every list.
fn read_whole(
    text: &[u8],
    words: &mut [u16; MOST_WORDS],
    ticks: &mut [u32; MOST_WORDS],
) -> Result<usize, ImportError>
    ensures value { result ≡ import_of text.now }
    ensures words_after { take (import_count result) words.new ≡ words_in text.now }
    ensures ticks_after { take (import_count result) ticks.new ≡ ticks_in text.now }
{
    read_list(text, words, ticks)
}

// The text for a text list, which is read into two buffers.
fn printed_over(
    text: &[u8],
    words: &mut [u16; MOST_WORDS],
    ticks: &mut [u32; MOST_WORDS],
    out: &mut [u8; LONGEST],
) -> usize
    ensures { Front out.old (printed_for text.now) result out.new }
{
    match read_whole(text, words, ticks) {
        Ok(count) => inspected_first(words, ticks, count, out),
        Err(ImportError::Refused { reason, line }) => {
            let mut writer = Writer::new(out);
            put_refusal(&mut writer, reason.number(), line);
            writer.len()
        }
        Err(ImportError::Short { count: _ }) => 0,
    }
}

// The text for a text list; the answer is its length.
pub fn printed(text: &[u8], out: &mut [u8; LONGEST]) -> usize
    ensures { Front out.old (printed_for text.now) result out.new }
{
    let mut words = [0u16; MOST_WORDS];
    let mut ticks = [0u32; MOST_WORDS];
    printed_over(text, &mut words, &mut ticks, out)
}
