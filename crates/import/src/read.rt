// A list read from text: the line that names the columns, a line for each word, and the end, which may be missing.
ghost use Rattle.std.specs.Prelude.{◌≡◌, map, ◌≤◌, ◌<◌, length, set};
ghost use Rattle.std.proofs.lemmas.List.Edits.{sets};
ghost use Rattle.import.specs.Read.{most_bytes, read_of, import_of, import_into, word_of, tick_of, word_lines_in, words_in, ticks_in, import_after};

use crate::line::{Line, line_of};
use crate::progress::Progress;
use crate::reasons::{ImportError, Reason};
use crate::split::{Lines, line_count};

// The most bytes of a text.
pub const MOST_BYTES: usize = 8192;

// Reads every line.
fn judge(text: &[u8]) -> Progress
    requires { length text.now ≤ most_bytes }
    ensures { result ≡ read_of text.now }
{
    let mut progress = Progress::begin();
    for line in (Lines { rest: text }) {
        progress = progress.judged(line);
    }
    progress
}

// The answer alone.
#[tactic(auto, unfolding(crate::specs::Read::import_of))]
fn checked(text: &[u8]) -> Result<usize, ImportError>
    ensures { result ≡ import_of text.now }
{
    if MOST_BYTES < text.len() {
        return Err(ImportError::Refused {
            reason: Reason::TooLong,
            line: line_count(&text[..MOST_BYTES + 1]),
        });
    }
    judge(text).answer()
}

fn word_of(line: Option<Line>) -> u16
    ensures { result ≡ word_of line }
{
    match line {
        Some(Line::Word { tick: _, word }) => word,
        _ => 0,
    }
}

fn tick_of(line: Option<Line>) -> u32
    ensures { result ≡ tick_of line }
{
    match line {
        Some(Line::Word { tick, word: _ }) => tick,
        _ => 0,
    }
}

// The word and tick of a line at a place.
fn put_line(words: &mut [u16], ticks: &mut [u32], i: usize, line: Option<Line>)
    requires fact_1 { i < length words.old }
    requires fact_2 { i < length ticks.old }
    ensures words_after { words.new ≡ set words.old i (word_of line) }
    ensures ticks_after { ticks.new ≡ set ticks.old i (tick_of line) }
{
    words[i] = word_of(line);
    ticks[i] = tick_of(line);
}

// The words and ticks of so many lines after the first.
fn fill(text: &[u8], count: usize, words: &mut [u16], ticks: &mut [u32])
    requires fact_1 { count ≤ length words.old }
    requires fact_2 { count ≤ length ticks.old }
    ensures words_after { words.new ≡ sets words.old 0 (map word_of (word_lines_in count text.now)) }
    ensures ticks_after { ticks.new ≡ sets ticks.old 0 (map tick_of (word_lines_in count text.now)) }
{
    let mut lines = Lines { rest: text };
    let _head = lines.next();
    for i in 0..count {
        let Some(line) = lines.next() else {
            return;
        };
        put_line(words, ticks, i, line_of(line));
    }
}

// Reads a list from text into two lent buffers. A refusal writes nothing, and success fills the first places only.
#[tactic(auto, unfolding(crate::specs::Read::import_into, crate::specs::Read::with_room, crate::specs::Read::import_after, crate::specs::Read::words_in, crate::specs::Read::ticks_in))]
pub fn read_list(text: &[u8], words: &mut [u16], ticks: &mut [u32]) -> Result<usize, ImportError>
    ensures value { result ≡ import_into text.now (length words.old) (length ticks.old) }
    ensures words_after { words.new ≡ import_after result (words_in text.now) words.old }
    ensures ticks_after { ticks.new ≡ import_after result (ticks_in text.now) ticks.old }
{
    let count = checked(text)?;
    let fits = (count <= words.len()) & (count <= ticks.len());
    if !fits {
        return Err(ImportError::Short { count });
    }
    fill(text, count, words, ticks);
    Ok(count)
}
