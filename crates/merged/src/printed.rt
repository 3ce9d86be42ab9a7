// Two text lists read, merged, and written as one.
ghost use Rattle.std.specs.Prelude.{◌≡◌, false, ◌++◌};
ghost use Rattle.layout.specs.Adds.{Adds};
ghost use Rattle.layout.specs.Written.{Written};
ghost use Rattle.text.specs.Lines.{head_line};
ghost use Rattle.merge.specs.Merge.{share_tick};
ghost use Rattle.merged.specs.Text.{entry_lines, Mergeable, merge_text, merged_text, merged_by, merged_texts_of, merge_texts_error_number, merged_texts_number, merge_texts_number, text_after};

use crate::entries::read_entries;
use crate::lines::put_entry_lines;
use import::reasons::ImportError;
use layout::writer::Writer;
use merge::{merge, merging};
use timed::MOST_WORDS;
use words::groups::{CCD, INFRARED};

// Room for every merged list as text.
pub const LONGEST: usize = 16384;

// The most entries of two lists.
const MOST_MERGED: usize = 2 * MOST_WORDS;

// Why two texts are not merged.
#[derive(Clone, Copy, Debug, PartialEq, Eq)]
pub enum MergeTextsError {
    // A text is no list: whose it is, and why.
    Unread { list: u8, error: ImportError },
    // The same tick stands in both.
    SameTick,
}

impl MergeTextsError {
    // The number of the text's refusal, or request P6's.
    pub fn number(self) -> u8
        ensures { result ≡ merge_texts_error_number self }
    {
        match self {
            MergeTextsError::Unread { list: _, error } => error.number(),
            MergeTextsError::SameTick => 53,
        }
    }
}

// The first line, and the lines of two lists one after the other.
fn put_parts(writer: &mut Writer<'_>, part: &[u64], rest: &[u64])
    ensures { Adds writer.old writer.new (head_line ++ entry_lines part.now ++ entry_lines rest.now) }
{
    writer.put_bytes(b"tick word\n");
    put_entry_lines(writer, part);
    put_entry_lines(writer, rest);
}

// The same from the first place on; the answer is its length.
fn write_parts(part: &[u64], rest: &[u64], out: &mut [u8]) -> usize
    ensures { Written out.old 0 (head_line ++ entry_lines part.now ++ entry_lines rest.now) result out.new }
{
    let mut writer = Writer::new(out);
    put_parts(&mut writer, part, rest);
    writer.len()
}

// The merge of two lists that share no tick: the merged part and the rest.
fn put_merge<'a>(ccd: &'a [u64], infrared: &'a [u64], out: &mut [u8]) -> usize
    requires fact_1 { Mergeable ccd.now infrared.now }
    requires fact_2 { share_tick ccd.now infrared.now ≡ false }
    ensures { Written out.old 0 (merge_text ccd.now infrared.now) result out.new }
{
    let mut merged = [0u64; MOST_MERGED];
    let rest = merge(ccd, infrared, &mut merged);
    let count = ccd.len() + infrared.len() - rest.len();
    write_parts(&merged[..count], rest, out)
}

// The merge of two lists at the front; where they share a tick, nothing is written.
#[tactic(auto, unfolding(crate::specs::Text::merged_by, crate::specs::Text::text_after))]
fn put_lists<'a>(
    ccd: &'a [u64],
    infrared: &'a [u64],
    out: &mut [u8; LONGEST],
) -> Result<usize, MergeTextsError>
    requires { Mergeable ccd.now infrared.now }
    ensures value { result ≡ merged_by ccd.now infrared.now }
    ensures out_after { out.new ≡ text_after result (merge_text ccd.now infrared.now) out.old }
{
    match merging(ccd, infrared, MOST_MERGED) {
        Ok(_) => Ok(put_merge(ccd, infrared, out)),
        Err(_) => Err(MergeTextsError::SameTick),
    }
}

// Reads two lists from text, merges them, and writes the whole merge as text at the front; a refusal writes nothing.
#[tactic(auto, unfolding(crate::specs::Text::merged_texts_of, crate::specs::Text::text_after))]
pub fn merge_texts(
    ccd: &[u8],
    infrared: &[u8],
    out: &mut [u8; LONGEST],
) -> Result<usize, MergeTextsError>
    ensures value { result ≡ merged_texts_of ccd.now infrared.now }
    ensures result_value { merged_texts_number result ≡ merge_texts_number ccd.now infrared.now }
    ensures out_after { out.new ≡ text_after result (merged_text ccd.now infrared.now) out.old }
{
    let mut ccd_list = [0u64; MOST_WORDS];
    let mut infrared_list = [0u64; MOST_WORDS];
    let n = match read_entries(ccd, &mut ccd_list) {
        Ok(n) => n,
        Err(error) => return Err(MergeTextsError::Unread { list: CCD, error }),
    };
    let m = match read_entries(infrared, &mut infrared_list) {
        Ok(m) => m,
        Err(error) => {
            return Err(MergeTextsError::Unread {
                list: INFRARED,
                error,
            });
        }
    };
    put_lists(&ccd_list[..n], &infrared_list[..m], out)
}
