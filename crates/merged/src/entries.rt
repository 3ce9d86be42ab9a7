// The entries of a text list: each is one number, tick x 65,536 + word.
ghost use Rattle.std.specs.Prelude.{◌≡◌, ◌+◌, ◌*◌, length, take};
ghost use Rattle.import.specs.Read.{import_of, import_count};
ghost use Rattle.merged.specs.Text.{entries, entries_in};

use import::read::read_list;
use import::reasons::ImportError;
use timed::MOST_WORDS;

fn entry_of(tick: u32, word: u16) -> u64
    ensures { result ≡ tick * 65536 + word }
{
    u64::from(tick) * 65536 + u64::from(word)
}

// Ticks and words as entries.
fn pack(ticks: &[u32], words: &[u16], list: &mut [u64])
    requires fact_1 { length words.now ≡ length ticks.now }
    requires fact_2 { length list.old ≡ length ticks.now }
    ensures { list.new ≡ entries ticks.now words.now }
{
    for (i, tick) in ticks.iter().enumerate() {
        list[i] = entry_of(*tick, words[i]);
    }
}

// Reads a list from text, and leaves its entries in the first places.
pub(crate) fn read_entries(text: &[u8], list: &mut [u64; MOST_WORDS]) -> Result<usize, ImportError>
    ensures value { result ≡ import_of text.now }
    ensures list_after { take (import_count result) list.new ≡ entries_in text.now }
{
    let mut words = [0u16; MOST_WORDS];
    let mut ticks = [0u32; MOST_WORDS];
    let read = read_list(text, &mut words, &mut ticks);
    pack(&ticks, &words, list);
    read
}
