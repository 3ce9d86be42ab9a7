// A line for each word: its line number in the input, its tick, the word, the outcome, its kind and data; and the notes below it.
ghost use Rattle.std.specs.Prelude.{◌≡◌, ◌+◌, get_or, drop};
ghost use Rattle.head.specs.State.{power_on};
ghost use Rattle.head.specs.Numbers.{outcome_number};
ghost use Rattle.head.specs.List.{stepped};
ghost use Rattle.layout.specs.Adds.{Adds};
ghost use Rattle.inspection.specs.Rows.{tick_text, outcome_text, place_text, saying_text, word_text, words_text};

use crate::meaning::{put_kind, put_meaning};
use crate::notes::{is_exposure, is_ignored, put_notes};
use head::list::gap_after;
use head::state::Head;
use head::word::Outcome;
use layout::numbers::{bit, hex4};
use layout::writer::Writer;
use registers::put_pair;
use timed::TimedList;

// The line of the input on which the first word stands.
const FIRST_LINE: usize = 2;

#[tactic(auto, unfolding(crate::specs::Rows::tick_text, crate::specs::Rows::place_template, layout::specs::Numbers::ascii))]
fn put_tick(writer: &mut Writer<'_>, line: usize, tick: u32)
    ensures { Adds writer.old writer.new (tick_text line tick) }
{
    let values = [line as u64, u64::from(tick)];
    writer.put_template(b"####  ##########  ", &values, &[]);
}

#[tactic(auto, unfolding(crate::specs::Rows::outcome_text, crate::specs::Rows::outcome_template, layout::specs::Numbers::ascii))]
fn put_outcome(writer: &mut Writer<'_>, outcome: Outcome)
    ensures { Adds writer.old writer.new (outcome_text (outcome_number outcome)) }
{
    let values = [bit(is_ignored(outcome)), u64::from(outcome.number())];
    writer.put_template(b"  {taken     |ignored @@}  ", &values, &[]);
}

// Line, tick, word and outcome.
fn put_place(writer: &mut Writer<'_>, line: usize, tick: u32, word: u16, outcome: Outcome)
    ensures { Adds writer.old writer.new (place_text line tick word (outcome_number outcome)) }
{
    put_tick(writer, line, tick);
    writer.put_bytes(&hex4(word));
    put_outcome(writer, outcome);
}

// What a word's data mean; an exposure has the mirror pair that the head then really has, and its length.
#[tactic(auto, unfolding(crate::specs::Rows::saying_text))]
fn put_saying(
    writer: &mut Writer<'_>,
    outcome: Outcome,
    word: u16,
    sine: u16,
    cosine: u16,
    ticks: u16,
)
    ensures { Adds writer.old writer.new (saying_text (outcome_number outcome) word sine cosine ticks) }
{
    if is_exposure(outcome) {
        put_pair(writer, sine, cosine, u32::from(ticks));
        return;
    }
    put_meaning(writer, word);
}

// A word that the head gets.
fn put_word(writer: &mut Writer<'_>, line: usize, tick: u32, word: u16, head: Head)
    ensures { Adds writer.old writer.new (word_text line tick word head) }
{
    let answered = head.word(word);
    let outcome = answered.outcome;
    let after = answered.head;
    put_place(writer, line, tick, word, outcome);
    put_kind(writer, word);
    put_saying(
        writer,
        outcome,
        word,
        after.settings.sine,
        after.settings.cosine,
        after.work.busy,
    );
    put_notes(writer, outcome, word, head, after);
}

// The head after the word of a place and the ticks to the next.
#[tactic(auto, unfolding(head::specs::List::stepped))]
pub(crate) fn next_head(head: Head, word: u16, ticks: &[u32], at: usize) -> Head
    ensures { result ≡ stepped head word (get_or ticks.now at 0) (drop (at + 1) ticks.now) }
{
    head.word(word).head.pass(gap_after(ticks, at))
}

// The words of a list from power-on.
pub(crate) fn put_words(writer: &mut Writer<'_>, list: TimedList)
    ensures { Adds writer.old writer.new (words_text 2 list.entry.words.now list.entry.ticks.now power_on) }
{
    let mut head = Head::power_on();
    for (i, word) in list.words.iter().enumerate() {
        put_word(writer, i + FIRST_LINE, list.ticks[i], *word, head);
        head = next_head(head, *word, list.ticks, i);
    }
}
