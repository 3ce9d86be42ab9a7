// The inspection of a list that is given to a head at power-on.
ghost use Rattle.std.specs.Prelude.{◌≡◌, length};
ghost use Rattle.head.specs.State.{power_on};
ghost use Rattle.head.specs.List.{head_listed};
ghost use Rattle.layout.specs.Adds.{Adds};
ghost use Rattle.layout.specs.Written.{Written};
ghost use Rattle.inspection.specs.Inspection.{title_text, left_text, last_settings, counts_text, end_text, counts_of, inspection_text, inspected_of, inspection_after, inspect_error_number};

use crate::counts::{Counts, count_words};
use crate::notes::put_set;
use crate::rows::put_words;
use head::state::{Head, Settings};
use layout::writer::Writer;
use registers::put_settings;
use timed::{MOST_WORDS, TimedList};

// Room for the inspection of every list.
pub const LONGEST: usize = 262144;

// The length of the text, and what was counted.
#[derive(Clone, Copy, Debug, PartialEq, Eq)]
pub struct Inspection {
    pub length: usize,
    pub counts: Counts,
}

// Why there is no inspection: words and ticks make no list.
#[derive(Clone, Copy, Debug, PartialEq, Eq)]
pub enum InspectError {
    NoList,
}

impl InspectError {
    // Request P1's number.
    #[tactic(auto, unfolding(head::specs::List::list_error_number))]
    pub fn number(self) -> u8
        ensures { result ≡ inspect_error_number self }
    {
        match self {
            InspectError::NoList => 31,
        }
    }
}

// The head after a list.
fn last_head(list: TimedList) -> Head
    ensures { result ≡ head_listed list.entry.words.now list.entry.ticks.now power_on }
{
    let mut outcomes = [0u16; MOST_WORDS];
    Head::power_on()
        .list(list.words, list.ticks, &mut outcomes)
        .head
}

#[tactic(auto, unfolding(crate::specs::Inspection::counts_text, crate::specs::Inspection::counts_template, layout::specs::Numbers::ascii))]
fn put_counts(writer: &mut Writer<'_>, words: usize, counts: Counts)
    ensures { Adds writer.old writer.new (counts_text words counts) }
{
    let values = [
        words as u64,
        u64::from(counts.ignored),
        u64::from(counts.exposures),
        u64::from(counts.incomplete),
        u64::from(counts.moving),
    ];
    writer.put_template(
        b"words @@@, ignored @@@, exposures @@@, with an incomplete mirror set @@@, while something moved @@@\n",
        &values,
        &[],
    );
}

// A set that the list leaves incomplete.
#[tactic(auto, unfolding(crate::specs::Inspection::left_text))]
fn put_left(writer: &mut Writer<'_>, received: u16)
    ensures { Adds writer.old writer.new (left_text received) }
{
    if received == 0 {
        put_set(writer, 0, received);
        return;
    }
    put_set(writer, 4, received);
}

// The settings at the end, marked where they are others than at power-on.
fn put_last_settings(writer: &mut Writer<'_>, last: Settings, start: Settings)
    ensures { Adds writer.old writer.new (last_settings last start) }
{
    writer.put_template(
        b"\nsettings at the end; * marks what is new since power-on\n",
        &[],
        &[],
    );
    put_settings(writer, last, start);
}

fn put_end(writer: &mut Writer<'_>, last: Head, words: usize, counts: Counts)
    ensures { Adds writer.old writer.new (end_text last words counts) }
{
    put_left(writer, last.begun.count);
    put_last_settings(writer, last.settings, Head::power_on().settings);
    put_counts(writer, words, counts);
}

// The same for the head after a list.
fn put_listed_end(writer: &mut Writer<'_>, list: TimedList, counts: Counts)
    ensures { Adds writer.old writer.new (end_text (head_listed list.entry.words.now list.entry.ticks.now power_on) (length list.entry.words.now) counts) }
{
    put_end(writer, last_head(list), list.words.len(), counts);
}

#[tactic(auto, unfolding(crate::specs::Inspection::title_text, crate::specs::Inspection::title_template, layout::specs::Numbers::ascii))]
fn put_title(writer: &mut Writer<'_>)
    ensures { Adds writer.old writer.new title_text }
{
    writer.put_template(
        b"line        tick  word  outcome     kind         what its data mean, and what the head does\n",
        &[],
        &[],
    );
}

fn put_inspection(writer: &mut Writer<'_>, list: TimedList, counts: Counts)
    requires { counts ≡ counts_of list.words.now list.ticks.now }
    ensures { Adds writer.old writer.new (inspection_text list.entry.words.now list.entry.ticks.now) }
{
    put_title(writer);
    put_words(writer, list);
    put_listed_end(writer, list, counts);
}

// The whole text from the first place on, as far as there is room for it; the answer is its length.
fn write_inspection(out: &mut [u8], list: TimedList, counts: Counts) -> usize
    requires { counts ≡ counts_of list.words.now list.ticks.now }
    ensures { Written out.old 0 (inspection_text list.entry.words.now list.entry.ticks.now) result out.new }
{
    let mut writer = Writer::new(out);
    put_inspection(&mut writer, list, counts);
    writer.len()
}

// Inspects a list, and writes its text from the first place on, as far as there is room for it. A refusal writes nothing.
#[tactic(auto, unfolding(crate::specs::Inspection::inspected_of, crate::specs::Inspection::inspection_after))]
pub fn inspect(words: &[u16], ticks: &[u32], out: &mut [u8]) -> Result<Inspection, InspectError>
    ensures value { result ≡ inspected_of words.now ticks.now (length out.old) }
    ensures out_after { out.new ≡ inspection_after result (inspection_text words.now ticks.now) out.old }
{
    let Some(list) = TimedList::new(words, ticks) else {
        return Err(InspectError::NoList);
    };
    let counts = count_words(list);
    let length = write_inspection(out, list, counts);
    Ok(Inspection { length, counts })
}
