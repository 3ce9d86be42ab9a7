// The last lines of a report: the head at the end, what still moves, and whether all is as the plan says.
ghost use Rattle.std.specs.Prelude.{◌≡◌};
ghost use Rattle.layout.specs.Adds.{Adds};
ghost use Rattle.report.specs.Ending.{same_flags, motion_text, flags_text, end_text, words_text, reading_text, checks_text, ending_text};

use crate::opening::flag_values;
use head::state::{FlagBits, Head, Settings};
use layout::numbers::bit;
use layout::writer::Writer;
use registers::put_settings;

fn same_flags(a: FlagBits, b: FlagBits) -> bool
    ensures { result ≡ same_flags a b }
{
    a == b
}

fn put_flags(writer: &mut Writer<'_>, start: FlagBits, last: FlagBits)
    ensures { Adds writer.old writer.new (flags_text start last) }
{
    let same = bit(same_flags(start, last));
    let values = flag_values(last);
    writer.put_template(
        b"flags    { none|}{| IR time}{| IR word}{| scan}{| VIS time}{| VIS word}",
        &values,
        &values,
    );
    writer.put_template(
        b", {cleared when blocks were due|as at the start}\n",
        &[same],
        &[same],
    );
}

// What moves, and for how many ticks more.
fn put_motion(writer: &mut Writer<'_>, mirror: u16, cover: u16)
    ensures { Adds writer.old writer.new (motion_text mirror cover) }
{
    let m = mirror as u64;
    let c = cover as u64;
    let mirror_moves = bit(m != 0);
    let cover_moves = bit(c != 0);
    writer.put_template(
        b"mirror    {at rest|moves for @@ ticks more, %%%% s; until then the next plan is refused with 1}\n",
        &[mirror_moves, m, m],
        &[],
    );
    writer.put_template(
        b"cover     {at rest|moves for @@@@ ticks more, %%%%% s; until then the next plan is refused with 1}\n",
        &[cover_moves, c, c],
        &[],
    );
}

// What came of a plan: its end, how many of its words there were and were taken, and whether the head's log and settings are those of
// the plan read without words.
#[derive(Clone, Copy)]
pub(crate) struct Outcome {
    pub(crate) end: u32,
    pub(crate) words: usize,
    pub(crate) taken: usize,
    pub(crate) equal: bool,
}

// The end in ticks and seconds, and the settings then, marked where they are others than at the start.
fn put_end(writer: &mut Writer<'_>, end: u32, last: Settings, start: Settings)
    ensures { Adds writer.old writer.new (end_text end last start) }
{
    let ticks = end as u64;
    writer.put_template(
        b"\nend    #######  %%%%%%%%\nsettings at the end; * marks what is new since the start\n",
        &[ticks, ticks],
        &[],
    );
    put_settings(writer, last, start);
}

#[tactic(auto, unfolding(crate::specs::Ending::words_text, crate::specs::Ending::words_template, layout::specs::Numbers::ascii))]
fn put_words(writer: &mut Writer<'_>, taken: usize, words: usize)
    ensures { Adds writer.old writer.new (words_text taken words) }
{
    writer.put_template(
        b"words     @@@ of @@@ taken\n",
        &[taken as u64, words as u64],
        &[],
    );
}

#[tactic(auto, unfolding(crate::specs::Ending::reading_text, crate::specs::Ending::reading_template, layout::specs::Numbers::ascii))]
fn put_reading(writer: &mut Writer<'_>, equal: bool)
    ensures { Adds writer.old writer.new (reading_text equal) }
{
    let which = bit(equal);
    writer.put_template(
        b"reading   acts and settings are {NOT |}those of the plan read without words\n",
        &[which],
        &[],
    );
}

// Whether every word was taken, the flags stand as at the start, and the head did what the plan says.
fn put_checks(writer: &mut Writer<'_>, outcome: Outcome, start: FlagBits, last: FlagBits)
    ensures { Adds writer.old writer.new (checks_text outcome start last) }
{
    put_words(writer, outcome.taken, outcome.words);
    put_flags(writer, start, last);
    put_reading(writer, outcome.equal);
}

pub(crate) fn put_ending(writer: &mut Writer<'_>, start: Head, last: Head, outcome: Outcome)
    ensures { Adds writer.old writer.new (ending_text start last outcome) }
{
    put_end(writer, outcome.end, last.settings, start.settings);
    put_motion(writer, last.motion.mirror, last.motion.cover);
    put_checks(writer, outcome, start.flags, last.flags);
}
