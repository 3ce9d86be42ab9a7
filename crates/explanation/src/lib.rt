// A diagnosis in plain words (document 02, request P7): one line for each case.
#![tactic(auto)]

ghost use Rattle.std.specs.Prelude.{◌≡◌, ◌++◌};
ghost use Rattle.layout.specs.Numbers.{hex_of};
ghost use Rattle.layout.specs.Adds.{Adds};
ghost use Rattle.explanation.specs.Explanation.{seconds_width, wait_text, unknown_text, range_text, turn_text, explanation_text};

use diagnosis::Diagnosis;
use layout::numbers::{bit, hex4};
use layout::writer::Writer;
use names::kind::put_name;

// What the word has to wait for: a number, by which the template chooses.
const HEAD: u64 = 0;

const COVER: u64 = 1;

// Which field has just as many columns as the seconds of these ticks.
#[tactic(auto, unfolding(crate::specs::Explanation::seconds_width))]
fn seconds_width(ticks: u16) -> u64
    ensures { result ≡ seconds_width ticks }
{
    if ticks < 1000 {
        return 0;
    }
    if ticks < 10000 {
        return 1;
    }
    2
}

#[tactic(auto, unfolding(layout::specs::Numbers::ascii, crate::specs::Explanation::wait_text, crate::specs::Explanation::wait_template))]
fn put_wait(writer: &mut Writer<'_>, what: u64, ticks: u16)
    ensures { Adds writer.old writer.new (wait_text what ticks) }
{
    let n = ticks as u64;
    let values = [what, n, bit(ticks == 1), seconds_width(ticks), n, what];
    writer.put_template(
        b"{the head is busy|the cover moves}: @@@@@ tick{s|} left, {%%%%|%%%%%|%%%%%%} s; {only STOP|no COVER} is taken\n",
        &values,
        &[],
    );
}

// A word after what is said of it.
fn put_word(writer: &mut Writer<'_>, before: &[u8], word: u16)
    ensures { Adds writer.old writer.new (before.now ++ hex_of word) }
{
    writer.put_bytes(before);
    writer.put_bytes(&hex4(word));
}

fn put_unknown(writer: &mut Writer<'_>, word: u16)
    ensures { Adds writer.old writer.new (unknown_text word) }
{
    put_word(writer, b"no kind has the identifier of word ", word);
    writer.put_byte(b'\n');
}

fn put_out_of_range(writer: &mut Writer<'_>, word: u16, kind: u8)
    ensures { Adds writer.old writer.new (range_text word kind) }
{
    put_word(writer, b"the data of word ", word);
    writer.put_bytes(b" are out of the range of ");
    put_name(writer, kind);
    writer.put_byte(b'\n');
}

fn put_out_of_turn(writer: &mut Writer<'_>, due: u8)
    ensures { Adds writer.old writer.new (turn_text due) }
{
    writer.put_bytes(b"a mirror word out of turn: ");
    put_name(writer, due);
    writer.put_bytes(b" was due\n");
}

// The line of a diagnosis.
#[tactic(auto, unfolding(layout::specs::Numbers::ascii, crate::specs::Explanation::explanation_text))]
pub fn put_explanation(writer: &mut Writer<'_>, diagnosis: Diagnosis)
    ensures { Adds writer.old writer.new (explanation_text diagnosis) }
{
    match diagnosis {
        Diagnosis::Taken => writer.put_bytes(b"taken\n"),
        Diagnosis::StateOutOfRange => writer.put_bytes(b"the state is out of range\n"),
        Diagnosis::HeadBusy(ticks) => put_wait(writer, HEAD, ticks),
        Diagnosis::CoverMoves(ticks) => put_wait(writer, COVER, ticks),
        Diagnosis::UnknownIdentifier(word) => put_unknown(writer, word),
        Diagnosis::DataOutOfRange { word, kind } => put_out_of_range(writer, word, kind),
        Diagnosis::OutOfTurn { due } => put_out_of_turn(writer, due),
    }
}
