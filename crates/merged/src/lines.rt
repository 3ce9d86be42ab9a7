// Entries as the lines of a text list.
ghost use Rattle.layout.specs.Adds.{Adds};
ghost use Rattle.text.specs.Lines.{word_line};
ghost use Rattle.merge.specs.Merge.{tick_in, word_in};
ghost use Rattle.merged.specs.Text.{entry_lines};

use layout::writer::Writer;
use merge::tick_in;
use text::lines::put_timed_line;

fn put_entry_line(writer: &mut Writer<'_>, entry: u64)
    ensures { Adds writer.old writer.new (word_line (tick_in entry) (word_in entry)) }
{
    let word = (entry % 65536) as u16;
    put_timed_line(writer, tick_in(entry), word);
}

// A line for each entry.
pub fn put_entry_lines(writer: &mut Writer<'_>, entries: &[u64])
    ensures { Adds writer.old writer.new (entry_lines entries.now) }
{
    for entry in entries {
        put_entry_line(writer, *entry);
    }
}
