// What the head does, by the row of its log: an exposure with its settings, a housekeeping request, a cover move.
ghost use Rattle.std.specs.Prelude.{◌≡◌, length};
ghost use Rattle.plan.specs.Reading.{exposure};
ghost use Rattle.layout.specs.Adds.{Adds};
ghost use Rattle.report.specs.Acts.{exposure_text, cover_text, entry_text};
ghost use Rattle.report.specs.Read.{row_settings, row_entry};

use head::apply::acquisition_ticks;
use head::state::{Head, Settings};
use layout::writer::Writer;
use plan::log::{EXPOSURE, REQUEST};
use registers::{put_pair, put_settings};

// The twenty registers of a row.
pub(crate) fn settings_of(row: &[u16]) -> Settings
    requires { length row.now ≡ 21 }
    ensures { result ≡ row_settings row.now }
{
    let mut numbers = [0; 20];
    numbers.copy_from_slice(&row[1..]);
    Settings::from(numbers)
}

// The mirror pair and the length first, then all settings, marked where they are others than before.
fn put_exposure(writer: &mut Writer<'_>, s: Settings, before: Settings)
    ensures { Adds writer.old writer.new (exposure_text s before) }
{
    let ticks = acquisition_ticks(s.mode, s.irdelay, s.irexpo, s.ccddelay, s.ccdexpo);
    put_pair(writer, s.sine, s.cosine, ticks);
    put_settings(writer, s, before);
}

#[tactic(auto, unfolding(crate::specs::Acts::cover_text, crate::specs::Acts::cover_template, layout::specs::Numbers::ascii))]
fn put_cover_move(writer: &mut Writer<'_>, direction: u16, wave: u16, sensors: u16, steps: u16)
    ensures { Adds writer.old writer.new (cover_text direction wave sensors steps) }
{
    let ticks = Head::COVER_STEP_TICKS as u64 * steps as u64;
    let values = [
        direction as u64,
        wave as u64,
        sensors as u64,
        steps as u64,
        ticks,
        ticks,
    ];
    writer.put_template(
        b"cover {close|open}, {half|one} wave, sensors {disabled|enabled}, @@ steps: @@@@ ticks, %%%%% s\n",
        &values,
        &values,
    );
}

// What a row says.
#[tactic(auto, unfolding(crate::specs::Acts::entry_text, crate::specs::Acts::request_template, crate::specs::Read::row_entry, layout::specs::Numbers::ascii))]
pub(crate) fn put_act(writer: &mut Writer<'_>, row: &[u16], before: Settings)
    requires { length row.now ≡ 21 }
    ensures { Adds writer.old writer.new (entry_text (row_entry row.now) before) }
{
    let kind = row[0];
    if kind == EXPOSURE {
        put_exposure(writer, settings_of(row), before);
        return;
    }
    if kind == REQUEST {
        writer.put_template(b"housekeeping\n", &[], &[]);
        return;
    }
    put_cover_move(writer, row[1], row[2], row[3], row[4]);
}
