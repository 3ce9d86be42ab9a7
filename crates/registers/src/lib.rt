// The settings of a head in groups, each value marked where it is another one than before.
#![tactic(auto)]

ghost use Rattle.std.specs.Prelude.{◌≡◌, ◌*◌};
ghost use Rattle.words.specs.Fields.{on as Fields·on, current as Fields·current};
ghost use Rattle.head.specs.Limits.{step_ticks};
ghost use Rattle.layout.specs.Adds.{Adds};
ghost use Rattle.registers.specs.Settings.{mirror_shown, ir_shown, ccd_shown, lamps_shown, mirror_text, ir_text, ccd_text, lamps_text, settings_text, pair_text};

use head::state::{Head, Settings};
use layout::writer::Writer;

// The ticks of a delay or an exposure.
fn in_ticks(steps: u16) -> u64
    ensures { result ≡ step_ticks * steps }
{
    Head::STEP_TICKS as u64 * u64::from(steps)
}

// Bit 0 of a lamp, the shutter or the annealing, and the current or limit above it.
fn on(register: u16) -> u64
    ensures { result ≡ Fields·on register }
{
    u64::from(register % 2)
}

fn current(register: u16) -> u64
    ensures { result ≡ Fields·current register }
{
    u64::from(register / 2)
}

#[tactic(auto, unfolding(crate::specs::Settings::mirror_shown))]
fn mirror_values(s: Settings) -> [u64; 4]
    ensures { result ≡ mirror_shown s }
{
    [
        u64::from(s.sine),
        u64::from(s.cosine),
        u64::from(s.switch),
        u64::from(s.direction),
    ]
}

fn put_mirror(writer: &mut Writer<'_>, s: Settings, before: Settings)
    ensures { Adds writer.old writer.new (mirror_text s before) }
{
    writer.put_template(
        b"        mirror, motor       sine ^~~~~~   cosine ^####   motor ^{on|off}\n        \
        cover               direction ^{close|open}\n",
        &mirror_values(s),
        &mirror_values(before),
    );
}

#[tactic(auto, unfolding(crate::specs::Settings::ir_shown))]
fn ir_values(s: Settings) -> [u64; 6]
    ensures { result ≡ ir_shown s }
{
    [
        u64::from(s.detector),
        u64::from(s.mode),
        u64::from(s.vdetcom),
        u64::from(s.vdetadj),
        in_ticks(s.irdelay),
        in_ticks(s.irexpo),
    ]
}

fn put_ir(writer: &mut Writer<'_>, s: Settings, before: Settings)
    ensures { Adds writer.old writer.new (ir_text s before) }
{
    writer.put_template(
        b"        IR                  detector ^{off|on }   window mode ^{full   |reduced}   VDETCOM ^####   VDETADJ ^####\n                            \
        delay ^%%%%% s   exposure ^%%%%% s\n",
        &ir_values(s),
        &ir_values(before),
    );
}

#[tactic(auto, unfolding(crate::specs::Settings::ccd_shown))]
fn ccd_values(s: Settings) -> [u64; 6]
    ensures { result ≡ ccd_shown s }
{
    [
        in_ticks(s.ccddelay),
        in_ticks(s.ccdexpo),
        u64::from(s.x1),
        u64::from(s.y1),
        u64::from(s.x2),
        u64::from(s.y2),
    ]
}

fn put_ccd(writer: &mut Writer<'_>, s: Settings, before: Settings)
    ensures { Adds writer.old writer.new (ccd_text s before) }
{
    writer.put_template(
        b"        CCD                 delay ^%%%%% s   exposure ^%%%%% s   window ^#### ^#### ^#### ^####\n",
        &ccd_values(s),
        &ccd_values(before),
    );
}

#[tactic(auto, unfolding(crate::specs::Settings::lamps_shown))]
fn lamp_values(s: Settings) -> [u64; 8]
    ensures { result ≡ lamps_shown s }
{
    [
        on(s.ccdlamp),
        current(s.ccdlamp),
        on(s.irlamp),
        current(s.irlamp),
        on(s.shutter),
        current(s.shutter),
        on(s.annealing),
        current(s.annealing),
    ]
}

fn put_lamps(writer: &mut Writer<'_>, s: Settings, before: Settings)
    ensures { Adds writer.old writer.new (lamps_text s before) }
{
    writer.put_template(
        b"        lamps               CCD lamp ^{off|on }  current ^#   IR lamp ^{off|on }  current ^##\n        \
        shutter, annealing  shutter ^{open  |closed}  current ^##   annealing ^{off|on }  limit ^##\n",
        &lamp_values(s),
        &lamp_values(before),
    );
}

// All groups, one after another.
pub fn put_settings(writer: &mut Writer<'_>, s: Settings, before: Settings)
    ensures { Adds writer.old writer.new (settings_text s before) }
{
    put_mirror(writer, s, before);
    put_ir(writer, s, before);
    put_ccd(writer, s, before);
    put_lamps(writer, s, before);
}

// The mirror pair of an exposure and its length in seconds.
#[tactic(auto, unfolding(crate::specs::Settings::pair_text, crate::specs::Settings::pair_template, layout::specs::Numbers::ascii))]
pub fn put_pair(writer: &mut Writer<'_>, sine: u16, cosine: u16, ticks: u32)
    ensures { Adds writer.old writer.new (pair_text sine cosine ticks) }
{
    let values = [u64::from(sine), u64::from(cosine), u64::from(ticks)];
    writer.put_template(
        b"exposure: sine ~~~~~, cosine ####, length %%%%% s\n",
        &values,
        &values,
    );
}
