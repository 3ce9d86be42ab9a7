// The first lines of a report: the plan, and the state from which it was computed.
ghost use Rattle.std.specs.Prelude.{◌≡◌};
ghost use Rattle.layout.specs.Adds.{Adds};
ghost use Rattle.head.specs.Row.{numbers_of};
ghost use Rattle.head.specs.State.{power_on};
ghost use Rattle.run.specs.Compare.{same};
ghost use Rattle.report.specs.Opening.{flags_shown, plan_text, start_text, opening_text};

use head::state::{FlagBits, Head, Settings};
use layout::numbers::bit;
use layout::writer::Writer;
use registers::put_settings;

// Whether a flag is raised, and the five flags.
#[tactic(auto, unfolding(crate::specs::Opening::flags_shown))]
pub(crate) fn flag_values(flags: FlagBits) -> [u64; 6]
    ensures { result ≡ flags_shown flags }
{
    let ir = (flags.irtime == 0) & (flags.irword == 0) & (flags.scan == 0);
    let none = ir & (flags.vistime == 0) & (flags.visword == 0);
    let raised = bit(!none);
    [
        raised,
        flags.irtime as u64,
        flags.irword as u64,
        flags.scan as u64,
        flags.vistime as u64,
        flags.visword as u64,
    ]
}

fn is_power_on(head: Head) -> bool
    ensures { result ≡ same (numbers_of head) (numbers_of power_on) }
{
    head.numbers() == Head::power_on().numbers()
}

#[derive(Clone, Copy)]
pub(crate) struct Counts {
    pub(crate) bytes: usize,
    pub(crate) orders: usize,
    pub(crate) words: usize,
}

// The counts of the plan, whether the state that was given is power-on, and the ticks until it was idle and at rest.
#[tactic(auto, unfolding(crate::specs::Opening::plan_text, crate::specs::Opening::plan_template, layout::specs::Numbers::ascii))]
fn put_plan(writer: &mut Writer<'_>, counts: Counts, on: bool, rest: u32)
    ensures { Adds writer.old writer.new (plan_text counts on rest) }
{
    let which = bit(on);
    let values = [
        counts.bytes as u64,
        counts.orders as u64,
        counts.words as u64,
        which,
        rest as u64,
        rest as u64,
    ];
    writer.put_template(
        b"plan      @@@ bytes, @@ orders, @@@ words\n\
        start     {the state that was left before|power-on}\n\
        passed    @@@@ ticks, %%%%% s, until the head was idle and nothing moved\n",
        &values,
        &values,
    );
}

// Flags and settings of the state then, and the titles of the columns.
fn put_start(writer: &mut Writer<'_>, flags: FlagBits, settings: Settings)
    ensures { Adds writer.old writer.new (start_text flags settings) }
{
    let raised = flag_values(flags);
    writer.put_template(
        b"flags    { none|}{| IR time}{| IR word}{| scan}{| VIS time}{| VIS word}\nsettings at the start\n",
        &raised,
        &raised,
    );
    put_settings(writer, settings, settings);
    writer.put_template(
        b"\norder     tick   seconds  what the head does; * marks what is new since the exposure before\n",
        &[],
        &[],
    );
}

// The counts of the plan, the state that was given, the ticks until it was idle and at rest, and the state then.
pub(crate) fn put_opening(
    writer: &mut Writer<'_>,
    counts: Counts,
    given: Head,
    rest: u32,
    start: Head,
)
    ensures { Adds writer.old writer.new (opening_text counts given rest start) }
{
    let on = is_power_on(given);
    put_plan(writer, counts, on, rest);
    put_start(writer, start.flags, start.settings);
}
