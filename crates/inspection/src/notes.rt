// The lines below a word: why it was ignored, what it does, and what a person who signs the list must see.
ghost use Rattle.std.specs.Prelude.{◌≡◌};
ghost use Rattle.head.specs.Numbers.{outcome_number, is_cause};
ghost use Rattle.layout.specs.Adds.{Adds};
ghost use Rattle.inspection.specs.Notes.{is_exposure, cause_shown, cause_text, effect_shown, effect_text, stopped_task, stop_text, set_case, told_received, set_text, motion_text, effects_text, notes_text};

use head::state::{Head, Motion, Settings};
use head::word::{Act, Cause, Outcome};
use layout::numbers::bit;
use layout::writer::Writer;
use words::{kind_of, kinds};

#[tactic(auto, using(crate::proofs::Outcomes::exposure_taken, crate::proofs::Outcomes::exposure_not))]
pub(crate) fn is_exposure(outcome: Outcome) -> bool
    ensures { result ≡ is_exposure (outcome_number outcome) }
{
    outcome == Outcome::Taken(Act::Exposure)
}

#[tactic(auto, using(crate::proofs::Outcomes::ignored_cause, crate::proofs::Outcomes::taken_none))]
pub(crate) fn is_ignored(outcome: Outcome) -> bool
    ensures { result ≡ is_cause (outcome_number outcome) }
{
    match outcome {
        Outcome::Taken(_) => false,
        Outcome::Ignored(_) => true,
    }
}

// Which rule, and the ticks that it tells.
#[tactic(auto, unfolding(crate::specs::Notes::cause_shown, head::specs::Numbers::outcome_number, head::specs::Numbers::cause_number))]
fn cause_values(outcome: Outcome, busy: u16, cover: u16) -> [u64; 2]
    ensures { result ≡ cause_shown (outcome_number outcome) busy cover }
{
    match outcome {
        Outcome::Taken(_) => [0, 0],
        Outcome::Ignored(Cause::State) => [6, 0],
        Outcome::Ignored(Cause::Busy) | Outcome::Ignored(Cause::CoverMoving) => {
            if 0 < busy {
                [1, busy as u64]
            } else {
                [2, cover as u64]
            }
        }
        Outcome::Ignored(Cause::UnknownWord) => [3, 0],
        Outcome::Ignored(Cause::Range) => [4, 0],
        Outcome::Ignored(Cause::Turn) => [5, 0],
    }
}

// Why a word was ignored, where it was.
fn put_cause(writer: &mut Writer<'_>, outcome: Outcome, busy: u16, cover: u16)
    ensures { Adds writer.old writer.new (cause_text (outcome_number outcome) busy cover) }
{
    let values = cause_values(outcome, busy, cover);
    writer.put_template(
        b"{|                                    the head is busy for @@@@ ticks more and takes only STOP\n\
        |                                    the cover moves for @@@@ ticks more and takes no COVER\n\
        |                                    no kind has this identifier\n\
        |                                    these data are out of the kind's range\n\
        |                                    a mirror word out of turn\n\
        |                                    the state is out of range\n}",
        &values,
        &[],
    );
}

// Which effect, and the numbers that it tells.
#[tactic(auto, unfolding(crate::specs::Notes::effect_shown))]
fn effect_values(kind: u8, bits: u16, settings: Settings, motion: Motion) -> [u64; 5]
    ensures { result ≡ effect_shown kind bits settings motion }
{
    let mirror = u64::from(motion.mirror);
    let cover = u64::from(motion.cover);
    if kind == kinds::VDETCOM_L {
        return [1, u64::from(settings.vdetcom), 0, 0, 0];
    }
    if kind == kinds::VDETADJ_L {
        return [2, u64::from(settings.vdetadj), 0, 0, 0];
    }
    if kind == kinds::COS_L {
        let sine = u64::from(settings.sine);
        return [3, sine, u64::from(settings.cosine), mirror, mirror];
    }
    let switched_on = (kind == kinds::SWITCH) & (bits == 0);
    if switched_on {
        return [4, mirror, mirror, 0, 0];
    }
    if kind == kinds::COVER {
        return [5, cover, cover, 0, 0];
    }
    [0, 0, 0, 0, 0]
}

// What a taken word does beside setting the register of its name.
fn put_effect(writer: &mut Writer<'_>, kind: u8, bits: u16, settings: Settings, motion: Motion)
    ensures { Adds writer.old writer.new (effect_text kind bits settings motion) }
{
    let values = effect_values(kind, bits, settings, motion);
    writer.put_template(
        b"{|                                    VDETCOM ####\n\
        |                                    VDETADJ ####\n\
        |                                    mirror to sine ~~~~~, cosine ####; it moves for @@ ticks, %%%% s\n\
        |                                    the mirror moves for @@ ticks, %%%% s\n\
        |                                    the cover moves for @@@@ ticks, %%%%% s\n}",
        &values,
        &[],
    );
}

// The task that STOP ends before its time, 0 for none.
#[tactic(auto, unfolding(crate::specs::Notes::stopped_task))]
fn stopped(kind: u8, task: u16, busy: u16) -> u64
    ensures { result ≡ stopped_task kind task busy }
{
    let stops = (kind == kinds::STOP) & (0 < busy);
    if stops {
        return task as u64;
    }
    0
}

#[tactic(auto, unfolding(crate::specs::Notes::stop_text, crate::specs::Notes::stop_template, layout::specs::Numbers::ascii))]
fn put_stop(writer: &mut Writer<'_>, kind: u8, task: u16, busy: u16)
    ensures { Adds writer.old writer.new (stop_text kind task busy) }
{
    let values = [stopped(kind, task, busy), busy as u64];
    writer.put_template(
        b"{|                                    the acquisition ends @@@@ ticks early, without blocks\n\
        |                                    housekeeping ends @@@@ ticks early, without blocks\n}",
        &values,
        &[],
    );
}

// The effects of a word that was taken; an ignored one has none.
fn put_effects(writer: &mut Writer<'_>, outcome: Outcome, word: u16, before: Head, after: Head)
    ensures { Adds writer.old writer.new (effects_text (outcome_number outcome) word before after) }
{
    if is_ignored(outcome) {
        return;
    }
    let kind = kind_of(word);
    put_effect(writer, kind, word % 1024, after.settings, after.motion);
    put_stop(writer, kind, before.work.task, before.work.busy);
}

// What became of a set that was begun and not complete.
#[tactic(auto, unfolding(crate::specs::Notes::set_case))]
fn set_case(outcome: Outcome, kind: u8, before: u16, after: u16) -> u64
    ensures { result ≡ set_case (outcome_number outcome) kind before after }
{
    if before == 0 {
        return 0;
    }
    if is_exposure(outcome) {
        return 1;
    }
    if is_ignored(outcome) {
        if after == 0 {
            return 3;
        }
        return 0;
    }
    if kind == kinds::SIN_M {
        return 2;
    }
    0
}

// The words that were received of the set, where there is something to say of it.
#[tactic(auto, unfolding(crate::specs::Notes::told_received))]
fn told_received(which: u64, received: u16) -> u64
    ensures { result ≡ told_received which received }
{
    if which == 0 {
        return 0;
    }
    received as u64
}

#[tactic(auto, unfolding(crate::specs::Notes::set_text, crate::specs::Notes::set_template, layout::specs::Numbers::ascii))]
pub(crate) fn put_set(writer: &mut Writer<'_>, which: u64, received: u16)
    ensures { Adds writer.old writer.new (set_text which received) }
{
    let values = [which, told_received(which, received)];
    writer.put_template(
        b"{|                                    INCOMPLETE MIRROR SET\
        |                                    MIRROR SET BEGUN ANEW\
        |                                    MIRROR SET DROPPED\
        |MIRROR SET LEFT INCOMPLETE}\
        {|; received: SIN M\n|; received: SIN M, SIN L\n|; received: SIN M, SIN L, COS M\n}",
        &values,
        &[],
    );
}

// What moves while an exposure begins, and for how many ticks more.
fn put_motion(writer: &mut Writer<'_>, outcome: Outcome, mirror: u16, cover: u16)
    ensures { Adds writer.old writer.new (motion_text (outcome_number outcome) mirror cover) }
{
    let exposes = is_exposure(outcome);
    let m = mirror as u64;
    let c = cover as u64;
    let mirror_moves = bit(exposes & (0 < mirror));
    let cover_moves = bit(exposes & (0 < cover));
    writer.put_template(
        b"{|                                    THE MIRROR MOVES for @@ ticks more, %%%% s\n}",
        &[mirror_moves, m, m],
        &[],
    );
    writer.put_template(
        b"{|                                    THE COVER MOVES for @@@@ ticks more, %%%%% s\n}",
        &[cover_moves, c, c],
        &[],
    );
}

pub(crate) fn put_notes(
    writer: &mut Writer<'_>,
    outcome: Outcome,
    word: u16,
    before: Head,
    after: Head,
)
    ensures { Adds writer.old writer.new (notes_text (outcome_number outcome) word before after) }
{
    put_cause(writer, outcome, before.work.busy, before.motion.cover);
    put_effects(writer, outcome, word, before, after);
    let which = set_case(
        outcome,
        kind_of(word),
        before.begun.count,
        after.begun.count,
    );
    put_set(writer, which, before.begun.count);
    put_motion(writer, outcome, before.motion.mirror, before.motion.cover);
}
