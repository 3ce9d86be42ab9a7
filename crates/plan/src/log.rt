// A log of acts as rows of 21 numbers, laid one after another.
ghost use Rattle.std.specs.Prelude.{◌≡◌, ◌∷◌, ◌*◌};
ghost use Rattle.std.proofs.lemmas.List.Edits.{sets};
ghost use Rattle.plan.specs.Reading.{request, cover_move};
ghost use Rattle.plan.specs.Rows.{settings_row, entry_row};

use head::state::Settings;

// The numbers of a row.
pub const ROW: usize = 21;

// What a row begins with: the settings at the end, or the act. A number, since a row is one of numbers.
pub const END: u16 = 0;

pub const EXPOSURE: u16 = 1;

pub const REQUEST: u16 = 2;

pub const COVER_MOVE: u16 = 3;

// The registers after a first number.
#[tactic(auto, unfolding(crate::specs::Rows::settings_row))]
pub fn settings_row(first: u16, settings: Settings) -> [u16; 21]
    ensures { result ≡ first ∷ settings_row settings }
{
    let mut row = [first; ROW];
    row[1..].copy_from_slice(&settings.numbers());
    row
}

#[tactic(auto, unfolding(crate::specs::Rows::entry_row))]
pub fn request_row() -> [u16; 21]
    ensures { result ≡ entry_row request }
{
    let mut row = [0u16; 21];
    row[0] = REQUEST;
    row
}

#[tactic(auto, unfolding(crate::specs::Rows::entry_row))]
pub fn cover_row(direction: u16, wave: u16, sensors: u16, steps: u16) -> [u16; 21]
    ensures { result ≡ entry_row (cover_move direction wave sensors steps) }
{
    let mut row = [0u16; 21];
    row[0] = COVER_MOVE;
    row[1] = direction;
    row[2] = wave;
    row[3] = sensors;
    row[4] = steps;
    row
}

// The kth row of a record; what lies past its end is not written.
pub fn lay(rows: &mut [u16], k: usize, row: [u16; 21])
    ensures { rows.new ≡ sets rows.old (21 * k) row }
{
    if rows.len() / ROW < k {
        return;
    }
    let from = ROW * k;
    // A loop: a `copy_from_slice` of a length that is not known would make the archive of the texts need `memcpy` from outside.
    for i in 0..ROW {
        if rows.len() <= from + i {
            return;
        }
        rows[from + i] = row[i];
    }
}
