// Why a word did nothing: a diagnosis packed into one number.
ghost use Rattle.std.specs.Prelude.{◌≡◌, ◌≤◌};
ghost use Rattle.interface.specs.Why.{detail_bits, packed_why, why_answer};

use crate::{answers, state};
use diagnosis::{Diagnosis, diagnose};

// Set where 22 is the moving cover.
pub const COVER_BIT: u32 = 0x80000000;

// What stands from bit 8 on.
fn detail_bits(diagnosis: Diagnosis) -> u32
    ensures fact_1 { result ≡ detail_bits diagnosis }
    ensures fact_2 { result ≤ 0x80FFFF00 }
{
    match diagnosis {
        Diagnosis::Taken => 0,
        Diagnosis::StateOutOfRange => 0,
        Diagnosis::HeadBusy(ticks) => 0x100 * u32::from(ticks),
        Diagnosis::CoverMoves(ticks) => COVER_BIT + 0x100 * u32::from(ticks),
        Diagnosis::UnknownIdentifier(word) => 0x100 * u32::from(word),
        Diagnosis::DataOutOfRange { word, kind: _ } => 0x100 * u32::from(word),
        Diagnosis::OutOfTurn { due } => 0x100 * u32::from(due),
    }
}

pub fn packed_why(diagnosis: Diagnosis) -> u32
    ensures { result ≡ packed_why diagnosis }
{
    u32::from(diagnosis.number()) + detail_bits(diagnosis)
}

// What becomes of a word that the head in this state gets, and why.
pub fn shabgozim_why(state: &[u16], word: u16) -> u32
    ensures { result ≡ why_answer state.now word }
{
    if !state::well_formed(state) {
        return answers::state_refused();
    }
    packed_why(diagnose(state::load(state), word))
}
