// Which kinds of word are applied in each phase (document 01's grid).
ghost use Rattle.std.specs.Prelude.{◌≡◌};
ghost use Rattle.head.specs.Grid.{phase_of, applies};

use crate::state::Head;
use words::kinds::KINDS;

pub const IDLE: usize = 0;
// Idle with the cover moving.
pub const MOVING: usize = 1;

pub const BUSY: usize = 2;

// 1 applies the word, 0 ignores it. Small numbers in an array for each phase, as document 01 names the form:
//
// | phase                      | applied       | ignored      |
// |----------------------------|---------------|--------------|
// | idle                       | all 28 kinds  | none         |
// | idle with the cover moving | all but COVER | COVER        |
// | busy                       | STOP          | all but STOP |
const GRID: [[u8; 28]; 3] = [
    // idle
    [
        1, // NOP
        1, // START
        1, // HK
        1, // STOP
        1, // IR DETECTOR
        1, // IR WIN MODE
        1, // VDETCOM M
        1, // VDETCOM L
        1, // VDETADJ M
        1, // VDETADJ L
        1, // IR DELAY
        1, // IR EXPO
        1, // WIN X1
        1, // WIN Y1
        1, // WIN X2
        1, // WIN Y2
        1, // CCD DELAY
        1, // CCD EXPO
        1, // CCD LAMP
        1, // IR LAMP
        1, // SHUTTER
        1, // ANNEALING
        1, // SIN M
        1, // SIN L
        1, // COS M
        1, // COS L
        1, // SWITCH
        1, // COVER
    ],
    // idle with the cover moving
    [
        1, // NOP
        1, // START
        1, // HK
        1, // STOP
        1, // IR DETECTOR
        1, // IR WIN MODE
        1, // VDETCOM M
        1, // VDETCOM L
        1, // VDETADJ M
        1, // VDETADJ L
        1, // IR DELAY
        1, // IR EXPO
        1, // WIN X1
        1, // WIN Y1
        1, // WIN X2
        1, // WIN Y2
        1, // CCD DELAY
        1, // CCD EXPO
        1, // CCD LAMP
        1, // IR LAMP
        1, // SHUTTER
        1, // ANNEALING
        1, // SIN M
        1, // SIN L
        1, // COS M
        1, // COS L
        1, // SWITCH
        0, // COVER
    ],
    // busy
    [
        0, // NOP
        0, // START
        0, // HK
        1, // STOP
        0, // IR DETECTOR
        0, // IR WIN MODE
        0, // VDETCOM M
        0, // VDETCOM L
        0, // VDETADJ M
        0, // VDETADJ L
        0, // IR DELAY
        0, // IR EXPO
        0, // WIN X1
        0, // WIN Y1
        0, // WIN X2
        0, // WIN Y2
        0, // CCD DELAY
        0, // CCD EXPO
        0, // CCD LAMP
        0, // IR LAMP
        0, // SHUTTER
        0, // ANNEALING
        0, // SIN M
        0, // SIN L
        0, // COS M
        0, // COS L
        0, // SWITCH
        0, // COVER
    ],
];

// Whether a word of this kind is applied in this phase.
#[tactic(auto, unfolding(crate::specs::Grid::applies))]
pub fn applied(phase: usize, kind: u8) -> bool
    ensures { result ≡ applies phase kind }
{
    if BUSY < phase {
        return false;
    }
    if KINDS <= kind {
        return false;
    }
    GRID[phase][kind as usize] == 1
}

impl Head {
    #[tactic(auto, unfolding(crate::specs::Grid::phase_of))]
    pub fn phase(self) -> usize
        ensures { result ≡ phase_of self }
    {
        if self.is_busy() {
            return BUSY;
        }
        if 0 < self.motion.cover {
            return MOVING;
        }
        IDLE
    }
}
