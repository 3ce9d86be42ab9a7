// Who gives the words of each kind (document 02, request P6): the CCD operator, the infrared operator or the controller.
ghost use Rattle.std.specs.Prelude.{◌≡◌};
ghost use Rattle.words.specs.Kinds.{group_of};

use crate::kinds::KINDS;

// Groups are numbers, since C passes one and `group_of` answers for any kind.
pub const CCD: u8 = 0;

pub const INFRARED: u8 = 1;

pub const CONTROLLER: u8 = 2;

// What stands for a number that is no kind.
pub const NO_GROUP: u8 = 3;

const GROUP: [u8; 28] = [
    CONTROLLER, // NOP
    CONTROLLER, // START
    CONTROLLER, // HK
    CONTROLLER, // STOP
    INFRARED, // IR DETECTOR
    INFRARED, // IR WIN MODE
    INFRARED, // VDETCOM M
    INFRARED, // VDETCOM L
    INFRARED, // VDETADJ M
    INFRARED, // VDETADJ L
    INFRARED, // IR DELAY
    INFRARED, // IR EXPO
    CCD, // WIN X1
    CCD, // WIN Y1
    CCD, // WIN X2
    CCD, // WIN Y2
    CCD, // CCD DELAY
    CCD, // CCD EXPO
    CCD, // CCD LAMP
    INFRARED, // IR LAMP
    INFRARED, // SHUTTER
    INFRARED, // ANNEALING
    INFRARED, // SIN M
    INFRARED, // SIN L
    INFRARED, // COS M
    INFRARED, // COS L
    INFRARED, // SWITCH
    INFRARED, // COVER
];

// The group of a kind, which is a number, since callers, C among them, may pass any.
pub fn group_of(kind: u8) -> u8
    ensures { result ≡ group_of kind }
{
    if KINDS <= kind {
        return NO_GROUP;
    }
    GROUP[kind as usize]
}
