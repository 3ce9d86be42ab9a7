// The 28 kinds of command word, numbered in the order of document 01's table read row by row. A kind is a number and no enum: callers, C among
// them, may ask about any number, and `allows`, `encode` and `group_of` answer for each.
pub const NOP: u8 = 0;

pub const START: u8 = 1;

pub const HK: u8 = 2;

pub const STOP: u8 = 3;

pub const IR_DETECTOR: u8 = 4;

pub const IR_WIN_MODE: u8 = 5;

pub const VDETCOM_M: u8 = 6;

pub const VDETCOM_L: u8 = 7;

pub const VDETADJ_M: u8 = 8;

pub const VDETADJ_L: u8 = 9;

pub const IR_DELAY: u8 = 10;

pub const IR_EXPO: u8 = 11;

pub const WIN_X1: u8 = 12;

pub const WIN_Y1: u8 = 13;

pub const WIN_X2: u8 = 14;

pub const WIN_Y2: u8 = 15;

pub const CCD_DELAY: u8 = 16;

pub const CCD_EXPO: u8 = 17;

pub const CCD_LAMP: u8 = 18;

pub const IR_LAMP: u8 = 19;

pub const SHUTTER: u8 = 20;

pub const ANNEALING: u8 = 21;

pub const SIN_M: u8 = 22;

pub const SIN_L: u8 = 23;

pub const COS_M: u8 = 24;

pub const COS_L: u8 = 25;

pub const SWITCH: u8 = 26;

pub const COVER: u8 = 27;

// How many kinds there are.
pub const KINDS: u8 = 28;

// What stands for an identifier that no kind has.
pub const NONE: u8 = KINDS;

// The largest number of steps in a COVER word.
pub const MOST_STEPS: u16 = 81;

// The least delay of the CCD, 0.1 s.
pub const LEAST_CCD_DELAY: u16 = 5;
