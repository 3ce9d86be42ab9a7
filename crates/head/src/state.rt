// The state of the head, its limits and the numbers of ticks that time it.
ghost use Rattle.std.specs.Prelude.{◌≡◌};
ghost use Rattle.head.specs.State.{power_on};

use words::kinds;

// The registers, in the order of document 01's power-on list. A lamp, the shutter and the annealing hold their word's data.
#[derive(Clone, Copy, Debug, PartialEq, Eq)]
pub struct Settings {
    pub detector: u16,
    pub mode: u16,
    pub vdetcom: u16,
    pub vdetadj: u16,
    pub irdelay: u16,
    pub irexpo: u16,
    pub ccddelay: u16,
    pub ccdexpo: u16,
    pub x1: u16,
    pub y1: u16,
    pub x2: u16,
    pub y2: u16,
    pub ccdlamp: u16,
    pub irlamp: u16,
    pub shutter: u16,
    pub annealing: u16,
    // Bits 0-11 are the magnitude, bit 12 is the sign.
    pub sine: u16,
    pub cosine: u16,
    // 0 is on, 1 is off.
    pub switch: u16,
    // 1 opens.
    pub direction: u16,
}

// The data of the last VDETCOM M and VDETADJ M words.
#[derive(Clone, Copy, Debug, PartialEq, Eq)]
pub struct Latches {
    pub vdetcom: u16,
    pub vdetadj: u16,
}

// The error flags of the two channels, as the state holds them: 1 where set, 0 where not. Numbers beside the bools of `Flags`, since a
// state that C hands over may hold any, and is given back as it was.
#[derive(Clone, Copy, Debug, Default, PartialEq, Eq)]
pub struct FlagBits {
    pub irtime: u16,
    pub irword: u16,
    pub scan: u16,
    pub vistime: u16,
    pub visword: u16,
}

// The error flags as the blocks show them.
#[derive(Clone, Copy, Debug, PartialEq, Eq)]
pub struct Flags {
    pub irtime: bool,
    pub irword: bool,
    pub scan: bool,
    pub vistime: bool,
    pub visword: bool,
}

#[derive(Clone, Copy, Debug, PartialEq, Eq)]
pub enum Task {
    Idle,
    Acquisition,
    Housekeeping,
}

// What the head is doing, a task by its number (C may hand over any), and for how many ticks yet.
#[derive(Clone, Copy, Debug, PartialEq, Eq)]
pub struct Work {
    pub task: u16,
    pub busy: u16,
}

// The ticks of motion that are left.
#[derive(Clone, Copy, Debug, PartialEq, Eq)]
pub struct Motion {
    pub mirror: u16,
    pub cover: u16,
}

// The mirror words received of a set that is not complete; a place not yet received holds 0.
#[derive(Clone, Copy, Debug, Default, PartialEq, Eq)]
pub struct Begun {
    pub count: u16,
    pub sinm: u16,
    pub sinl: u16,
    pub cosm: u16,
}

#[derive(Clone, Copy, Debug, PartialEq, Eq)]
pub struct Head {
    pub settings: Settings,
    pub latches: Latches,
    pub flags: FlagBits,
    pub work: Work,
    pub motion: Motion,
    pub begun: Begun,
}

// The numbers of the tasks.
impl Head {
    pub const NO_TASK: u16 = 0;

    pub const ACQUISITION: u16 = 1;

    pub const HOUSEKEEPING: u16 = 2;
}

// The limits of a state in range.
impl Head {
    // A register of one bit: the detector, the IR window mode, SWITCH, the cover's direction.
    pub const MOST_BIT: u16 = 1;
    // VDETCOM and VDETADJ, and the latches that hold their top four bits.
    pub const MOST_VOLTAGE: u16 = 4095;

    pub const MOST_LATCH: u16 = 15;
    // The delays and the exposures of both channels. The CCD's delay is at least 0.1 s.
    pub const MOST_TIME: u16 = 1023;

    pub const LEAST_CCD_DELAY: u16 = kinds::LEAST_CCD_DELAY;
    // The CCD's window.
    pub const MOST_X: u16 = 1023;

    pub const MOST_Y: u16 = 511;
    // The lamps, the shutter and the annealing, each as its word's data.
    pub const MOST_CCD_LAMP: u16 = 7;

    pub const MOST_IR_LAMP: u16 = 31;

    pub const MOST_SHUTTER: u16 = 31;

    pub const MOST_ANNEALING: u16 = 127;
    // The mirror's pair: twelve bits, and the sine's sign above them.
    pub const MOST_SINE: u16 = 8191;

    pub const MOST_COSINE: u16 = 4095;
    // A begun set: how many words, and the data of each.
    pub const MOST_BEGUN: u16 = 3;

    pub const MOST_SIN_M: u16 = 31;

    pub const MOST_SIN_L: u16 = 255;

    pub const MOST_COS_M: u16 = 15;
}

// The numbers of ticks that time the head. A tick is 10 ms.
impl Head {
    pub const MIRROR_TICKS: u16 = 66;

    pub const COVER_STEP_TICKS: u16 = 25;

    pub const MOST_COVER_TICKS: u16 = Head::COVER_STEP_TICKS * kinds::MOST_STEPS;

    pub const HK_TICKS: u16 = 3;
    // The ticks of one step of a delay or an exposure.
    pub const STEP_TICKS: u16 = 2;

    pub const CCD_READOUT: u16 = 145;

    pub const FULL_READOUT: u16 = 140;

    pub const REDUCED_READOUT: u16 = 60;
    // An acquisition is this much longer than its slower channel.
    pub const EXTRA_TICKS: u16 = 1;
    // The longest acquisition.
    pub const LONGEST: u16 = Head::EXTRA_TICKS
        + Head::STEP_TICKS * (Head::MOST_TIME + Head::MOST_TIME)
        + Head::CCD_READOUT;
}

impl Head {
    pub fn power_on() -> Head
        ensures { result ≡ power_on }
    {
        Head {
            settings: Settings {
                detector: 0,
                mode: 0,
                vdetcom: 2430,
                vdetadj: 2213,
                irdelay: 5,
                irexpo: 1,
                ccddelay: 5,
                ccdexpo: 1,
                x1: 0,
                y1: 0,
                x2: 875,
                y2: 511,
                ccdlamp: 6,
                irlamp: 12,
                shutter: 12,
                annealing: 126,
                sine: 0,
                cosine: 4095,
                switch: 1,
                direction: 0,
            },
            latches: Latches {
                vdetcom: 9,
                vdetadj: 8,
            },
            flags: FlagBits {
                irtime: 0,
                irword: 0,
                scan: 0,
                vistime: 0,
                visword: 0,
            },
            work: Work {
                task: Head::NO_TASK,
                busy: 0,
            },
            motion: Motion {
                mirror: 0,
                cover: 0,
            },
            begun: Begun {
                count: 0,
                sinm: 0,
                sinl: 0,
                cosm: 0,
            },
        }
    }
}
