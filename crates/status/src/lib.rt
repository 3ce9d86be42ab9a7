// The status words of the two blocks, from meaning to bits and back, by the tables of their fields.
#![tactic(auto)]

mod tables;
mod word;

ghost use Rattle.std.specs.Prelude.{◌≡◌};
ghost use Rattle.status.specs.Status.{lamp_shutter_word, lamp_shutter_in, sine_word, sine_in, ir_flag_word, ir_flags_in, vis_flag_word, vis_flags_in};

use crate::tables::{ALWAYS_SET, IR_FLAGS, LAMP_SHUTTER, SINE, VIS_FLAGS};
pub use crate::word::StatusWord;
use bitfields::{compose, values_of};

// The lamp and shutter word of the IR block.
#[derive(Clone, Copy)]
pub struct LampShutter {
    pub lampcurrent: u16,
    pub lampon: bool,
    pub shuttercurrent: u16,
    pub closed: bool,
}

// The sine word of the CCD block.
#[derive(Clone, Copy)]
pub struct Sine {
    pub magnitude: u16,
    pub negative: bool,
}

// The flag word of the IR block.
#[derive(Clone, Copy)]
pub struct IrFlags {
    // The block follows an acquisition.
    pub acquired: bool,
    pub time: bool,
    pub word: bool,
    pub scan: bool,
    pub detector: bool,
    pub latchup: bool,
    pub annealing: bool,
    // The last cover move opens.
    pub opens: bool,
    pub notclosed: bool,
    pub notopen: bool,
}

// The flag word of the CCD block.
#[derive(Clone, Copy)]
pub struct VisFlags {
    pub acquired: bool,
    pub time: bool,
    pub word: bool,
    pub latchup: bool,
    pub lampon: bool,
}

impl StatusWord for LampShutter {
    ghost word_of = { lamp_shutter_word };

    ghost said_in = { lamp_shutter_in };

    fn word(self) -> u16 {
        let values = [
            self.lampcurrent,
            u16::from(self.lampon),
            self.shuttercurrent,
            u16::from(self.closed),
        ];
        compose(&LAMP_SHUTTER, &values)
    }

    fn in_word(word: u16) -> LampShutter
        ensures { result ≡ lamp_shutter_in word }
    {
        let values = values_of(&LAMP_SHUTTER, word);
        LampShutter {
            lampcurrent: values[0],
            lampon: values[1] == 1,
            shuttercurrent: values[2],
            closed: values[3] == 1,
        }
    }
}

impl StatusWord for Sine {
    ghost word_of = { sine_word };

    ghost said_in = { sine_in };

    fn word(self) -> u16 {
        let values = [self.magnitude, u16::from(self.negative)];
        compose(&SINE, &values)
    }

    fn in_word(word: u16) -> Sine
        ensures { result ≡ sine_in word }
    {
        let values = values_of(&SINE, word);
        Sine {
            magnitude: values[0],
            negative: values[1] == 1,
        }
    }
}

impl StatusWord for IrFlags {
    ghost word_of = { ir_flag_word };

    ghost said_in = { ir_flags_in };

    fn word(self) -> u16 {
        let values = [
            u16::from(self.acquired),
            ALWAYS_SET,
            u16::from(self.time),
            u16::from(self.word),
            u16::from(self.scan),
            u16::from(self.detector),
            u16::from(self.latchup),
            u16::from(self.annealing),
            u16::from(self.opens),
            u16::from(self.notclosed),
            u16::from(self.notopen),
        ];
        compose(&IR_FLAGS, &values)
    }

    fn in_word(word: u16) -> IrFlags
        ensures { result ≡ ir_flags_in word }
    {
        let values = values_of(&IR_FLAGS, word);
        IrFlags {
            acquired: values[0] == 1,
            time: values[2] == 1,
            word: values[3] == 1,
            scan: values[4] == 1,
            detector: values[5] == 1,
            latchup: values[6] == 1,
            annealing: values[7] == 1,
            opens: values[8] == 1,
            notclosed: values[9] == 1,
            notopen: values[10] == 1,
        }
    }
}

impl StatusWord for VisFlags {
    ghost word_of = { vis_flag_word };

    ghost said_in = { vis_flags_in };

    fn word(self) -> u16 {
        let values = [
            u16::from(self.acquired),
            ALWAYS_SET,
            u16::from(self.time),
            u16::from(self.word),
            u16::from(self.latchup),
            u16::from(self.lampon),
        ];
        compose(&VIS_FLAGS, &values)
    }

    fn in_word(word: u16) -> VisFlags
        ensures { result ≡ vis_flags_in word }
    {
        let values = values_of(&VIS_FLAGS, word);
        VisFlags {
            acquired: values[0] == 1,
            time: values[2] == 1,
            word: values[3] == 1,
            latchup: values[4] == 1,
            lampon: values[5] == 1,
        }
    }
}
