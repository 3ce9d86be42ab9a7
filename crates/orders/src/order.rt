// An order, and the ranges of its fields (document 01, "Plans").
ghost use Rattle.std.specs.Prelude.{◌≡◌};
ghost use Rattle.orders.specs.Codes.{recoded, window, cover, mirror, fields_fit};

use crate::codes::{
    ANNEALING, CCD_LAMP, CCD_TIMES, COVER, DETECTOR, IR_LAMP, IR_TIMES, MIRROR, MOTOR, SHUTTER,
    VDETADJ, VDETCOM, WINDOW, WINDOW_MODE,
};

// An order: its code, and its fields in the order in which they are stored; a field that the code has not is 0.
#[derive(Clone, Copy, Debug, PartialEq, Eq)]
pub struct Order {
    pub code: u8,
    pub a: u16,
    pub b: u16,
    pub c: u16,
    pub d: u16,
}

impl Order {
    // A field of one bit: on or off, a mode, a direction.
    pub const MOST_BIT: u16 = 1;
    // A voltage has twelve bits.
    pub const MOST_VOLTAGE: u16 = 4095;
    // A delay or an exposure has ten bits.
    pub const MOST_TIME: u16 = 1023;

    pub const LEAST_CCD_DELAY: u16 = words::kinds::LEAST_CCD_DELAY;
    // The window's corners, and X2 - X1.
    pub const MOST_X1: u16 = 148;

    pub const ONLY_Y1: u16 = 0;

    pub const LEAST_X2: u16 = 875;

    pub const MOST_X2: u16 = 1023;

    pub const ONLY_Y2: u16 = 511;

    pub const WINDOW_WIDTH: u32 = 875;
    // The currents of the lamps and the shutter, and the annealing's limit.
    pub const MOST_CCD_LAMP: u16 = 3;

    pub const MOST_IR_LAMP: u16 = 15;

    pub const MOST_SHUTTER: u16 = 15;

    pub const MOST_ANNEALING: u16 = 63;
    // The greatest sine, and the least as two's complement; the greatest cosine.
    pub const GREATEST_SINE: u16 = 4095;

    pub const LEAST_SINE: u16 = 61441;

    pub const MOST_COSINE: u16 = 4095;
    // The cover's steps.
    pub const MOST_STEPS: u16 = 81;

    // X1, Y1, X2 and Y2, each in its range, with X2 = X1 + 875.
    #[tactic(auto, unfolding(crate::specs::Codes::fields_fit, crate::specs::Codes::related, crate::specs::Codes::within, crate::specs::Codes::rows))]
    fn window_fits(self) -> bool
        ensures { result ≡ fields_fit (recoded window self) }
    {
        let first = (self.a <= Self::MOST_X1) & (self.b <= Self::ONLY_Y1);
        let x2 = (Self::LEAST_X2 <= self.c) & (self.c <= Self::MOST_X2);
        let y2 = (Self::ONLY_Y2 <= self.d) & (self.d <= Self::ONLY_Y2);
        first & (x2 & y2) & (self.c as u32 == self.a as u32 + Self::WINDOW_WIDTH)
    }

    #[tactic(auto, unfolding(crate::specs::Codes::fields_fit, crate::specs::Codes::related, crate::specs::Codes::within, crate::specs::Codes::rows))]
    fn mirror_fits(self) -> bool
        ensures { result ≡ fields_fit (recoded mirror self) }
    {
        let sine = (self.a <= Self::GREATEST_SINE) | (Self::LEAST_SINE <= self.a);
        (self.b <= Self::MOST_COSINE) & sine
    }

    #[tactic(auto, unfolding(crate::specs::Codes::fields_fit, crate::specs::Codes::related, crate::specs::Codes::within, crate::specs::Codes::rows))]
    fn cover_fits(self) -> bool
        ensures { result ≡ fields_fit (recoded cover self) }
    {
        let first = (self.a <= Self::MOST_BIT) & (self.b <= Self::MOST_BIT);
        let last = (self.c <= Self::MOST_BIT) & (self.d <= Self::MOST_STEPS);
        first & last
    }

    // Every field is in range.
    #[tactic(auto, unfolding(crate::specs::Codes::fields_fit, crate::specs::Codes::related, crate::specs::Codes::within, crate::specs::Codes::rows))]
    pub fn fields_fit(self) -> bool
        ensures { result ≡ fields_fit self }
    {
        let Order { code, a, b, .. } = self;
        match code {
            VDETCOM => a <= Self::MOST_VOLTAGE,
            VDETADJ => a <= Self::MOST_VOLTAGE,
            IR_TIMES => (a <= Self::MOST_TIME) & (b <= Self::MOST_TIME),
            CCD_TIMES => {
                (Self::LEAST_CCD_DELAY <= a) & (a <= Self::MOST_TIME) & (b <= Self::MOST_TIME)
            }
            WINDOW_MODE => a <= Self::MOST_BIT,
            WINDOW => self.window_fits(),
            DETECTOR => a <= Self::MOST_BIT,
            CCD_LAMP => (a <= Self::MOST_BIT) & (b <= Self::MOST_CCD_LAMP),
            IR_LAMP => (a <= Self::MOST_BIT) & (b <= Self::MOST_IR_LAMP),
            SHUTTER => (a <= Self::MOST_BIT) & (b <= Self::MOST_SHUTTER),
            ANNEALING => (a <= Self::MOST_BIT) & (b <= Self::MOST_ANNEALING),
            MIRROR => self.mirror_fits(),
            MOTOR => a <= Self::MOST_BIT,
            COVER => self.cover_fits(),
            _ => true,
        }
    }
}
