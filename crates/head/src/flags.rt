// The flags that an ignored word sets.
ghost use Rattle.std.specs.Prelude.{◌≡◌};
ghost use Rattle.head.specs.State.{no_flags};
ghost use Rattle.head.specs.Flags.{time_both, time_ir, word_both, word_vis, word_ir, scanned, out_of_range_flags, shown};

use crate::state::{FlagBits, Flags};
use words::kinds::{CCD_LAMP, SIN_M, STOP, SWITCH, WIN_X1};

impl FlagBits {
    pub fn time_both(mut self) -> FlagBits
        ensures { result ≡ time_both self }
    {
        self.irtime = 1;
        self.vistime = 1;
        self
    }

    pub fn time_ir(mut self) -> FlagBits
        ensures { result ≡ time_ir self }
    {
        self.irtime = 1;
        self
    }

    pub fn word_both(mut self) -> FlagBits
        ensures { result ≡ word_both self }
    {
        self.irword = 1;
        self.visword = 1;
        self
    }

    pub fn scanned(mut self) -> FlagBits
        ensures { result ≡ scanned self }
    {
        self.scan = 1;
        self
    }

    // The flags after a word of this kind with data out of range.
    #[tactic(auto, unfolding(crate::specs::Flags::out_of_range_flags, crate::specs::Flags::for_vis, crate::specs::Flags::for_both, crate::specs::Flags::mirror_word, crate::specs::Flags::one_of))]
    pub fn out_of_range(mut self, kind: u8) -> FlagBits
        ensures { result ≡ out_of_range_flags kind self }
    {
        let vis = (WIN_X1 <= kind) & (kind <= CCD_LAMP);
        if vis {
            self.visword = 1;
            return self;
        }
        let mirror = (SIN_M <= kind) & (kind <= SWITCH);
        if mirror {
            self.scan = 1;
            return self;
        }
        if kind <= STOP {
            self.visword = 1;
        }
        self.irword = 1;
        self
    }

    // The flags as the blocks show them.
    pub fn shown(self) -> Flags
        ensures { result ≡ shown self }
    {
        Flags {
            irtime: self.irtime == 1,
            irword: self.irword == 1,
            scan: self.scan == 1,
            vistime: self.vistime == 1,
            visword: self.visword == 1,
        }
    }
}
