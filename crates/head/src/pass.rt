// Many ticks in one step.
ghost use Rattle.std.specs.Prelude.{◌≡◌, ◌-◌};
ghost use Rattle.head.specs.Tick.{ticks_of};
ghost use Rattle.head.specs.Ticks.{elapsed};

use crate::state::{FlagBits, Head, Motion, Work};

fn less(ticks: u16, n: u32) -> u16
    ensures { result ≡ ticks - n }
{
    u32::from(ticks).saturating_sub(n) as u16
}

impl Head {
    // The state n ticks later, of a state in range.
    #[tactic(auto, unfolding(crate::specs::Ticks::elapsed, crate::specs::Ticks::ends_within, crate::specs::Ticks::work_left))]
    pub(crate) fn later(mut self, n: u32) -> Head
        ensures { result ≡ elapsed n self }
    {
        self.motion = Motion {
            mirror: less(self.motion.mirror, n),
            cover: less(self.motion.cover, n),
        };
        let busy = self.work.busy;
        if n < u32::from(busy) {
            self.work.busy = less(busy, n);
            return self;
        }
        self.work = Work {
            task: Head::NO_TASK,
            busy: 0,
        };
        if 0 < busy {
            self.flags = FlagBits::default();
            return self;
        }
        self
    }

    // n ticks; a state out of range stays as it is.
    pub fn pass(self, n: u32) -> Head
        ensures { result ≡ ticks_of n self }
    {
        if self.in_range() {
            return self.later(n);
        }
        self
    }
}
