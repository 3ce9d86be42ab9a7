// Whether the head is busy, for how many ticks yet, and whether anything moves.
ghost use Rattle.std.specs.Prelude.{◌≡◌};
ghost use Rattle.head.specs.Busy.{busy_ticks, is_busy, at_rest, rest_ticks};

use crate::state::Head;

impl Head {
    #[tactic(auto, unfolding(crate::specs::Busy::is_busy, crate::specs::Busy::busy_ticks))]
    pub fn is_busy(self) -> bool
        ensures { result ≡ is_busy self }
    {
        0 < self.work.busy
    }

    // For how many ticks yet the head is busy, where no word comes.
    #[tactic(auto, unfolding(crate::specs::Busy::busy_ticks))]
    pub fn busy_ticks(self) -> u16
        ensures { result ≡ busy_ticks self }
    {
        self.work.busy
    }

    // Mirror and cover at rest.
    #[tactic(auto, unfolding(crate::specs::Busy::at_rest))]
    pub fn at_rest(self) -> bool
        ensures { result ≡ at_rest self }
    {
        (self.motion.mirror == 0) & (self.motion.cover == 0)
    }

    // For how many ticks yet the head is busy or something moves, where no word comes.
    #[tactic(auto, unfolding(crate::specs::Busy::rest_ticks, crate::specs::Busy::busy_ticks))]
    pub fn rest_ticks(self) -> u32
        ensures { result ≡ rest_ticks self }
    {
        let busy = u32::from(self.work.busy);
        let mirror = u32::from(self.motion.mirror);
        let cover = u32::from(self.motion.cover);
        busy.max(mirror.max(cover))
    }
}
