// A tick of 10 ms.
ghost use Rattle.std.specs.Prelude.{◌≡◌};
ghost use Rattle.head.specs.Numbers.{due_number, tick_number};
ghost use Rattle.head.specs.Tick.{motion_down, passed, tick_of};

use crate::state::{FlagBits, Flags, Head, Motion, Task, Work};

// Three answers of one rank, so an enum of its own: a `Result` of an `Option` would say the same less plainly.
#[derive(Clone, Copy, Debug, PartialEq, Eq)]
pub enum Due {
    Nothing,
    // Both blocks are due: the task that ended, and the flags that they show.
    Blocks { ended: Task, flags: Flags },
    // The state is out of range.
    Refused,
}

#[derive(Clone, Copy, Debug, PartialEq, Eq)]
pub struct Ticked {
    pub head: Head,
    pub due: Due,
}

impl Motion {
    // A tick's less of each.
    pub fn lessened(self) -> Motion
        ensures { result ≡ motion_down self }
    {
        Motion {
            mirror: self.mirror.saturating_sub(1),
            cover: self.cover.saturating_sub(1),
        }
    }
}

impl Head {
    // A tick of a state in range.
    #[tactic(auto, unfolding(crate::specs::Tick::passed))]
    fn ticked(mut self) -> Ticked
        ensures { result ≡ passed self }
    {
        let before = self.work;
        let busy = before.busy;
        self.motion = self.motion.lessened();
        if busy == 1 {
            let flags = self.flags;
            let cleared = FlagBits::default();
            self.flags = cleared;
            self.work = Work {
                task: Head::NO_TASK,
                busy: 0,
            };
            return Ticked {
                head: self,
                due: Due::Blocks {
                    ended: Task::from(before.task),
                    flags: flags.shown(),
                },
            };
        }
        self.work.busy = busy.saturating_sub(1);
        Ticked {
            head: self,
            due: Due::Nothing,
        }
    }

    pub fn tick(self) -> Ticked
        ensures value { result ≡ tick_of self }
        ensures due_value { due_number result.due ≡ tick_number self }
    {
        if self.in_range() {
            return self.ticked();
        }
        Ticked {
            head: self,
            due: Due::Refused,
        }
    }
}
