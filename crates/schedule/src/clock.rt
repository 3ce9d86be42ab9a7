// The clock of a translation.
ghost use Rattle.std.specs.Prelude.{◌≡◌, true, length};
ghost use Rattle.orders.specs.Codes.{fit};
ghost use Rattle.orders.specs.Words.{words_of, items_of};
ghost use Rattle.schedule.specs.Clock.{clock_of, clock_through, first_tick, length_at, set_by, Near, early};

use head::apply::acquisition_ticks;
use head::state::Head;
use orders::codes::{
    CCD_TIMES, COVER, EXPOSE, HOUSEKEEPING, IR_TIMES, MIRROR, MOTOR, WAIT, WINDOW_MODE,
};
use orders::order::Order;

// COS L, which starts the mirror, goes so many ticks after the first word of its order.
const COS_L_PLACE: u32 = 3;

// The tick at which it stands, the ticks at which the mirror and the cover are at rest, and the settings that give the length of an
// acquisition. Five and not the whole `Settings`, since a clock is copied for each order and no other setting decides a length.
#[derive(Clone, Copy)]
pub struct Clock {
    pub now: u32,
    pub mirror: u32,
    pub cover: u32,
    pub mode: u16,
    pub irdelay: u16,
    pub irexpo: u16,
    pub ccddelay: u16,
    pub ccdexpo: u16,
}

impl Clock {
    // The clock of a head that is idle, at tick 0.
    pub fn of(head: Head) -> Clock
        ensures { result ≡ clock_of head 0 }
    {
        Clock {
            now: 0,
            mirror: head.motion.mirror as u32,
            cover: head.motion.cover as u32,
            mode: head.settings.mode,
            irdelay: head.settings.irdelay,
            irexpo: head.settings.irexpo,
            ccddelay: head.settings.ccddelay,
            ccdexpo: head.settings.ccdexpo,
        }
    }

    // The tick of the first word of an order with this code.
    pub fn first_tick(self, code: u8) -> u32
        ensures { result ≡ first_tick self code }
    {
        if code == EXPOSE {
            return self.now.max(self.mirror.max(self.cover));
        }
        if code == COVER {
            return self.now.max(self.cover);
        }
        self.now
    }

    // The length of an acquisition under the clock's settings.
    fn length(self) -> u32
        ensures { result ≡ length_at self }
    {
        acquisition_ticks(
            self.mode,
            self.irdelay,
            self.irexpo,
            self.ccddelay,
            self.ccdexpo,
        )
    }

    // The clock with the settings that an order changes.
    fn set_by(mut self, order: Order) -> Clock
        ensures { result ≡ set_by self order }
    {
        let code = order.code;
        match code {
            WINDOW_MODE => {
                self.mode = order.a;
                self
            }
            IR_TIMES => {
                self.irdelay = order.a;
                self.irexpo = order.b;
                self
            }
            CCD_TIMES => {
                self.ccddelay = order.a;
                self.ccdexpo = order.b;
                self
            }
            _ => self,
        }
    }

    // The clock after an order whose first word goes at this tick and that has so many words.
    pub(crate) fn after_order(mut self, order: Order, tick: u32, count: u32) -> Clock
        requires order_value_1 { fit order ≡ true }
        requires order_value_2 { Near early self }
        requires tick_value_1 { tick ≡ first_tick self order.code }
        requires tick_value_2 { count ≡ length (words_of order) }
        ensures { result ≡ clock_through self (items_of order) }
    {
        let code = order.code;
        self.now = tick + count;
        match code {
            EXPOSE => {
                let ticks = self.length();
                self.now = tick + ticks;
                self
            }
            HOUSEKEEPING => {
                self.now = tick + Head::HK_TICKS as u32;
                self
            }
            WAIT => {
                self.now = tick + order.a as u32;
                self
            }
            MIRROR => {
                self.mirror = tick + (COS_L_PLACE + Head::MIRROR_TICKS as u32);
                self
            }
            MOTOR => {
                if order.a == 0 {
                    return self;
                }
                self.mirror = tick + Head::MIRROR_TICKS as u32;
                self
            }
            COVER => {
                self.cover = tick + Head::COVER_STEP_TICKS as u32 * order.d as u32;
                self
            }
            _ => self.set_by(order),
        }
    }
}
