// The settings after an order, by its fields alone (document 01, "Plans").
ghost use Rattle.std.specs.Prelude.{◌≡◌, true, ◌≤◌};
ghost use Rattle.words.specs.Fields.{switched};
ghost use Rattle.orders.specs.Codes.{ccd_lamp, annealing, fit};
ghost use Rattle.plan.specs.Reading.{settings_by};

use head::state::Settings;
use orders::codes::{
    ANNEALING, CCD_LAMP, CCD_TIMES, COVER, DETECTOR, IR_LAMP, IR_TIMES, MIRROR, MOTOR, SHUTTER,
    VDETADJ, VDETCOM, WINDOW, WINDOW_MODE,
};
use orders::encoding::sine_register;
use orders::order::Order;

// What a lamp, the shutter or the annealing is set to: bit 0 is on, the bits above are the current or limit.
fn switched(order: Order) -> u16
    requires fact_1 { ccd_lamp ≤ order.code }
    requires fact_2 { order.code ≤ annealing }
    requires fact_3 { fit order ≡ true }
    ensures { result ≡ switched order.a order.b }
{
    order.a + 2 * order.b
}

// The settings after an order that fits; expose, housekeeping and wait set nothing.
pub(crate) fn settings_by(mut settings: Settings, order: Order) -> Settings
    requires { fit order ≡ true }
    ensures { result ≡ settings_by settings order }
{
    let code = order.code;
    match code {
        VDETCOM => settings.vdetcom = order.a,
        VDETADJ => settings.vdetadj = order.a,
        IR_TIMES => {
            settings.irdelay = order.a;
            settings.irexpo = order.b;
        }
        CCD_TIMES => {
            settings.ccddelay = order.a;
            settings.ccdexpo = order.b;
        }
        WINDOW_MODE => settings.mode = order.a,
        WINDOW => {
            settings.x1 = order.a;
            settings.y1 = order.b;
            settings.x2 = order.c;
            settings.y2 = order.d;
        }
        DETECTOR => settings.detector = order.a,
        CCD_LAMP => settings.ccdlamp = switched(order),
        IR_LAMP => settings.irlamp = switched(order),
        SHUTTER => settings.shutter = switched(order),
        ANNEALING => settings.annealing = switched(order),
        MIRROR => {
            settings.sine = sine_register(order.a);
            settings.cosine = order.b;
        }
        MOTOR => settings.switch = 1 - order.a,
        COVER => settings.direction = order.a,
        _ => {}
    }
    settings
}
