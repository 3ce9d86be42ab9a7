// The seventeen codes of an order, and the tables of their fields (document 01, "Plans"). A code is a number and no enum: a stored plan may hold
// any byte in its place, and `is_known`, `count_of`, `width_of` and `length_of` answer for each.
ghost use Rattle.std.specs.Prelude.{◌≡◌};
ghost use Rattle.orders.specs.Codes.{known, place_of, digit_at, count_of, width_of, length_of};

pub const VDETCOM: u8 = 1;

pub const VDETADJ: u8 = 2;

pub const IR_TIMES: u8 = 3;

pub const CCD_TIMES: u8 = 4;

pub const WINDOW_MODE: u8 = 5;

pub const WINDOW: u8 = 6;

pub const DETECTOR: u8 = 7;

pub const CCD_LAMP: u8 = 8;

pub const IR_LAMP: u8 = 9;

pub const SHUTTER: u8 = 10;

pub const ANNEALING: u8 = 11;

pub const MIRROR: u8 = 12;

pub const MOTOR: u8 = 13;

pub const COVER: u8 = 14;

pub const EXPOSE: u8 = 15;

pub const HOUSEKEEPING: u8 = 16;

pub const WAIT: u8 = 17;

// What each code has: an octal digit for each code, that of code 0 (none) last. The number of its fields, and the bytes of each. Two numbers and no
// table of rows, since a table would be laid on the stack at each call.
const COUNTS: u64 = 0o1_0_0_4_1_2_2_2_2_2_1_4_1_2_2_1_1_0;

const WIDTHS: u64 = 0o2_1_1_1_1_2_1_1_1_1_1_2_1_2_2_2_2_1;

// Codes are 1-17.
#[tactic(auto, unfolding(crate::specs::Codes::known))]
pub fn is_known(code: u8) -> bool
    ensures { result ≡ known code }
{
    (VDETCOM <= code) & (code <= WAIT)
}

// The place of a code's digit; what is no code has that of 0.
#[tactic(auto, unfolding(crate::specs::Codes::place_of))]
fn place_of(code: u8) -> usize
    ensures { result ≡ place_of code }
{
    if code <= WAIT { code as usize } else { 0 }
}

// The octal digit at a code's place.
#[tactic(auto, unfolding(crate::specs::Codes::place_of))]
fn digit(digits: u64, code: u8) -> usize
    ensures { result ≡ digit_at digits code }
{
    ((digits >> (3 * place_of(code))) % 8) as usize
}

// How many fields a code has; what is no code has none.
#[tactic(auto, unfolding(crate::specs::Codes::count_of, crate::specs::Codes::rows, crate::specs::Codes::place_of))]
pub fn count_of(code: u8) -> usize
    ensures { result ≡ count_of code }
{
    digit(COUNTS, code)
}

// The bytes of each field of a code.
#[tactic(auto, unfolding(crate::specs::Codes::width_of, crate::specs::Codes::rows, crate::specs::Codes::place_of))]
pub fn width_of(code: u8) -> usize
    ensures { result ≡ width_of code }
{
    digit(WIDTHS, code)
}

// What the length byte of an order counts: the code and the fields.
#[tactic(auto, unfolding(crate::specs::Codes::length_of, crate::specs::Codes::count_of, crate::specs::Codes::width_of))]
pub fn length_of(code: u8) -> usize
    ensures { result ≡ length_of code }
{
    let width = width_of(code);
    let count = count_of(code);
    1 + width * count
}
