// The words of an order (document 01, "Plans").
ghost use Rattle.std.specs.Prelude.{◌≡◌, [], ◌∷◌, ◌+◌, ◌%◌};
ghost use Rattle.words.specs.Fields.{cover_bits};
ghost use Rattle.orders.specs.Codes.{window, mirror};
ghost use Rattle.orders.specs.Words.{sine_register, switch_data};
ghost use Rattle.orders.specs.Encoding.{cut, words_cut, listed};

use crate::codes;
use crate::order::Order;

// The words of an order, at most four; places past the count hold 0. A buffer with its count, since there is no allocator for a `Vec`.
#[derive(Clone, Copy, Debug, PartialEq, Eq)]
pub struct Words {
    pub count: usize,
    pub list: [u16; 4],
}

// The kinds, each by its word with data 0 (document 01, "The words"): constants, so that an order's words are made without the table of identifiers
// that `encode` in `words` reads.
const START: u16 = 0x8000;

const HK: u16 = 0x4000;

const IR_DETECTOR: u16 = 0xD800;

const IR_WIN_MODE: u16 = 0x9000;

const VDETCOM_M: u16 = 0xD000;

const VDETCOM_L: u16 = 0x3000;

const VDETADJ_M: u16 = 0xB000;

const VDETADJ_L: u16 = 0x7000;

const IR_DELAY: u16 = 0xF000;

const IR_EXPO: u16 = 0x0800;

const WIN_X1: u16 = 0x2800;

const WIN_Y1: u16 = 0xA800;

const WIN_X2: u16 = 0x6800;

const WIN_Y2: u16 = 0xE800;

const CCD_DELAY: u16 = 0x1800;

const CCD_EXPO: u16 = 0x9800;

const CCD_LAMP: u16 = 0x5800;

const IR_LAMP: u16 = 0x8800;

const SHUTTER: u16 = 0xC800;

const ANNEALING: u16 = 0x4800;

const SIN_M: u16 = 0x2000;

const SIN_L: u16 = 0xA000;

const COS_M: u16 = 0x6000;

const COS_L: u16 = 0xE000;

const SWITCH: u16 = 0x5000;

const COVER: u16 = 0x1000;

// The sine's sign in the head's register, and the least two's complement that is negative.
const SIGN: u32 = 4096;

const LEAST_NEGATIVE: u16 = 32768;

// The sine as the head's register holds it: the sign in bit 12 above the magnitude. Sine 0 is plus; a
// negative sine is stored as 65536 less its magnitude.
#[tactic(auto, unfolding(crate::specs::Words::sine_register))]
pub fn sine_register(sine: u16) -> u16
    ensures { result ≡ sine_register sine }
{
    let minus = (SIGN + (65536 - sine as u32)) % 65536;
    if LEAST_NEGATIVE <= sine {
        minus as u16
    } else {
        sine
    }
}

// SWITCH 0 is on.
fn switch_bits(motor: u32) -> u32
    ensures { result ≡ switch_data motor }
{
    (motor == 0) as u32
}

// The word of a kind and its data, cut to sixteen bits.
fn word(kind: u16, bits: u32) -> u16
    ensures { result ≡ (kind + bits) % 65536 }
{
    ((kind as u64 + bits as u64) % 65536) as u16
}

// A word alone.
#[tactic(auto, unfolding(crate::specs::Encoding::listed))]
fn one(kind: u16, bits: u32) -> Words
    ensures { result ≡ listed (cut ((kind + bits) ∷ [])) }
{
    let only = word(kind, bits);
    Words {
        count: 1,
        list: [only, 0, 0, 0],
    }
}

// Two words.
#[tactic(auto, unfolding(crate::specs::Encoding::listed))]
fn two(kind: u16, bits: u32, kind2: u16, bits2: u32) -> Words
    ensures { result ≡ listed (cut ((kind + bits) ∷ (kind2 + bits2) ∷ [])) }
{
    let first = word(kind, bits);
    let second = word(kind2, bits2);
    Words {
        count: 2,
        list: [first, second, 0, 0],
    }
}

impl Order {
    // The words of a window order.
    #[tactic(auto, unfolding(crate::specs::Encoding::listed, crate::specs::Encoding::words_cut, crate::specs::Words::words_of, words::specs::Codec::word_of, words::specs::Kinds::rows))]
    fn window_words(self) -> Words
        requires { self.code ≡ window }
        ensures { result ≡ listed (words_cut self) }
    {
        let x1 = word(WIN_X1, self.a as u32);
        let y1 = word(WIN_Y1, self.b as u32);
        let x2 = word(WIN_X2, self.c as u32);
        let y2 = word(WIN_Y2, self.d as u32);
        Words {
            count: 4,
            list: [x1, y1, x2, y2],
        }
    }

    // The words of a mirror order.
    #[tactic(auto, unfolding(crate::specs::Encoding::listed, crate::specs::Encoding::words_cut, crate::specs::Words::words_of, words::specs::Codec::word_of, words::specs::Kinds::rows))]
    fn mirror_words(self) -> Words
        requires { self.code ≡ mirror }
        ensures { result ≡ listed (words_cut self) }
    {
        let sine = sine_register(self.a) as u32;
        let cosine = self.b as u32;
        let sin_m = word(SIN_M, sine / 256);
        let sin_l = word(SIN_L, sine % 256);
        let cos_m = word(COS_M, cosine / 256);
        let cos_l = word(COS_L, cosine % 256);
        Words {
            count: 4,
            list: [sin_m, sin_l, cos_m, cos_l],
        }
    }

    // The data of a cover order's word.
    fn cover_bits(self) -> u32
        ensures { result ≡ cover_bits self.a self.b self.c self.d }
    {
        self.a as u32 * 512 + self.b as u32 * 256 + self.c as u32 * 128 + self.d as u32
    }

    // The words of the order, each cut to sixteen bits; a wait and what is no code have none.
    #[tactic(auto, unfolding(crate::specs::Encoding::words_cut, crate::specs::Encoding::listed, crate::specs::Words::words_of, words::specs::Codec::word_of, words::specs::Kinds::rows))]
    pub fn words(self) -> Words
        ensures { result ≡ listed (words_cut self) }
    {
        let a = self.a as u32;
        let b = self.b as u32;
        let switched = a + 2 * b;
        match self.code {
            codes::VDETCOM => two(VDETCOM_M, a / 256, VDETCOM_L, a % 256),
            codes::VDETADJ => two(VDETADJ_M, a / 256, VDETADJ_L, a % 256),
            codes::IR_TIMES => two(IR_DELAY, a, IR_EXPO, b),
            codes::CCD_TIMES => two(CCD_DELAY, a, CCD_EXPO, b),
            codes::WINDOW_MODE => one(IR_WIN_MODE, a),
            codes::WINDOW => self.window_words(),
            codes::DETECTOR => one(IR_DETECTOR, a),
            codes::CCD_LAMP => one(CCD_LAMP, switched),
            codes::IR_LAMP => one(IR_LAMP, switched),
            codes::SHUTTER => one(SHUTTER, switched),
            codes::ANNEALING => one(ANNEALING, switched),
            codes::MIRROR => self.mirror_words(),
            codes::MOTOR => one(SWITCH, switch_bits(a)),
            codes::COVER => one(COVER, self.cover_bits()),
            codes::EXPOSE => one(START, 0),
            codes::HOUSEKEEPING => one(HK, 0),
            _ => Words {
                count: 0,
                list: [0, 0, 0, 0],
            },
        }
    }
}
