// The CCD block: 16 readings and nine status words.
ghost use Rattle.std.specs.Prelude.{◌≡◌};
ghost use Rattle.blocks.specs.Numbers.{refusal_number, refusal_place, written_number, written_place, ccd_number, ccd_place};
ghost use Rattle.blocks.specs.Written.{written_of, write_number, buffer_after};
ghost use Rattle.blocks.specs.Ccd.{ccd_words, cosine_right, ccd_shown, ccd_status, ccd_block_of, ccd_rest_judged, ccd_judged, ccd_read_of, ccd_told};

use crate::refusal::Refusal;
use crate::written::write_block;
use head::state::{Flags, Head};
use status::{Sine, StatusWord, VisFlags};
use words::allows;
use words::kinds::{CCD_DELAY, CCD_EXPO, WIN_X1, WIN_X2, WIN_Y1, WIN_Y2};

pub const CCD_WORDS: usize = 25;

pub const CCD_READINGS: usize = 16;

const MOST_COSINE: u16 = 4095;

// The bits of the flag word that the caller gives.
#[derive(Clone, Copy)]
pub struct CcdBits {
    pub latchup: bool,
}

#[derive(Clone, Copy)]
pub struct Window {
    pub x1: u16,
    pub y1: u16,
    pub x2: u16,
    pub y2: u16,
}

// What a CCD block says besides its readings.
#[derive(Clone, Copy)]
pub struct CcdMeaning {
    pub window: Window,
    pub delay: u16,
    pub expo: u16,
    pub sine: Sine,
    pub cosine: u16,
    pub flags: VisFlags,
}

// A block that is read.
#[derive(Clone, Copy)]
pub struct CcdBlock {
    pub readings: [u16; CCD_READINGS],
    pub meaning: CcdMeaning,
}

impl CcdMeaning {
    // What the block shows of a state, the five flags, whether an acquisition ended and the caller's bits.
    pub fn shown(head: Head, flags: Flags, acquired: bool, bits: CcdBits) -> CcdMeaning
        ensures { result ≡ ccd_shown head flags acquired bits }
    {
        let settings = head.settings;
        CcdMeaning {
            window: Window {
                x1: settings.x1,
                y1: settings.y1,
                x2: settings.x2,
                y2: settings.y2,
            },
            delay: settings.ccddelay,
            expo: settings.ccdexpo,
            sine: Sine::in_word(settings.sine),
            cosine: settings.cosine,
            flags: VisFlags {
                acquired,
                time: flags.vistime,
                word: flags.visword,
                latchup: bits.latchup,
                lampon: settings.ccdlamp % 2 == 1,
            },
        }
    }

    // The status words.
    pub fn status(self) -> [u16; 9]
        ensures { result ≡ ccd_status self }
    {
        let window = self.window;
        let sine = self.sine;
        let flags = self.flags;
        [
            window.x1,
            window.y1,
            window.x2,
            window.y2,
            self.delay,
            self.expo,
            sine.word(),
            self.cosine,
            flags.word(),
        ]
    }
}

fn cosine_right(cosine: u16) -> bool
    ensures { result ≡ cosine_right cosine }
{
    cosine <= MOST_COSINE
}

// Judges the status words after the window one by one; the first faulty word decides.
fn judge_rest(
    window: Window,
    delay: u16,
    expo: u16,
    sine: u16,
    cosine: u16,
    flags: u16,
) -> Result<CcdMeaning, Refusal>
    ensures { result ≡ ccd_rest_judged window delay expo sine cosine flags }
{
    if !allows(CCD_DELAY, delay) {
        return Err(Refusal::OutOfRange { place: 20 });
    }
    if !allows(CCD_EXPO, expo) {
        return Err(Refusal::OutOfRange { place: 21 });
    }
    if !Sine::right(sine) {
        return Err(Refusal::FixedBit { place: 22 });
    }
    if !cosine_right(cosine) {
        return Err(Refusal::OutOfRange { place: 23 });
    }
    if !VisFlags::right(flags) {
        return Err(Refusal::FixedBit { place: 24 });
    }
    Ok(CcdMeaning {
        window,
        delay,
        expo,
        sine: Sine::in_word(sine),
        cosine,
        flags: VisFlags::in_word(flags),
    })
}

// The window first.
fn judge(
    window: Window,
    delay: u16,
    expo: u16,
    sine: u16,
    cosine: u16,
    flags: u16,
) -> Result<CcdMeaning, Refusal>
    ensures { result ≡ ccd_judged window delay expo sine cosine flags }
{
    if !allows(WIN_X1, window.x1) {
        return Err(Refusal::OutOfRange { place: 16 });
    }
    if !allows(WIN_Y1, window.y1) {
        return Err(Refusal::OutOfRange { place: 17 });
    }
    if !allows(WIN_X2, window.x2) {
        return Err(Refusal::OutOfRange { place: 18 });
    }
    if !allows(WIN_Y2, window.y2) {
        return Err(Refusal::OutOfRange { place: 19 });
    }
    judge_rest(window, delay, expo, sine, cosine, flags)
}

pub fn read_ccd(words: &[u16]) -> Result<CcdBlock, Refusal>
    ensures value { result ≡ ccd_read_of words.now }
    ensures number { ccd_number result ≡ ccd_told refusal_number words.now }
    ensures place { ccd_place result ≡ ccd_told refusal_place words.now }
{
    if words.len() != CCD_WORDS {
        return Err(Refusal::Length);
    }
    let window = Window {
        x1: words[16],
        y1: words[17],
        x2: words[18],
        y2: words[19],
    };
    let meaning = judge(
        window, words[20], words[21], words[22], words[23], words[24],
    )?;
    let mut readings = [0; CCD_READINGS];
    readings.copy_from_slice(&words[..CCD_READINGS]);
    Ok(CcdBlock { readings, meaning })
}

// Writes the block of a state, with the five flags to show, whether an acquisition ended, and the caller's readings and bits. A
// refusal writes nothing.
pub fn write_ccd(
    head: Head,
    flags: Flags,
    acquired: bool,
    readings: [u16; CCD_READINGS],
    bits: CcdBits,
    buffer: &mut [u16],
) -> Result<(), Refusal>
    ensures value { result ≡ written_of ccd_words head buffer.old }
    ensures number { written_number result ≡ write_number ccd_words head buffer.old }
    ensures place { written_place result ≡ 0 }
    ensures buffer_after { buffer.new ≡ buffer_after result (ccd_block_of head flags acquired readings bits) buffer.old }
{
    let status = CcdMeaning::shown(head, flags, acquired, bits).status();
    let fine = head.in_range();
    write_block(fine, &readings, &status, buffer)
}
