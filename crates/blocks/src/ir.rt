// The IR block: 14 readings and six status words.
ghost use Rattle.std.specs.Prelude.{◌≡◌, cond, eqb};
ghost use Rattle.blocks.specs.Numbers.{refusal_number, refusal_place, written_number, written_place, ir_number, ir_place};
ghost use Rattle.blocks.specs.Written.{written_of, write_number, buffer_after};
ghost use Rattle.blocks.specs.Ir.{ir_words, lines_right, ir_shown, ir_status, ir_block_of, ir_judged, ir_read_of, ir_told};

use crate::refusal::Refusal;
use crate::written::write_block;
use head::state::{Flags, Head};
use status::{IrFlags, LampShutter, StatusWord};
use words::allows;
use words::kinds::{IR_DELAY, IR_EXPO};

pub const IR_WORDS: usize = 20;

pub const IR_READINGS: usize = 14;

// The bits of the flag word that the caller gives.
#[derive(Clone, Copy)]
pub struct IrBits {
    pub latchup: bool,
    pub notclosed: bool,
    pub notopen: bool,
}

// What an IR block says besides its readings.
#[derive(Clone, Copy)]
pub struct IrMeaning {
    // The window mode: 0 full, 1 reduced.
    pub mode: u16,
    pub delay: u16,
    pub expo: u16,
    pub lampshutter: LampShutter,
    pub flags: IrFlags,
}

// A block that is read.
#[derive(Clone, Copy)]
pub struct IrBlock {
    pub readings: [u16; IR_READINGS],
    pub meaning: IrMeaning,
}

// What belongs to 0, or to any other number.
fn choose(x: u16, first: u16, other: u16) -> u16
    ensures { result ≡ cond (eqb x 0) first other }
{
    if x == 0 { first } else { other }
}

impl IrMeaning {
    // What the block shows of a state, the five flags, whether an acquisition ended and the caller's bits.
    pub fn shown(head: Head, flags: Flags, acquired: bool, bits: IrBits) -> IrMeaning
        ensures { result ≡ ir_shown head flags acquired bits }
    {
        let settings = head.settings;
        IrMeaning {
            mode: settings.mode,
            delay: settings.irdelay,
            expo: settings.irexpo,
            lampshutter: LampShutter {
                lampcurrent: settings.irlamp / 2,
                lampon: settings.irlamp % 2 == 1,
                shuttercurrent: settings.shutter / 2,
                closed: settings.shutter % 2 == 1,
            },
            flags: IrFlags {
                acquired,
                time: flags.irtime,
                word: flags.irword,
                scan: flags.scan,
                detector: settings.detector == 1,
                latchup: bits.latchup,
                annealing: settings.annealing % 2 == 1,
                opens: settings.direction == 1,
                notclosed: bits.notclosed,
                notopen: bits.notopen,
            },
        }
    }

    // The status words.
    pub fn status(self) -> [u16; 6]
        ensures { result ≡ ir_status self }
    {
        let mode = self.mode;
        let lampshutter = self.lampshutter;
        let flags = self.flags;
        [
            choose(mode, 0, 90),
            choose(mode, 269, 179),
            self.delay,
            self.expo,
            lampshutter.word(),
            flags.word(),
        ]
    }
}

// Whether the lines are those of a window mode.
fn lines_right(y1: u16, y2: u16) -> bool
    ensures { result ≡ lines_right y1 y2 }
{
    ((y1 == 0) & (y2 == 269)) | ((y1 == 90) & (y2 == 179))
}

// Judges the status words one by one; the first faulty word decides.
fn judge(
    y1: u16,
    y2: u16,
    delay: u16,
    expo: u16,
    lampshutter: u16,
    flags: u16,
) -> Result<IrMeaning, Refusal>
    ensures { result ≡ ir_judged y1 y2 delay expo lampshutter flags }
{
    if !lines_right(y1, y2) {
        return Err(Refusal::OutOfRange { place: 15 });
    }
    if !allows(IR_DELAY, delay) {
        return Err(Refusal::OutOfRange { place: 16 });
    }
    if !allows(IR_EXPO, expo) {
        return Err(Refusal::OutOfRange { place: 17 });
    }
    if !LampShutter::right(lampshutter) {
        return Err(Refusal::FixedBit { place: 18 });
    }
    if !IrFlags::right(flags) {
        return Err(Refusal::FixedBit { place: 19 });
    }
    Ok(IrMeaning {
        mode: choose(y1, 0, 1),
        delay,
        expo,
        lampshutter: LampShutter::in_word(lampshutter),
        flags: IrFlags::in_word(flags),
    })
}

pub fn read_ir(words: &[u16]) -> Result<IrBlock, Refusal>
    ensures value { result ≡ ir_read_of words.now }
    ensures number { ir_number result ≡ ir_told refusal_number words.now }
    ensures place { ir_place result ≡ ir_told refusal_place words.now }
{
    if words.len() != IR_WORDS {
        return Err(Refusal::Length);
    }
    let meaning = judge(
        words[14], words[15], words[16], words[17], words[18], words[19],
    )?;
    let mut readings = [0; IR_READINGS];
    readings.copy_from_slice(&words[..IR_READINGS]);
    Ok(IrBlock { readings, meaning })
}

// Writes the block of a state, with the five flags to show, whether an acquisition ended, and the caller's readings and bits. A
// refusal writes nothing.
pub fn write_ir(
    head: Head,
    flags: Flags,
    acquired: bool,
    readings: [u16; IR_READINGS],
    bits: IrBits,
    buffer: &mut [u16],
) -> Result<(), Refusal>
    ensures value { result ≡ written_of ir_words head buffer.old }
    ensures number { written_number result ≡ write_number ir_words head buffer.old }
    ensures place { written_place result ≡ 0 }
    ensures buffer_after { buffer.new ≡ buffer_after result (ir_block_of head flags acquired readings bits) buffer.old }
{
    let status = IrMeaning::shown(head, flags, acquired, bits).status();
    let fine = head.in_range();
    write_block(fine, &readings, &status, buffer)
}
