// What crosses the interface for the two blocks: flags and bits in numbers, readings, and what a block says as numbers.
ghost use Rattle.std.specs.Prelude.{◌≡◌, length};
ghost use Rattle.blocks.specs.Ir.{ir_readings};
ghost use Rattle.blocks.specs.Ccd.{ccd_readings};
ghost use Rattle.interface.specs.Blocks.{flags_in, ir_bits_in, ccd_bits_in, ir_status_numbers, ir_flag_numbers, ccd_status_numbers, ccd_flag_numbers, ir_said_numbers, ccd_said_numbers, ir_numbers, ccd_numbers};

use crate::state::put;
use blocks::ccd::{CcdBits, CcdMeaning};
use blocks::ir::{IrBits, IrMeaning};
use head::state::Flags;
use status::{IrFlags, VisFlags};

// How many numbers the readers give.
pub const IR_NUMBERS: usize = 31;

pub const CCD_NUMBERS: usize = 30;

pub fn flags_in(n: u32) -> Flags
    ensures { result ≡ flags_in n }
{
    Flags {
        irtime: n % 2 == 1,
        irword: n / 2 % 2 == 1,
        scan: n / 4 % 2 == 1,
        vistime: n / 8 % 2 == 1,
        visword: n / 16 % 2 == 1,
    }
}

pub fn ir_bits_in(n: u32) -> IrBits
    ensures { result ≡ ir_bits_in n }
{
    IrBits {
        latchup: n % 2 == 1,
        notclosed: n / 2 % 2 == 1,
        notopen: n / 4 % 2 == 1,
    }
}

pub fn ccd_bits_in(n: u32) -> CcdBits
    ensures { result ≡ ccd_bits_in n }
{
    CcdBits {
        latchup: n % 2 == 1,
    }
}

// The readings as an array.
pub(crate) fn readings<const N: usize>(readings: &[u16]) -> [u16; N]
    requires { length readings.now ≡ N }
    ensures { result ≡ readings.now }
{
    let mut array = [0; N];
    array.copy_from_slice(readings);
    array
}

pub fn ir_status_numbers(meaning: IrMeaning) -> [u16; 7]
    ensures { result ≡ ir_status_numbers meaning }
{
    let lampshutter = meaning.lampshutter;
    [
        meaning.mode,
        meaning.delay,
        meaning.expo,
        lampshutter.lampcurrent,
        u16::from(lampshutter.lampon),
        lampshutter.shuttercurrent,
        u16::from(lampshutter.closed),
    ]
}

pub fn ir_flag_numbers(flags: IrFlags) -> [u16; 10]
    ensures { result ≡ ir_flag_numbers flags }
{
    [
        u16::from(flags.acquired),
        u16::from(flags.time),
        u16::from(flags.word),
        u16::from(flags.scan),
        u16::from(flags.detector),
        u16::from(flags.latchup),
        u16::from(flags.annealing),
        u16::from(flags.opens),
        u16::from(flags.notclosed),
        u16::from(flags.notopen),
    ]
}

pub fn ccd_status_numbers(meaning: CcdMeaning) -> [u16; 9]
    ensures { result ≡ ccd_status_numbers meaning }
{
    let window = meaning.window;
    let sine = meaning.sine;
    [
        window.x1,
        window.y1,
        window.x2,
        window.y2,
        meaning.delay,
        meaning.expo,
        sine.magnitude,
        u16::from(sine.negative),
        meaning.cosine,
    ]
}

pub fn ccd_flag_numbers(flags: VisFlags) -> [u16; 5]
    ensures { result ≡ ccd_flag_numbers flags }
{
    [
        u16::from(flags.acquired),
        u16::from(flags.time),
        u16::from(flags.word),
        u16::from(flags.latchup),
        u16::from(flags.lampon),
    ]
}

// Stores what an IR block says: its readings, the status, the flags.
pub(crate) fn put_ir(numbers: &mut [u16], first: &[u16], meaning: IrMeaning)
    requires numbers_long { length numbers.old ≡ ir_numbers }
    requires first_long { length first.now ≡ ir_readings }
    ensures { numbers.new ≡ ir_said_numbers first.now meaning }
{
    let flags = meaning.flags;
    let second = ir_status_numbers(meaning);
    let third = ir_flag_numbers(flags);
    put(numbers, 0, first);
    put(numbers, 14, &second);
    put(numbers, 21, &third);
}

// Stores what a CCD block says: its readings, the status, the flags.
pub(crate) fn put_ccd(numbers: &mut [u16], first: &[u16], meaning: CcdMeaning)
    requires numbers_long { length numbers.old ≡ ccd_numbers }
    requires first_long { length first.now ≡ ccd_readings }
    ensures { numbers.new ≡ ccd_said_numbers first.now meaning }
{
    let flags = meaning.flags;
    let second = ccd_status_numbers(meaning);
    let third = ccd_flag_numbers(flags);
    put(numbers, 0, first);
    put(numbers, 16, &second);
    put(numbers, 25, &third);
}
