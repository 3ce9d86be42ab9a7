// From a tick that ends a task to the two blocks.
#![tactic(auto)]

ghost use Rattle.std.specs.Prelude.{◌≡◌};
ghost use Rattle.blocks.specs.Numbers.{written_number, written_place};
ghost use Rattle.blocks.specs.Written.{buffer_after};
ghost use Rattle.blocks.specs.Ir.{ir_block_of};
ghost use Rattle.blocks.specs.Ccd.{ccd_block_of};
ghost use Rattle.due.specs.Numbers.{due_written_number, due_written_place};
ghost use Rattle.due.specs.Due.{both_written_of, both_number, due_written_of, due_number, ir_due_after, ccd_due_after};

use blocks::ccd::{CCD_WORDS, CcdBits, write_ccd};
use blocks::ir::{IrBits, write_ir};
use blocks::refusal::{self, Refusal};
use head::state::{Flags, Head, Task};
use head::tick::{Due, Ticked};

// What the caller gives for both blocks.
#[derive(Clone, Copy)]
pub struct Given {
    pub irreadings: [u16; 14],
    pub irbits: IrBits,
    pub ccdreadings: [u16; 16],
    pub ccdbits: CcdBits,
}

// Where no block is due: document 01 has no number for that, and this one tells it from 0, blocks that are written.
pub const NOT_DUE: u8 = 255;

// Document 01's number; 0 where both blocks are written.
pub fn number_of(written: Option<Result<(), Refusal>>) -> u8
    ensures { result ≡ due_written_number written }
{
    match written {
        None => NOT_DUE,
        Some(answer) => refusal::number_of(&answer),
    }
}

pub fn place_of(written: Option<Result<(), Refusal>>) -> usize
    ensures { result ≡ due_written_place written }
{
    match written {
        None => 0,
        Some(answer) => refusal::place_of(&answer),
    }
}

// Writes both blocks, or neither.
pub fn write_both(
    head: Head,
    flags: Flags,
    acquired: bool,
    given: Given,
    ir: &mut [u16],
    ccd: &mut [u16],
) -> Result<(), Refusal>
    ensures value { result ≡ both_written_of head ir.old ccd.old }
    ensures number { written_number result ≡ both_number head ir.old ccd.old }
    ensures place { written_place result ≡ 0 }
    ensures ir_after { ir.new ≡ buffer_after result (ir_block_of head flags acquired given.irreadings given.irbits) ir.old }
    ensures ccd_after { ccd.new ≡ buffer_after result (ccd_block_of head flags acquired given.ccdreadings given.ccdbits) ccd.old }
{
    if ccd.len() != CCD_WORDS {
        return Err(Refusal::Length);
    }
    write_ir(head, flags, acquired, given.irreadings, given.irbits, ir)?;
    write_ccd(head, flags, acquired, given.ccdreadings, given.ccdbits, ccd)
}

// Writes both blocks where they are due, with the caller's readings and bits; else neither buffer is touched.
pub fn write_due(
    ticked: Ticked,
    given: Given,
    ir: &mut [u16],
    ccd: &mut [u16],
) -> Option<Result<(), Refusal>>
    ensures value { result ≡ due_written_of ticked.head ticked.due ir.old ccd.old }
    ensures number { due_written_number result ≡ due_number ticked.head ticked.due ir.old ccd.old }
    ensures place { due_written_place result ≡ 0 }
    ensures ir_after { ir.new ≡ ir_due_after ticked.head ticked.due given.irreadings given.irbits ir.old ccd.old }
    ensures ccd_after { ccd.new ≡ ccd_due_after ticked.head ticked.due given.ccdreadings given.ccdbits ir.old ccd.old }
{
    match ticked.due {
        Due::Blocks { ended, flags } => {
            let acquired = ended == Task::Acquisition;
            Some(write_both(ticked.head, flags, acquired, given, ir, ccd))
        }
        Due::Nothing | Due::Refused => None,
    }
}
