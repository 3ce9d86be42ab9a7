// A block is stored in a lent buffer: its readings, and then its status words.
ghost use Rattle.std.specs.Prelude.{◌+◌, ◌≡◌, ◌++◌, length};
ghost use Rattle.blocks.specs.Written.{written_if, buffer_after};

use crate::refusal::Refusal;

// The buffer must have the block's length, and in_range says whether the state is in range.
pub(crate) fn write_block(
    in_range: bool,
    readings: &[u16],
    status: &[u16],
    buffer: &mut [u16],
) -> Result<(), Refusal>
    ensures value { result ≡ written_if (length readings.now + length status.now) in_range buffer.old }
    ensures buffer_after { buffer.new ≡ buffer_after result (readings.now ++ status.now) buffer.old }
{
    let first = readings.len();
    let size = first + status.len();
    if buffer.len() != size {
        return Err(Refusal::Length);
    }
    if !in_range {
        return Err(Refusal::State);
    }
    buffer[..first].copy_from_slice(readings);
    buffer[first..].copy_from_slice(status);
    Ok(())
}
