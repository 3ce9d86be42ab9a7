// Two lists of timed words merged by tick (document 02, request P6). An entry is one number, tick x 65,536 + word.
#![tactic(auto)]

ghost use Rattle.std.specs.Prelude.{◌≡◌, length};
ghost use Rattle.timed.specs.List.{rising};
ghost use Rattle.merge.specs.Merge.{tick_in, ticks_in, merged_part};
ghost use Rattle.merge.specs.Answer.{merging_of, merging_number, merge_number, rest_after, output_after, merged_of};

pub use answer::{MergeError, Merged, Parts};
use turns::{Walked, walk, write};

pub mod answer;
mod turns;

pub fn tick_in(entry: u64) -> u64
    ensures { result ≡ tick_in entry }
{
    entry / 65536
}

// Whether the ticks of a list strictly rise.
pub fn rises(list: &[u64]) -> bool
    ensures { result ≡ rising (ticks_in list.now) }
{
    list.is_sorted_by(|before, after| tick_in(*before) < tick_in(*after))
}

// The answer for two lists and an output with so much room.
#[tactic(auto, using(crate::proofs::Answers::part_long), unfolding(crate::specs::Answer::merging_of, crate::specs::Answer::merge_number, crate::specs::ByPlaces::walk_of))]
pub fn merging(ccd: &[u64], infrared: &[u64], room: usize) -> Result<Parts, MergeError>
    ensures value { result ≡ merging_of ccd.now infrared.now room }
    ensures result_value { merging_number result ≡ merge_number ccd.now infrared.now room }
{
    if !rises(ccd) || !rises(infrared) {
        return Err(MergeError::NotRising);
    }
    let Walked { parts, same } = walk(ccd, infrared);
    let short = room < parts.ccd + parts.infrared;
    if same {
        return Err(MergeError::SameTick);
    }
    if short {
        return Err(MergeError::TooShort);
    }
    Ok(parts)
}

// Merges into the output by tick until one list runs out. A refusal writes nothing.
#[tactic(auto, unfolding(crate::specs::Answer::output_after))]
pub fn merge_into(ccd: &[u64], infrared: &[u64], merged: &mut [u64]) -> Result<Parts, MergeError>
    ensures value { result ≡ merging_of ccd.now infrared.now (length merged.old) }
    ensures result_value { merging_number result ≡ merge_number ccd.now infrared.now (length merged.old) }
    ensures merged_after { merged.new ≡ output_after result (merged_part ccd.now infrared.now) merged.old }
{
    let parts = merging(ccd, infrared, merged.len())?;
    write(ccd, infrared, merged);
    Ok(parts)
}

// The same, with the answer in numbers.
pub fn merge_counted(ccd: &[u64], infrared: &[u64], merged: &mut [u64]) -> Merged
    ensures value { result ≡ merged_of (merging_of ccd.now infrared.now (length merged.old)) ccd.now infrared.now }
    ensures number_value { result.number ≡ merge_number ccd.now infrared.now (length merged.old) }
    ensures merged_after { merged.new ≡ output_after (merging_of ccd.now infrared.now (length merged.old)) (merged_part ccd.now infrared.now) merged.old }
{
    let room = merged.len();
    let answer = merge_into(ccd, infrared, merged);
    Merged::told(answer, ccd, infrared, room)
}

// Merges into the output by tick until one list runs out, and hands back the rest of the other.
pub fn merge<'a>(ccd: &'a [u64], infrared: &'a [u64], merged: &mut [u64]) -> &'a [u64]
    ensures result_value { result.now ≡ rest_after (merging_of ccd.now infrared.now (length merged.old)) ccd.now infrared.now }
    ensures merged_after { merged.new ≡ output_after (merging_of ccd.now infrared.now (length merged.old)) (merged_part ccd.now infrared.now) merged.old }
{
    match merge_into(ccd, infrared, merged) {
        Ok(parts) => {
            if parts.ccd < ccd.len() {
                return &ccd[parts.ccd..];
            }
            &infrared[parts.infrared..]
        }
        Err(_) => &infrared[infrared.len()..],
    }
}
