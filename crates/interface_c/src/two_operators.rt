// Two operators and one head, for C.
ghost use Rattle.std.specs.Prelude.{◌≡◌, length};
ghost use Rattle.words.specs.Kinds.{group_of};
ghost use Rattle.merge.specs.Merge.{merged_part};
ghost use Rattle.merge.specs.Answer.{merging_of, output_after};
ghost use Rattle.interface.specs.Operators.{pass_on_answer, pass_on_state, merge_answer};

use interface::two_operators::MergeAnswer;

#[unsafe(no_mangle)]
pub extern "C" fn shabgozim_group(kind: u8) -> u32
    ensures { result ≡ group_of kind }
{
    interface::two_operators::shabgozim_group(kind)
}

#[unsafe(no_mangle)]
pub extern "C" fn shabgozim_pass_on(state: &mut [u16], operator_group: u8, word: u16) -> u32
    ensures value { result ≡ pass_on_answer state.old operator_group word }
    ensures state_after { state.new ≡ pass_on_state state.old operator_group word }
{
    interface::two_operators::shabgozim_pass_on(state, operator_group, word)
}

#[unsafe(no_mangle)]
pub extern "C" fn shabgozim_merge(ccd: &[u64], infrared: &[u64], merged: &mut [u64]) -> MergeAnswer
    ensures value { result ≡ merge_answer ccd.now infrared.now (length merged.old) }
    ensures merged_after { merged.new ≡ output_after (merging_of ccd.now infrared.now (length merged.old)) (merged_part ccd.now infrared.now) merged.old }
{
    interface::two_operators::shabgozim_merge(ccd, infrared, merged)
}
