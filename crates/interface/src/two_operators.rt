// Two operators and one head: words passed on, and lists merged (document 02, request P6).
ghost use Rattle.std.specs.Prelude.{◌≡◌, length};
ghost use Rattle.words.specs.Kinds.{group_of};
ghost use Rattle.merge.specs.Merge.{merged_part};
ghost use Rattle.merge.specs.Answer.{merging_of, output_after};
ghost use Rattle.interface.specs.Operators.{pass_on_answer, pass_on_state, merge_answer};

use crate::{answers, state};
use merge::merge_counted;
use operators::pass_on;
use words::groups::group_of;

// What merging answers: the number, whose list the rest is of, how many entries were merged, and where the rest starts.
#[repr(C)]
#[derive(Clone, Copy)]
pub struct MergeAnswer {
    pub number: u32,
    pub restof: u32,
    pub count: usize,
    pub reststart: usize,
}

// The group of a kind.
pub fn shabgozim_group(kind: u8) -> u32
    ensures { result ≡ group_of kind }
{
    u32::from(group_of(kind))
}

// Passes an operator's word on to the head.
pub fn shabgozim_pass_on(state: &mut [u16], operator_group: u8, word: u16) -> u32
    ensures value { result ≡ pass_on_answer state.old operator_group word }
    ensures state_after { state.new ≡ pass_on_state state.old operator_group word }
{
    if !state::well_formed(state) {
        return answers::state_refused();
    }
    let passed = pass_on(state::load(state), operator_group, word);
    state::store(state, passed.head);
    match passed.passing {
        Ok(outcome) => outcome.number(),
        Err(error) => u32::from(error.number()),
    }
}

// Merges two lists by tick until one has run out.
pub fn shabgozim_merge(ccd: &[u64], infrared: &[u64], merged: &mut [u64]) -> MergeAnswer
    ensures value { result ≡ merge_answer ccd.now infrared.now (length merged.old) }
    ensures merged_after { merged.new ≡ output_after (merging_of ccd.now infrared.now (length merged.old)) (merged_part ccd.now infrared.now) merged.old }
{
    let answer = merge_counted(ccd, infrared, merged);
    MergeAnswer {
        number: u32::from(answer.number),
        restof: u32::from(answer.list),
        count: answer.count,
        reststart: answer.start,
    }
}
