// What merging answers (document 02, request P6).
ghost use Rattle.std.specs.Prelude.{◌≡◌, ◌≤◌};
ghost use Rattle.merge.specs.Answer.{merge_error_number, merged_count, merged_of};

use words::groups::{CCD, INFRARED};

// How many entries of each list the merged part has.
#[derive(Clone, Copy, Debug, PartialEq, Eq)]
pub struct Parts {
    pub ccd: usize,
    pub infrared: usize,
}

// Why two lists are not merged.
#[derive(Clone, Copy, Debug, PartialEq, Eq)]
pub enum MergeError {
    // The ticks of a list do not strictly rise.
    NotRising,
    // The same tick stands in both lists.
    SameTick,
    // The output has too little room for the merged part.
    TooShort,
}

// The answer in numbers, as C is told it: request P6's number, 0 for none; whose list the rest is of; how many entries are merged; where the rest starts.
#[derive(Clone, Copy)]
pub struct Merged {
    pub number: u8,
    pub list: u8,
    pub count: usize,
    pub start: usize,
}

impl MergeError {
    // Request P6's number.
    pub fn number(self) -> u8
        ensures { result ≡ merge_error_number self }
    {
        match self {
            MergeError::NotRising => 52,
            MergeError::SameTick => 53,
            MergeError::TooShort => 54,
        }
    }
}

impl Merged {
    // The answer in numbers, 0 where there is nothing to refuse. The count is at most the room of the output.
    #[tactic(auto, unfolding(crate::specs::Answer::merged_of, crate::specs::Answer::merged_count, crate::specs::Answer::rest_list, crate::specs::Answer::rest_start))]
    pub(crate) fn told(
        merging: Result<Parts, MergeError>,
        ccd: &[u64],
        infrared: &[u64],
        room: usize,
    ) -> Merged
        requires { merged_count merging ≤ room }
        ensures { result ≡ merged_of merging ccd.now infrared.now }
    {
        match merging {
            Ok(parts) => {
                let count = parts.ccd + parts.infrared;
                if parts.ccd < ccd.len() {
                    return Merged {
                        number: 0,
                        list: CCD,
                        count,
                        start: parts.ccd,
                    };
                }
                Merged {
                    number: 0,
                    list: INFRARED,
                    count,
                    start: parts.infrared,
                }
            }
            Err(error) => Merged {
                number: error.number(),
                list: INFRARED,
                count: 0,
                start: infrared.len(),
            },
        }
    }
}
