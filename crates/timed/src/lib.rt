// Lists of timed words: as many ticks as words, rising (document 02, request P1).
#![tactic(auto)]

ghost use Rattle.std.specs.Prelude.{◌≡◌, true, IsSome, IfSome, ◌↔◌};
ghost use Rattle.timed.specs.List.{rising, is_list};

// The most words of a list.
pub const MOST_WORDS: usize = 256;

// Whether each tick is after the one before it.
pub fn rise(ticks: &[u32]) -> bool
    ensures { result ≡ rising ticks.now }
{
    ticks.is_sorted_by(|earlier, later| *earlier < *later)
}

// Whether words and ticks make a list.
#[tactic(auto, unfolding(crate::specs::List::is_list))]
pub fn is_list(words: &[u16], ticks: &[u32]) -> bool
    ensures { result ≡ is_list words.now ticks.now }
{
    words.len() == ticks.len() && words.len() <= MOST_WORDS && rise(ticks)
}

// Words and ticks that are known to make a list.
#[derive(Clone, Copy)]
pub struct TimedList<'a> {
    pub words: &'a [u16],
    pub ticks: &'a [u32],
    ghost listed: { is_list words.now ticks.now ≡ true },
}

impl<'a> TimedList<'a> {
    // A list, if words and ticks make one.
    pub fn new(words: &'a [u16], ticks: &'a [u32]) -> Option<TimedList<'a>>
        ensures judged { IsSome result ↔ (is_list words.now ticks.now ≡ true) }
        ensures value { IfSome result (λ l. (l.words.now ≡ words.now) × (l.ticks.now ≡ ticks.now)) }
    {
        if is_list(words, ticks) {
            Some(TimedList { words, ticks })
        } else {
            None
        }
    }
}
