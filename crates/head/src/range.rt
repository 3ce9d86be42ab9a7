// Whether a state is in range, asked of the row of its numbers.
ghost use Rattle.std.specs.Prelude.{◌≡◌, true, cond};
ghost use Rattle.head.specs.Range.{in_range};
ghost use Rattle.head.specs.ByRow.{most, at_most, received, lasting};

use crate::state::Head;

// The limit of each number of a row that has one of its own: all but the data of a begun set. A row of its own, in the order of the state's, so that
// the compiler compares eight at a time.
const MOST: [u16; 32] = [
    Head::MOST_BIT, // detector
    Head::MOST_BIT, // mode
    Head::MOST_VOLTAGE, // vdetcom
    Head::MOST_VOLTAGE, // vdetadj
    Head::MOST_TIME, // irdelay
    Head::MOST_TIME, // irexpo
    Head::MOST_TIME, // ccddelay
    Head::MOST_TIME, // ccdexpo
    Head::MOST_X, // x1
    Head::MOST_Y, // y1
    Head::MOST_X, // x2
    Head::MOST_Y, // y2
    Head::MOST_CCD_LAMP, // ccdlamp
    Head::MOST_IR_LAMP, // irlamp
    Head::MOST_SHUTTER, // shutter
    Head::MOST_ANNEALING, // annealing
    Head::MOST_SINE, // sine
    Head::MOST_COSINE, // cosine
    Head::MOST_BIT, // switch
    Head::MOST_BIT, // direction
    Head::MOST_LATCH, // vdetcom latch
    Head::MOST_LATCH, // vdetadj latch
    Head::MOST_BIT, // irtime
    Head::MOST_BIT, // irword
    Head::MOST_BIT, // scan
    Head::MOST_BIT, // vistime
    Head::MOST_BIT, // visword
    Head::HOUSEKEEPING, // task
    Head::LONGEST, // busy
    Head::MIRROR_TICKS, // mirror
    Head::MOST_COVER_TICKS, // cover
    Head::MOST_BEGUN, // count
];

// Whether no number of a row lies above its limit: how far each does is joined, and compared with 0 once, since the compiler does eight
// at a time so, and none where a chain stops at the first.
fn within(row: [u16; 35]) -> bool
    ensures { result ≡ at_most row most }
{
    let most = MOST;
    let mut excess = 0;
    for (i, limit) in most.iter().enumerate() {
        excess |= row[i].saturating_sub(*limit);
    }
    excess == 0
}

// The most of a place of a begun set: 0 before it is received.
fn most_if(received: bool, most: u16) -> u16
    ensures { result ≡ cond received most 0 }
{
    if received { most } else { 0 }
}

// Whether the data of a begun set of so many words are in range.
#[tactic(auto, unfolding(crate::specs::ByRow::received, words::specs::Kinds::greatest, words::specs::Kinds::rows))]
fn is_received(count: u16, sinm: u16, sinl: u16, cosm: u16) -> bool
    ensures { result ≡ received count sinm sinl cosm }
{
    (sinm <= most_if(1 <= count, Head::MOST_SIN_M))
        & (sinl <= most_if(2 <= count, Head::MOST_SIN_L))
        & (cosm <= most_if(3 <= count, Head::MOST_COS_M))
}

// Whether a task may have so many ticks left.
#[tactic(auto, unfolding(crate::specs::ByRow::lasting))]
fn is_lasting(task: u16, busy: u16) -> bool
    ensures { result ≡ lasting task busy }
{
    match task {
        Head::NO_TASK => busy == 0,
        Head::ACQUISITION => 1 <= busy,
        _ => (1 <= busy) & (busy <= Head::HK_TICKS),
    }
}

// A state in range.
#[derive(Clone, Copy)]
pub(crate) struct Ranged {
    pub(crate) head: Head,
    ghost ranged: { in_range head ≡ true },
}

impl Head {
    pub fn in_range(self) -> bool
        ensures { result ≡ in_range self }
    {
        let row = self.numbers();
        let delay = row[6];
        let task = row[27];
        let busy = row[28];
        let count = row[31];
        let sinm = row[32];
        let sinl = row[33];
        let cosm = row[34];
        within(row)
            & (Head::LEAST_CCD_DELAY <= delay)
            & is_received(count, sinm, sinl, cosm)
            & is_lasting(task, busy)
    }
}
