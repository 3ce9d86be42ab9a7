// A head's state as an array of 35 numbers.
ghost use Rattle.std.specs.Prelude.{◌≡◌, ◌+◌, ◌≤◌, length};
ghost use Rattle.std.proofs.lemmas.List.Edits.{sets};
ghost use Rattle.head.specs.Row.{places, numbers_of, state_of};
ghost use Rattle.interface.specs.State.{head_of, stored_in, well_formed};

use head::state::{Begun, FlagBits, Head, Latches, Motion, Settings, Work};

pub const PLACES: usize = 35;

// Whether an array holds a state, in range or not.
pub fn well_formed(s: &[u16]) -> bool
    ensures { result ≡ well_formed s.now }
{
    s.len() == PLACES
}

// Copies the numbers into the array from a place on.
pub(crate) fn put(s: &mut [u16], at: usize, numbers: &[u16])
    requires { at + length numbers.now ≤ length s.old }
    ensures { s.new ≡ sets s.old at numbers.now }
{
    let end = at + numbers.len();
    s[at..end].copy_from_slice(numbers);
}

pub(crate) fn load(s: &[u16]) -> Head
    requires { length s.now ≡ places }
    ensures { result ≡ state_of s.now }
{
    Head {
        settings: Settings::from([
            s[0], s[1], s[2], s[3], s[4], s[5], s[6], s[7], s[8], s[9], s[10], s[11], s[12], s[13],
            s[14], s[15], s[16], s[17], s[18], s[19],
        ]),
        latches: Latches {
            vdetcom: s[20],
            vdetadj: s[21],
        },
        flags: FlagBits {
            irtime: s[22],
            irword: s[23],
            scan: s[24],
            vistime: s[25],
            visword: s[26],
        },
        work: Work {
            task: s[27],
            busy: s[28],
        },
        motion: Motion {
            mirror: s[29],
            cover: s[30],
        },
        begun: Begun {
            count: s[31],
            sinm: s[32],
            sinl: s[33],
            cosm: s[34],
        },
    }
}

pub(crate) fn store(s: &mut [u16], head: Head)
    requires { length s.old ≡ places }
    ensures { s.new ≡ numbers_of head }
{
    s.copy_from_slice(&head.numbers());
}

// For other crates: the head that an array holds, and power-on where it has not 35 places.
pub fn head_of(s: &[u16]) -> Head
    ensures { result ≡ head_of s.now }
{
    if s.len() == PLACES {
        return load(s);
    }
    Head::power_on()
}

// Stores a head in an array of 35 places; any other is left as it was.
pub fn store_head(s: &mut [u16], head: Head)
    ensures { s.new ≡ stored_in head s.old }
{
    if s.len() == PLACES {
        store(s, head);
    }
}
