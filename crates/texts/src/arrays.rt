// The head that an array of 35 places holds, and an answer packed into one number.
ghost use Rattle.std.specs.Prelude.{◌≡◌, ◌<◌, ◌^◌, length};
ghost use Rattle.head.specs.Row.{places, numbers_of, state_of};
ghost use Rattle.interface.specs.Plans.{packed};

use head::state::Head;
use interface::state::{head_of, store_head};

pub(crate) fn load(s: &[u16]) -> Head
    requires { length s.now ≡ places }
    ensures { result ≡ state_of s.now }
{
    head_of(s)
}

pub(crate) fn store(s: &mut [u16], head: Head)
    requires { length s.old ≡ places }
    ensures { s.new ≡ numbers_of head }
{
    store_head(s, head);
}

// The number in bits 0-7, a count in bits 8-23, a length or a place in bits 32-63. `interface` has the same for itself: what both could call
// would be public, and no public function has a `requires`.
pub(crate) fn packed(number: u8, count: usize, last: usize) -> u64
    requires { (count < 2 ^ 16) × (last < 2 ^ 32) }
    ensures { result ≡ packed number count last }
{
    u64::from(number) + 0x100 * count as u64 + 0x1_0000_0000 * last as u64
}
