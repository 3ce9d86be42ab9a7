// The pixel map of the high-resolution head (source document 000, section 3.6; document 02, request P5): its lighted pixels, and the time
// of their readout.
#![tactic(auto)]

ghost use Rattle.std.specs.Prelude.{◌≡◌, ◌*◌, ◌≤◌, length};
ghost use Rattle.pixels.specs.Map.{pixels, map_bytes, is_set, how_many};
ghost use Rattle.pixels.specs.Readout.{readout_time};
ghost use Rattle.pixels.specs.Measured.{lighted_of, readout_of, error_number, measured_number, map_number};

pub const ROWS: usize = 270;

pub const COLUMNS: usize = 438;

const PIXELS: u32 = (ROWS * COLUMNS) as u32;

// How many bytes a map has, and the last of them, whose lower half is spare.
pub const BYTES: usize = 14_783;

const LAST: usize = BYTES - 1;

// Why a map is refused.
#[derive(Clone, Copy, Debug, PartialEq, Eq)]
pub enum MapError {
    // It has not a map's length.
    Length,
    // A bit after the last pixel is set.
    SpareBit,
}

impl MapError {
    // Request P5's number.
    pub fn number(self) -> u8
        ensures { result ≡ error_number self }
    {
        match self {
            MapError::Length => 41,
            MapError::SpareBit => 42,
        }
    }
}

// How many bits of the bytes are set.
fn ones(map: &[u8]) -> u32
    requires { length map.now ≤ map_bytes }
    ensures { result ≡ how_many (is_set map.now) (8 * length map.now) }
{
    map.iter().map(|byte| byte.count_ones()).sum()
}

// The number of lighted pixels.
pub fn lighted(map: &[u8]) -> Result<u32, MapError>
    ensures value { result ≡ lighted_of map.now }
    ensures number { measured_number result ≡ map_number map.now }
{
    if map.len() != BYTES {
        return Err(MapError::Length);
    }
    if map[LAST] % 16 != 0 {
        return Err(MapError::SpareBit);
    }
    Ok(ones(map))
}

// The time that it takes to read out so many lighted pixels, in microseconds.
fn readout_time(lit: u32) -> u32
    requires { lit ≤ pixels }
    ensures { result ≡ readout_time lit }
{
    10 * lit + (PIXELS - lit) + 40 * ROWS as u32
}

// The time of a map's readout, in microseconds.
pub fn readout(map: &[u8]) -> Result<u32, MapError>
    ensures value { result ≡ readout_of map.now }
    ensures number { measured_number result ≡ map_number map.now }
{
    let lit = lighted(map)?;
    Ok(readout_time(lit))
}
