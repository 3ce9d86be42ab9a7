// The C interface of the high-resolution head: its requests and its pixel map.
ghost use Rattle.std.specs.Prelude.{◌≡◌};
ghost use Rattle.pixels.specs.Measured.{lighted_of, readout_of};
ghost use Rattle.requests.specs.Codec.{decode_of, encode_of};
ghost use Rattle.interface.specs.PemH.{measured_answer, meaning_answer, request_answer};

use pixels::{MapError, lighted, readout};
use requests::{Meaning, RequestError};

fn measured_number(found: Result<u32, MapError>) -> u32
    ensures { result ≡ measured_answer found }
{
    match found {
        Ok(value) => value,
        Err(error) => u32::from(error.number()) * 0x1000000,
    }
}

fn meaning_number(found: Result<Meaning, RequestError>) -> u32
    ensures { result ≡ meaning_answer found }
{
    match found {
        Ok(meaning) => u32::from(meaning.request()) * 0x10000 + u32::from(meaning.value()),
        Err(error) => u32::from(error.number()) * 0x1000000,
    }
}

fn request_number(made: Result<u16, RequestError>) -> u32
    ensures { result ≡ request_answer made }
{
    match made {
        Ok(word) => u32::from(word),
        Err(error) => u32::from(error.number()) * 0x1000000,
    }
}

// The number of lighted pixels of a map.
pub fn shabgozim_h_lighted(map: &[u8]) -> u32
    ensures { result ≡ measured_answer (lighted_of map.now) }
{
    measured_number(lighted(map))
}

// The time of a map's readout, in microseconds.
pub fn shabgozim_h_readout(map: &[u8]) -> u32
    ensures { result ≡ measured_answer (readout_of map.now) }
{
    measured_number(readout(map))
}

// What a word means to the head.
pub fn shabgozim_h_decode(word: u16) -> u32
    ensures { result ≡ meaning_answer (decode_of word) }
{
    meaning_number(requests::decode(word))
}

// The word of a request with a value.
pub fn shabgozim_h_encode(request: u8, value: u16) -> u32
    ensures { result ≡ request_answer (encode_of request value) }
{
    request_number(requests::encode(request, value))
}
