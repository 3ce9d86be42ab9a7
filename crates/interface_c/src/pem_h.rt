// The requests and the pixel map of the high-resolution head, for C.
ghost use Rattle.std.specs.Prelude.{◌≡◌};
ghost use Rattle.pixels.specs.Measured.{lighted_of, readout_of};
ghost use Rattle.requests.specs.Codec.{decode_of, encode_of};
ghost use Rattle.interface.specs.PemH.{measured_answer, meaning_answer, request_answer};

#[unsafe(no_mangle)]
pub extern "C" fn shabgozim_h_lighted(map: &[u8]) -> u32
    ensures { result ≡ measured_answer (lighted_of map.now) }
{
    interface::pem_h::shabgozim_h_lighted(map)
}

#[unsafe(no_mangle)]
pub extern "C" fn shabgozim_h_readout(map: &[u8]) -> u32
    ensures { result ≡ measured_answer (readout_of map.now) }
{
    interface::pem_h::shabgozim_h_readout(map)
}

#[unsafe(no_mangle)]
pub extern "C" fn shabgozim_h_decode(word: u16) -> u32
    ensures { result ≡ meaning_answer (decode_of word) }
{
    interface::pem_h::shabgozim_h_decode(word)
}

#[unsafe(no_mangle)]
pub extern "C" fn shabgozim_h_encode(request: u8, value: u16) -> u32
    ensures { result ≡ request_answer (encode_of request value) }
{
    interface::pem_h::shabgozim_h_encode(request, value)
}
