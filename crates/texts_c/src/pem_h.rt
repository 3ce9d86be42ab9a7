// The texts of the high-resolution head, for C.
ghost use Rattle.std.specs.Prelude.{◌≡◌};
ghost use Rattle.picture.specs.Printed.{refusal_text};
ghost use Rattle.texts.specs.Texts.{words_length, words_left};
ghost use Rattle.texts.specs.PemH.{picture_answer, picture_left, is_pem_h_refusal};

#[unsafe(no_mangle)]
pub extern "C" fn shabgozim_h_picture(map: &[u8], text: &mut [u8]) -> u64
    ensures value { result ≡ picture_answer map.now text.old }
    ensures text_after { text.new ≡ picture_left map.now text.old }
{
    texts::pem_h::shabgozim_h_picture(map, text)
}

#[unsafe(no_mangle)]
pub extern "C" fn shabgozim_h_refusal(number: u8, text: &mut [u8]) -> u32
    ensures value { result ≡ words_length (is_pem_h_refusal number) (refusal_text number) text.old }
    ensures text_after { text.new ≡ words_left (is_pem_h_refusal number) (refusal_text number) text.old }
{
    texts::pem_h::shabgozim_h_refusal(number, text)
}
