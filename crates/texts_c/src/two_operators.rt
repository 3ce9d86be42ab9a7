// The texts of two operators, for C.
ghost use Rattle.std.specs.Prelude.{◌≡◌};
ghost use Rattle.merged.specs.Refusal.{refusal_text};
ghost use Rattle.texts.specs.Texts.{words_length, words_left};
ghost use Rattle.texts.specs.Operators.{merge_texts_answer, merge_texts_left, is_operator_refusal};

#[unsafe(no_mangle)]
pub extern "C" fn shabgozim_merge_texts(ccd: &[u8], infrared: &[u8], text: &mut [u8]) -> u64
    ensures value { result ≡ merge_texts_answer ccd.now infrared.now text.old }
    ensures text_after { text.new ≡ merge_texts_left ccd.now infrared.now text.old }
{
    texts::two_operators::shabgozim_merge_texts(ccd, infrared, text)
}

#[unsafe(no_mangle)]
pub extern "C" fn shabgozim_operator_refusal(number: u8, text: &mut [u8]) -> u32
    ensures value { result ≡ words_length (is_operator_refusal number) (refusal_text number) text.old }
    ensures text_after { text.new ≡ words_left (is_operator_refusal number) (refusal_text number) text.old }
{
    texts::two_operators::shabgozim_operator_refusal(number, text)
}
