// An answer of `shabgozim_why` in words, for C.
ghost use Rattle.std.specs.Prelude.{◌≡◌};
ghost use Rattle.explanation.specs.Explanation.{explanation_text};
ghost use Rattle.texts.specs.Texts.{words_length, words_left};
ghost use Rattle.texts.specs.Why.{unpacked_why, is_why};

#[unsafe(no_mangle)]
pub extern "C" fn shabgozim_explanation(why: u32, text: &mut [u8]) -> u32
    ensures value { result ≡ words_length (is_why why) (explanation_text (unpacked_why why)) text.old }
    ensures text_after { text.new ≡ words_left (is_why why) (explanation_text (unpacked_why why)) text.old }
{
    texts::why::shabgozim_explanation(why, text)
}
