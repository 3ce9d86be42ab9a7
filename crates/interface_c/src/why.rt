// Why a word did nothing, for C.
ghost use Rattle.std.specs.Prelude.{◌≡◌};
ghost use Rattle.interface.specs.Why.{why_answer};

#[unsafe(no_mangle)]
pub extern "C" fn shabgozim_why(state: &[u16], word: u16) -> u32
    ensures { result ≡ why_answer state.now word }
{
    interface::why::shabgozim_why(state, word)
}
