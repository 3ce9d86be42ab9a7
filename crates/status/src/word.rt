// A status word: what it says, in bits and back.
ghost use Rattle.std.specs.Prelude.{◌≡◌, ℕ, eqb};

pub trait StatusWord: Copy {
    ghost word_of: { Self → ℕ };

    ghost said_in: { ℕ → Self };

    fn word(self) -> u16
        ensures { result ≡ word_of self };

    fn in_word(word: u16) -> Self
        ensures { result ≡ said_in word };

    // Whether each fixed bit of the word is right: the word is that of what it says.
    final fn right(word: u16) -> bool
        ensures { result ≡ eqb (word_of (said_in word)) word }
    {
        Self::in_word(word).word() == word
    }
}
