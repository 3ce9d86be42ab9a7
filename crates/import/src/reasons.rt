// Why a text is not read as a list.
ghost use Rattle.std.specs.Prelude.{◌≡◌};
ghost use Rattle.import.specs.Read.{reason_number, import_error_number, import_error_line};

// Why a text is refused.
#[derive(Clone, Copy, Debug, PartialEq, Eq)]
pub enum Reason {
    NoHeadLine,
    NoWordLine,
    NotRising,
    TooManyWords,
    AfterEnd,
    TooLong,
}

#[derive(Clone, Copy, Debug, PartialEq, Eq)]
pub enum ImportError {
    // The text is refused, at this line, counted from 1.
    Refused { reason: Reason, line: usize },
    // A buffer has fewer places than there are words.
    Short { count: usize },
}

impl Reason {
    // These numbers are ours, past those of documents 01 and 02.
    pub fn number(self) -> u8
        ensures { result ≡ reason_number self }
    {
        match self {
            Reason::NoHeadLine => 91,
            Reason::NoWordLine => 92,
            Reason::NotRising => 93,
            Reason::TooManyWords => 94,
            Reason::AfterEnd => 95,
            Reason::TooLong => 96,
        }
    }
}

impl ImportError {
    // The reason's number, or document 01's number of a short buffer.
    pub fn number(self) -> u8
        ensures { result ≡ import_error_number self }
    {
        match self {
            ImportError::Refused { reason, line: _ } => reason.number(),
            ImportError::Short { count: _ } => 10,
        }
    }

    // The line of a refusal, 0 for none.
    pub fn line(self) -> usize
        ensures { result ≡ import_error_line self }
    {
        match self {
            ImportError::Refused { reason: _, line } => line,
            ImportError::Short { count: _ } => 0,
        }
    }
}
