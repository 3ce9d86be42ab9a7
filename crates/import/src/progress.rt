// What has been read of a text list, line by line.
ghost use Rattle.std.specs.Prelude.{◌≡◌, ◌<◌};
ghost use Rattle.import.specs.Read.{most_bytes, begin, next, fault, by_line, judged, answer_by};

use crate::line::{Line, is_text, line_of};
use crate::reasons::{ImportError, Reason};
use timed::MOST_WORDS;

// Why the text is refused, if it is, the lines and words so far, the least tick that may come, and whether the end came.
#[derive(Clone, Copy)]
pub(crate) struct Progress {
    pub(crate) refused: Option<Reason>,
    pub(crate) line: usize,
    pub(crate) count: usize,
    pub(crate) least: u64,
    pub(crate) ended: bool,
}

impl Progress {
    pub(crate) fn begin() -> Progress
        ensures { result ≡ begin }
    {
        Progress {
            refused: None,
            line: 0,
            count: 0,
            least: 0,
            ended: false,
        }
    }

    // One line more.
    fn next(mut self) -> Progress
        requires { self.line < most_bytes }
        ensures { result ≡ next self }
    {
        self.line = self.line + 1;
        self
    }

    // Refused at the line that was read last.
    fn fault(mut self, reason: Reason) -> Progress
        ensures { result ≡ fault self reason }
    {
        self.refused = Some(reason);
        self
    }

    // A line after the first.
    #[tactic(auto, unfolding(crate::specs::Read::by_line))]
    fn by_line(mut self, line: Option<Line>) -> Progress
        ensures { result ≡ by_line self line }
    {
        match line {
            Some(Line::Word { tick, word: _ }) => {
                if (tick as u64) < self.least {
                    return self.fault(Reason::NotRising);
                }
                if MOST_WORDS <= self.count {
                    return self.fault(Reason::TooManyWords);
                }
                self.count = self.count + 1;
                self.least = tick as u64 + 1;
                self
            }
            Some(Line::End { tick }) => {
                if (tick as u64) < self.least {
                    return self.fault(Reason::NotRising);
                }
                self.ended = true;
                self
            }
            None => self.fault(Reason::NoWordLine),
        }
    }

    #[tactic(auto, unfolding(crate::specs::Read::judged, text::specs::Lines::head_text, layout::specs::Numbers::ascii))]
    pub(crate) fn judged(self, line: &[u8]) -> Progress
        requires { self.line < most_bytes }
        ensures { result ≡ judged self line.now }
    {
        if self.refused.is_some() {
            return self;
        }
        let next = self.next();
        if self.line == 0 {
            if is_text(line, b"tick word") {
                return next;
            }
            return next.fault(Reason::NoHeadLine);
        }
        if self.ended {
            return next.fault(Reason::AfterEnd);
        }
        next.by_line(line_of(line))
    }

    // A text with no line lacks the first.
    #[tactic(auto, unfolding(crate::specs::Read::answer_by))]
    pub(crate) fn answer(self) -> Result<usize, ImportError>
        ensures { result ≡ answer_by self }
    {
        if let Some(reason) = self.refused {
            return Err(ImportError::Refused {
                reason,
                line: self.line,
            });
        }
        if self.line == 0 {
            return Err(ImportError::Refused {
                reason: Reason::NoHeadLine,
                line: 1,
            });
        }
        Ok(self.count)
    }
}
