// A text cut into lines.
ghost use Rattle.std.specs.Prelude.{◌≡◌, ◌==◌, length, position};
ghost use Rattle.std.specs.Iterator.{YieldsFirstRef, item_count};
ghost use Rattle.import.specs.Read.{lines};

const NEWLINE: u8 = b'\n';

// The place of the first newline.
fn newline_in(text: &[u8]) -> Option<usize>
    ensures { result ≡ position (λ c. c == 10) text.now }
{
    text.iter().position(|byte| *byte == NEWLINE)
}

// The lines of a text, without their newlines.
#[derive(Drop)]
pub(crate) struct Lines<'a> {
    pub(crate) rest: &'a [u8],
}

impl<'a> Iterator for Lines<'a> {
    type Item = &'a [u8];

    ghost next_gives = { YieldsFirstRef (λ s. lines s.rest.now) };

    ghost remaining = { item_count (λ s. lines s.rest.now) };

    fn next(&mut self) -> Option<&'a [u8]> {
        let text = self.rest;
        if text.is_empty() {
            return None;
        }
        let Some(end) = newline_in(text) else {
            self.rest = &[];
            return Some(text);
        };
        self.rest = &text[end + 1..];
        Some(&text[..end])
    }
}

pub(crate) fn line_count(text: &[u8]) -> usize
    ensures { result ≡ length (lines text.now) }
{
    (Lines { rest: text }).count()
}
