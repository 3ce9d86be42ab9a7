// A writer of text: the bytes that are lent to it, and how many of them are written. What finds no room is left out.
ghost use Rattle.std.specs.Prelude.{◌≡◌, ◌≤◌, length, min};

#[derive(Drop)]
pub struct Writer<'a> {
    pub out: &'a mut [u8],
    pub at: usize,
    ghost within: { at ≤ length out.now },
}

impl<'a> Writer<'a> {
    // Nothing is written yet.
    pub fn new(out: &'a mut [u8]) -> Writer<'a>
        ensures lent { result.out.ghost_name ≡ out.entry.ghost_name }
        ensures bytes { result.out.now ≡ out.old }
        ensures start { result.at ≡ 0 }
    {
        Writer { out, at: 0 }
    }

    // Writes from a place on; where the place lies past the end, there is no room.
    pub fn starting_at(out: &'a mut [u8], at: usize) -> Writer<'a>
        ensures lent { result.out.ghost_name ≡ out.entry.ghost_name }
        ensures bytes { result.out.now ≡ out.old }
        ensures start { result.at ≡ min at (length out.old) }
    {
        let within = at.min(out.len());
        Writer { out, at: within }
    }

    // The place behind what is written.
    pub fn len(&self) -> usize
        ensures { result ≡ self.now.at }
    {
        self.at
    }
}
