// A record's body: the request's numbers, the answer's numbers, two bytes each, then bytes.
// Each is read at its place, and is 0 past the end.
ghost use Rattle.std.specs.Prelude.{◌≡◌, ◌≤◌, take, drop, get_or};
ghost use Rattle.replay_body.specs.Bodies.{number_at, length_at};

// The bytes of a body, or of its rest.
#[derive(Clone, Copy)]
pub struct Body<'a>(pub &'a [u8]);

impl<'a> Body<'a> {
    // What follows the first `n` bytes.
    pub fn after(self, n: usize) -> Body<'a>
        ensures { result.0.now ≡ drop n self.entry.0.now }
    {
        Body(self.0.get(n..).unwrap_or(&[]))
    }

    // The first `n` bytes, or all where there are fewer. (A method for its contract, which says `take`.)
    pub fn before(self, n: usize) -> &'a [u8]
        ensures { result.now ≡ take n self.entry.0.now }
    {
        self.0.get(..n).unwrap_or(self.0)
    }

    // The byte at `at`; 0 past the end. (A method for its contract, which says `get_or`.)
    pub fn byte(self, at: usize) -> u8
        ensures { result ≡ get_or self.entry.0.now at 0 }
    {
        base::slices::byte_at(self.0, at)
    }

    // The two bytes at `at`, the lower one first; 0 past the end.
    pub fn word(self, at: usize) -> u16
        ensures { result ≡ number_at self.entry.0.now at }
    {
        match self.after(at).0 {
            [low, high, ..] => u16::from_le_bytes([*low, *high]),
            _ => 0,
        }
    }

    // The number in the two bytes at `at`.
    pub fn number(self, at: usize) -> usize
        ensures number { result ≡ number_at self.entry.0.now at }
        ensures within { result ≤ 65535 }
    {
        usize::from(self.word(at))
    }

    // The number in the three bytes at `at`, the lowest first; 0 past the end.
    pub fn length(self, at: usize) -> usize
        ensures number { result ≡ length_at self.entry.0.now at }
        ensures within { result ≤ 16777215 }
    {
        match self.after(at).0 {
            [low, middle, high, ..] => usize::from(u16::from_le_bytes([*low, *middle]))
                + 65536 * usize::from(*high),
            _ => 0,
        }
    }
}
