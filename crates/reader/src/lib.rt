// A reader over lent bytes that remembers its place: each number or record that it reads moves it on.
//
// Assumes nothing. `requires` asks that the bytes are there, and that the number fits.

#![tactic(auto)]

ghost use Rattle.std.specs.Prelude.{◌≡◌, ◌+◌, ◌-◌, ◌≤◌, length};
ghost use Rattle.model.specs.Layout.{little, part};
ghost use Rattle.reader.specs.Places.{after};

#[derive(Clone, Copy)]
pub struct Reader<'a> {
    pub bytes: &'a [u8],
    pub at: usize,
}

// The number of n bytes, little-endian, from a place on. By hand: from an array of four bytes, as `from_le_bytes` takes, n of
// them would first be copied.
pub fn number_at(bytes: &[u8], at: usize, n: usize) -> u32
    requires { (at + n ≤ length bytes.now) × (n ≤ 4) }
    ensures { result ≡ little (part at n bytes.now) }
{
    let mut r = 0;
    for &byte in bytes[at..at + n].iter().rev() {
        r = byte as u32 + 256 * r;
    }
    r
}

impl Reader<'_> {
    // The next number, of n bytes.
    pub fn next(&mut self, n: usize) -> u32
        requires { (self.old.at + n ≤ length self.old.bytes.now) × (n ≤ 4) }
        ensures number { result ≡ little (part self.old.at n self.old.bytes.now) }
        ensures place { self.new ≡ after self.old n }
    {
        let number = number_at(self.bytes, self.at, n);
        self.at += n;
        number
    }

    // The next record: the number of its four bytes.
    pub fn record(&mut self) -> u32
        requires { self.old.at + 4 ≤ length self.old.bytes.now }
        ensures number { result ≡ little (part self.old.at 4 self.old.bytes.now) }
        ensures place { self.new ≡ after self.old 4 }
    {
        self.next(4)
    }

    // How many bytes there are from the place on. Past the end there are none.
    pub fn left(&self) -> usize
        ensures { result ≡ length self.now.bytes.now - self.now.at }
    {
        self.bytes.len().saturating_sub(self.at)
    }
}
