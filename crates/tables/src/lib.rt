// The words of a table: read from a file's bytes, and looked at for symbols outside the alphabet (refusals 6 and 10).
//
// Assumes nothing. `requires` asks what refusals 3, 4 and 9 leave: counts in range, and room for the words that are read.

#![tactic(auto)]

ghost use Rattle.std.specs.Prelude.{◌≡◌, List, map, ℕ, ◌<◌, ◌≤◌, ◌+◌, ◌*◌, length};
ghost use Rattle.model.specs.Layout.{little};
ghost use Rattle.model.specs.Reading.{pieces, symbols_below};
ghost use Rattle.tables.specs.Low.{low_at, Gives};

// Whether w may stand as word i of a string's row: a length word always may.
#[tactic(auto, unfolding(crate::specs::Low::low_at))]
fn low_at(w: u64, i: usize, k: usize) -> bool
    requires { (1 ≤ k) × (k ≤ 64) }
    ensures { result ≡ low_at k i w }
{
    i % 64 == 0 || words::none_from(w, k)
}

// Whether no symbol word of s rows has a bit at k or above, where `word` gives the words of the rows, one after the other.
fn rows_low<F: Fn(usize) -> u64>(k: usize, s: usize, word: F) -> bool
    requires counts { (1 ≤ k) × (k ≤ 64) × (s ≤ 16) }
    requires words { (i : ℕ) → i < 64 * s → F.pre word i }
    ensures { (T : List ℕ) → Gives (F.post word) (64 * s) T → result ≡ symbols_below k s T }
{
    let end = 64 * s; // number words stand from here on
    for i in 0..end {
        if !low_at(word(i), i, k) {
            return false;
        }
    }
    true
}

// k and s come as two numbers to both tests, and not as a file's parts: this crate knows words and no layout, and of the parts it would ask what these two say.

// Refusal 6: whether no symbol word of the file's table, of s rows and any count t of number words, has a bit at k or above.
pub fn file_low(bytes: &[u8], k: usize, s: usize) -> bool
    requires { (1 ≤ k) × (k ≤ 64) × (s ≤ 16) × (8 * (64 * s) ≤ length bytes.now) }
    ensures { (t : ℕ) → result ≡ symbols_below k s (map little (pieces (64 * s + t) 8 bytes.now)) }
{
    rows_low(k, s, |i| little::eight(bytes, 8 * i))
}

// Refusal 10: the same of a lent table.
pub fn table_low(table: &[u64], k: usize, s: usize) -> bool
    requires { (1 ≤ k) × (k ≤ 64) × (s ≤ 16) × (64 * s ≤ length table.now) }
    ensures { result ≡ symbols_below k s table.now }
{
    rows_low(k, s, |i| table[i])
}

// The file's table, word by word, into the lent one.
pub fn unpack(bytes: &[u8], table: &mut [u64])
    requires { length bytes.now ≡ 8 * length table.old }
    ensures { table.new ≡ map little (pieces (length table.old) 8 bytes.now) }
{
    for (i, word) in table.iter_mut().enumerate() {
        *word = little::eight(bytes, 8 * i);
    }
}
