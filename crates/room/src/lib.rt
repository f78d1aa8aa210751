// The search's three tables, one after the other in a lent slice, each of m words: the table of the current node; the kept table, which is the settled table
// of the node that was branched at last; and at each word that was branched at, the values that wait there. Beyond them a slice may have words that nobody
// touches.
//
// Assumes nothing. `requires` speaks of sizes, and of words that have a value.

#![tactic(auto)]

ghost use Rattle.std.specs.Prelude.{◌≡◌, ◌⊎◌, map, ◌+◌, ◌*◌, ◌≤◌, ◌<◌, length, set, replicate, drop, MatchOption};
ghost use Rattle.model.specs.Words.{word};
ghost use Rattle.model.specs.Layout.{little};
ghost use Rattle.model.specs.Reading.{pieces};
ghost use Rattle.laws.specs.Traversal.{base};
ghost use Rattle.room.specs.Tables.{Tables, within, Chosen, Down, Sibling, Restart, First, AllSingle, Last, NoneWait};

// The words of one table into another. A loop: std's `copy_from_slice` would end in memmove here, and the archive's header promises to need none.
pub fn copy(from: &[u64], to: &mut [u64])
    requires { length to.old ≡ length from.now }
    ensures { to.new ≡ from.now }
{
    for i in 0..to.len() {
        to[i] = from[i];
    }
}

// The root: both tables are the file's, and nothing waits.
pub fn start(bytes: &[u8], room: &mut [u64], m: usize)
    requires { (length bytes.now ≡ 8 * m) × (3 * m ≤ length room.old) }
    ensures { Tables m room.new (map little (pieces m 8 bytes.now))
        (map little (pieces m 8 bytes.now)) (replicate m 0) (drop (3 * m) room.old) }
{
    tables::unpack(bytes, &mut room[..m]);
    tables::unpack(bytes, &mut room[m..2 * m]);
    room[2 * m..3 * m].fill(0);
}

// The first word from `from` on with several values, where there is one.
pub fn branch(table: &[u64], from: usize) -> Option<usize>
    requires { from ≤ length table.now }
    ensures { MatchOption result (AllSingle table.now from) (λ at. First table.now from at) }
{
    (from..table.len()).find(|&at| words::several(table[at]))
}

// The last word before `end` at which a value waits, where one does.
pub fn waiting(table: &[u64], end: usize) -> Option<usize>
    requires { end ≤ length table.now }
    ensures { MatchOption result (NoneWait table.now end) (λ at. Last table.now end at) }
{
    (0..end).rev().find(|&at| table[at] != 0)
}

// The n words from `from` on over those from `to` on, by a loop for the same reason as `copy`. They may overlap only where they move towards the first word: no
// word is stored before it was read.
fn copy_within(room: &mut [u64], from: usize, to: usize, n: usize)
    requires { (from + n ≤ length room.old) × (to + n ≤ length room.old) × ((to ≤ from) ⊎ (from + n ≤ to)) }
    ensures { room.new ≡ within from to n room.old }
{
    for i in 0..n {
        room[to + i] = room[from + i];
    }
}

// The lowest value of word `from`, as a word of its own; the others are left in word `to`.
fn choose(room: &mut [u64], from: usize, to: usize) -> u64
    requires { (from < length room.old) × (to < length room.old) × (0 < word room.old from) }
    ensures { Chosen from to room.old room.new result }
{
    let w = room[from];
    let v = words::singleton(words::lowest(w));
    room[to] = w - v; // the others wait
    v
}

// Down: the current table is kept, and the lowest value of word `at` is taken in it, while the others wait.
pub fn down(room: &mut [u64], m: usize, at: usize)
    requires { (3 * m ≤ length room.old) × (at < m) × (0 < word room.old at) }
    ensures { Down m at room.old room.new }
{
    let v = choose(room, at, 2 * m + at);
    copy_within(room, 0, m, m); // the current table is kept
    room[at] = v;
}

// The next value that waits at word `at`, where the kept table was branched at: nothing but that value is to be decided again.
pub fn sibling(room: &mut [u64], m: usize, at: usize)
    requires { (3 * m ≤ length room.old) × (at < m) × (0 < word room.old (2 * m + at)) }
    ensures { Sibling m at room.old room.new }
{
    let v = choose(room, 2 * m + at, 2 * m + at);
    copy_within(room, m, 0, m);
    room[at] = v;
}

// Word `at` of a table becomes v, and those past it are the file's again.
fn decide(bytes: &[u8], table: &mut [u64], at: usize, v: u64)
    requires { (length bytes.now ≡ 8 * length table.old) × (at < length table.old) }
    ensures { table.new ≡ set (base (map little (pieces (length table.old) 8 bytes.now)) table.old at) at v }
{
    table[at] = v;
    tables::unpack(&bytes[8 * (at + 1)..], &mut table[at + 1..]);
}

// The next value that waits at word `at`, before the word at which the kept table was branched: of that table only the words before `at` hold there, so
// those past it are the file's again.
pub fn restart(bytes: &[u8], room: &mut [u64], m: usize, at: usize)
    requires { (length bytes.now ≡ 8 * m) × (3 * m ≤ length room.old) × (at < m) × (0 < word room.old (2 * m + at)) }
    ensures { Restart (map little (pieces m 8 bytes.now)) m at room.old room.new }
{
    let v = choose(room, 2 * m + at, 2 * m + at);
    copy_within(room, m, 0, at);
    decide(bytes, &mut room[..m], at, v);
}
