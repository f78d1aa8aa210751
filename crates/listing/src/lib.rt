// The listing: what the program prints for the bytes of its standard input, written into a lent buffer.
//
// Assumes nothing. No public function has a `requires`.

#![tactic(auto)]

ghost use Rattle.std.specs.Prelude.{◌≡◌, ◌*◌, ◌≤◌, ◌<◌, leb, length, get_or, drop};
ghost use mathlib.Core.List.{◌∷◌, [], ◌++◌, flat_map, map};
ghost use Rattle.model.specs.Replies.{require};
ghost use Rattle.model.specs.Reading.{reading};
ghost use Rattle.model.specs.Listing.{decimal, field, line, string_line, number_line, search_lines, listing};
ghost use Rattle.listing.specs.Writing.{Capacity, FullCapacity, Wrote, Replied, printed};
ghost use Rattle.listing.specs.TableLines.{only_value, text_of, row_lines, word_lines, table_lines, Lengths, Counted, Lent};

use cobleskeg::{Outcome, Refusal};

// The bytes of the largest file.
const LARGEST: usize = 25024;

// The nodes that the search may visit.
const BUDGET: u32 = 65536;

// The bytes of the longest listing, 12 + 16 * 196 + 16 * 7: `found 65536` with its newline has 12; a string's line at most 196, which are 6 for `s15 63`, 3 for
// each of 63 symbols, and the newline; a number's line at most 7, as `n15 63` has.
pub const LONGEST: usize = 3260;

// A lent buffer, and how many of its bytes are written.
#[derive(Drop)]
struct Page<'a> {
    lines: &'a mut [u8],
    at: usize,
}

impl<'a> Page<'a> {
    // Writes these bytes behind what is written; so do the functions that follow.
    fn put(&mut self, bytes: &[u8])
        requires { Capacity self.old bytes.now }
        ensures { Wrote self.old bytes.now self.new }
    {
        let end = self.at + bytes.len();
        self.lines[self.at..end].copy_from_slice(bytes);
        self.at = end;
    }

    // A byte.
    fn byte(&mut self, b: u8)
        requires { Capacity self.old (b ∷ []) }
        ensures { Wrote self.old (b ∷ []) self.new }
    {
        self.lines[self.at] = b;
        self.at += 1;
    }

    // A number in decimal: the numeral of its tenth part, and then its last digit.
    fn numeral(&mut self, n: usize)
        requires { Capacity self.old (decimal n) }
        ensures { Wrote self.old (decimal n) self.new }
    {
        if n >= 10 {
            self.numeral(n / 10);
        }
        self.byte((48 + n % 10) as u8);
    }

    // A number directly behind a byte: the letter of the variable whose position it is, or the space before its field.
    fn marked(&mut self, mark: u8, n: usize)
        requires { Capacity self.old (mark ∷ decimal n) }
        ensures { Wrote self.old (mark ∷ decimal n) self.new }
    {
        self.byte(mark);
        self.numeral(n);
    }

    // The first line: how it ended, with the count of nodes or the number of the refusal.
    fn ending(&mut self, name: &[u8], n: usize)
        requires { Capacity self.old (line name.now (n ∷ [])) }
        ensures { Wrote self.old (line name.now (n ∷ [])) self.new }
    {
        self.put(name);
        self.marked(b' ', n);
        self.byte(b'\n');
    }

    // A field for the value of each domain.
    fn values(&mut self, domains: &[u64])
        requires { Capacity self.old (flat_map field (map only_value domains.now)) }
        ensures { Wrote self.old (flat_map field (map only_value domains.now)) self.new }
    {
        for &domain in domains {
            self.marked(b' ', value(domain));
        }
    }

    // The line of string x: its length, and the symbols at its places.
    fn string_line(&mut self, x: usize, row: &[u64])
        requires { (length row.now ≡ 64) × (only_value (get_or row.now 0 0) < 64) × Capacity self.old (string_line x (text_of row.now)) }
        ensures { Wrote self.old (string_line x (text_of row.now)) self.new }
    {
        let length = value(row[0]);
        self.marked(b's', x);
        self.marked(b' ', length);
        self.values(&row[1..length + 1]);
        self.byte(b'\n');
    }

    // The line of number x.
    fn number_line(&mut self, x: usize, word: u64)
        requires { Capacity self.old (number_line x (only_value word)) }
        ensures { Wrote self.old (number_line x (only_value word)) self.new }
    {
        self.marked(b'n', x);
        self.marked(b' ', value(word));
        self.byte(b'\n');
    }

    // The lines of all strings.
    fn string_lines(&mut self, table: &[u64], s: usize)
        requires { (64 * s ≤ length table.now) × Lengths table.now s × Capacity self.old (row_lines table.now s) }
        ensures { Wrote self.old (row_lines table.now s) self.new }
    {
        for x in 0..s {
            self.string_line(x, &table[64 * x..64 * x + 64]);
        }
    }

    // The lines of all numbers.
    fn number_lines(&mut self, words: &[u64])
        requires { Capacity self.old (word_lines words.now (length words.now)) }
        ensures { Wrote self.old (word_lines words.now (length words.now)) self.new }
    {
        for (x, &word) in words.iter().enumerate() {
            self.number_line(x, word);
        }
    }

    // The lines of a solution's own table.
    fn solution(&mut self, table: &[u64], s: usize)
        requires { (64 * s ≤ length table.now) × Lengths table.now s × Capacity self.old (table_lines s table.now) }
        ensures { Wrote self.old (table_lines s table.now) self.new }
    {
        self.string_lines(table, s);
        self.number_lines(&table[64 * s..]);
    }
}

// The value of a domain that has only this one: the place of its bit.
fn value(domain: u64) -> usize
    ensures { result ≡ only_value domain }
{
    domain.trailing_zeros() as usize
}

// Searches a file of s strings, with this room and this answer table.
fn outcome(
    file: &[u8],
    s: usize,
    room: &mut [u64],
    table: &mut [u64],
    page: &mut Page,
) -> Result<(), Refusal>
    requires { Lent file.now s room.old table.old × FullCapacity page.old }
    ensures { Replied page.old (search_lines (reading file.now)) page.new result }
{
    match cobleskeg::search(file, BUDGET, room, table)? {
        Outcome::Found(n) => {
            page.ending(b"found", n as usize);
            page.solution(table, s);
        }
        Outcome::None(n) => page.ending(b"none", n as usize),
        Outcome::Spent(n) => page.ending(b"spent", n as usize),
    }
    Ok(())
}

// Has room and a table for the largest file; the first words of the table are the answer table of s strings and t numbers.
fn lend(file: &[u8], s: usize, t: usize, page: &mut Page) -> Result<(), Refusal>
    requires { Counted file.now s t × FullCapacity page.old }
    ensures { Replied page.old (search_lines (reading file.now)) page.new result }
{
    let mut room = [0u64; 3120];
    let mut table = [0u64; 1040];
    let words = 64 * s + t;
    outcome(file, s, &mut room, &mut table[..words], page)
}

// The lines of an input that is not refused.
fn report(input: &[u8], page: &mut Page) -> Result<(), Refusal>
    requires { FullCapacity page.old }
    ensures { Replied page.old (require (leb (length input.now) 25024) 4 (search_lines (reading input.now))) page.new result }
{
    if input.len() > LARGEST {
        return Err(Refusal::Layout);
    }
    let h = cobleskeg::read(input)?;
    lend(input, h.strings, h.numbers, page)
}

// The listing of an input.
fn print(input: &[u8], page: &mut Page)
    requires { FullCapacity page.old }
    ensures { Capacity page.old (listing input.now) × Wrote page.old (listing input.now) page.new }
{
    if let Err(refusal) = report(input, page) {
        page.ending(b"refused", refusal.number() as usize);
    }
}

// Writes what the program prints for an input at the start of the buffer, and answers how many bytes that is. A buffer that is shorter than the longest listing
// is left alone, and the answer is 0.
pub fn answer(input: &[u8], lines: &mut [u8]) -> usize
    ensures lines_after { lines.new
        ≡ printed input.now lines.old ++ drop (length (printed input.now lines.old)) lines.old }
    ensures value { result ≡ length (printed input.now lines.old) }
{
    if lines.len() < LONGEST {
        return 0;
    }
    let mut page = Page { lines, at: 0 };
    print(input, &mut page);
    page.at
}
