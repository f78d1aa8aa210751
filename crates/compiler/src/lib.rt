// From the text of a pattern to the bytes of an automaton, in a lent buffer.
//
// Assumes nothing. `compile` takes any text, k and buffer, and refuses by 14 to 17 in their order.

#![tactic(auto)]

ghost use Rattle.std.specs.Prelude.{◌≡◌, ◌||◌, ◌++◌, ◌∷◌, ℕ, ◌+◌, ◌*◌, ◌/◌, ◌%◌, ◌^◌, ◌<◌, ◌≤◌, leb, ltb, length, drop, get_or};
ghost use Rattle.std.specs.List.{list_all};
ghost use Rattle.model.specs.PatternText.{symbol_of, symbol_at};
ghost use Rattle.model.specs.PatternStates.{when};
ghost use Rattle.model.specs.Numbering.{number_in};
ghost use Rattle.model.specs.Compile.{same_state, bytes_of, compiled_bytes};
ghost use Rattle.numbering.specs.Exploring.{joined, state_at, listed, advance_in};
ghost use Rattle.compiler.specs.Answers.{Sorted, final_in, Told};

use numbering::Letters;
use parser::Part;
use refusals::Refusal;

// Whether a byte that is a letter has a symbol below k.
fn letter_below(b: u8, k: usize) -> bool
    ensures { result ≡ (leb 39 (symbol_of b) || ltb (symbol_of b) k) }
{
    let y = parser::symbol_of(b) as usize;
    39 <= y || y < k
}

// Whether every letter's symbol is below k.
fn letters_below(s: &[u8], k: usize) -> bool
    ensures { result ≡ list_all (λ b. leb 39 (symbol_of b) || ltb (symbol_of b) k) s.now }
{
    s.iter().all(|b| letter_below(*b, k))
}

// The symbol at place p, 39 where no letter stands: no Option, since the definition of the same name has 39 there.
fn symbol_at(s: &[u8], p: usize) -> usize
    ensures { result ≡ symbol_at s.now p }
{
    match s.get(p) {
        Some(b) => parser::symbol_of(*b) as usize,
        None => 39,
    }
}

// The places of each symbol.
fn sort_places(s: &[u8]) -> [u64; 64]
    ensures { Sorted s.now 64 result }
{
    let mut places = [0; 64];
    for p in 0..64 {
        places[symbol_at(s, p)] |= words::singleton(p);
    }
    places
}

// Whether a reading may end in state i.
fn is_final(sets: &[u64], i: usize, part: Part) -> bool
    requires { i < length sets.now }
    ensures { result ≡ final_in part.nullable part.last (state_at sets.now i) }
{
    if i == 0 {
        part.nullable
    } else {
        sets[i] & part.last != 0
    }
}

// The bit of state i, if a reading may end in it.
fn final_bit(sets: &[u64], i: usize, part: Part) -> u64
    requires i_in_bounds { i < length sets.now }
    requires i_bound { i < 32 }
    ensures { result ≡ when (final_in part.nullable part.last (state_at sets.now i)) (2 ^ i) }
{
    if is_final(sets, i, part) {
        words::singleton(i)
    } else {
        0
    }
}

// The accepting states.
fn accepting(sets: &[u64], part: Part) -> u64
    requires { length sets.now ≤ 32 }
    ensures { result ≡ joined (λ (i : ℕ). when (final_in part.nullable part.last (state_at sets.now i)) (2 ^ i)) (length sets.now) }
{
    let mut r = 0;
    for i in 0..sets.len() {
        r |= final_bit(sets, i, part);
    }
    r
}

// The state count and the accepting states.
fn write_head(buffer: &mut [u8], n: usize, acc: u64)
    requires in_bounds { 5 ≤ length buffer.old }
    requires n_bound { n ≤ 32 }
    ensures { buffer.new ≡ n ∷ (bytes_of 4 acc ++ drop 5 buffer.old) }
{
    buffer[0] = n as u8;
    buffer[1..5].copy_from_slice(&acc.to_le_bytes()[..4]);
}

// The rows: the next state for each state and symbol.
fn write_rows(letters: &Letters, sets: &[u64], rows: &mut [u8])
    requires n_bound { length sets.now ≤ 32 }
    requires le_k { 1 ≤ letters.now.k }
    requires rows_len { length rows.old ≡ length sets.now * letters.now.k }
    ensures { (t : ℕ) → t < length sets.now * letters.now.k → get_or rows.new t 0 ≡ number_in same_state (listed sets.now (length sets.now)) (advance_in letters.now.places letters.now.first letters.now.follow (state_at sets.now (t / letters.now.k)) (t % letters.now.k)) }
{
    for (t, cell) in rows.iter_mut().enumerate() {
        let p = letters.move_of(sets, t / letters.k, t % letters.k);
        *cell = p as u8;
    }
}

// The automaton bytes of a text for k symbols.
pub fn compile(text: &[u8], k: usize, buffer: &mut [u8]) -> Result<usize, Refusal>
    ensures { Told (compiled_bytes k text.now (length buffer.old)) buffer.old buffer.new result }
{
    if 63 < text.len() {
        return Err(Refusal::Pattern);
    }
    let mut follow = [0; 64];
    let part = parser::read_text(text, &mut follow).ok_or(Refusal::Pattern)?;
    if k < 1 || 64 < k || !letters_below(text, k) {
        return Err(Refusal::Alphabet);
    }
    let letters = Letters {
        places: sort_places(text),
        follow,
        first: part.first,
        k,
    };
    let states = letters.number_states().ok_or(Refusal::States)?;
    let sets = states.numbered();
    let size = 5 + sets.len() * k;
    if buffer.len() < size {
        return Err(Refusal::BufferLength);
    }
    write_head(buffer, sets.len(), accepting(sets, part));
    write_rows(&letters, sets, &mut buffer[5..size]);
    Ok(size)
}
