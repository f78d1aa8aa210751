// The public entries for programs in C: numbers, and buffers as a pointer and a count. include/cobleskeg.h declares each. A function returns the number of
// the refusal, or 0, and writes what the entry answers through references; a refusal writes nothing there either.
//
// Each entry takes its `Result` apart by itself, since a caller in C gets a number and references.
//
// Assumes nothing.

#![tactic(auto)]

ghost use Rattle.std.specs.Prelude.{◌≡◌, map, take};
ghost use Rattle.model.specs.Replies.{leaves};
ghost use Rattle.model.specs.Reading.{reading};
ghost use Rattle.model.specs.Operations.{Header, read, unpack, Stepped, step, Settlement, settle, Searched, search};
ghost use Rattle.model.specs.StepIndex as model;
ghost use Rattle.model.specs.Queue.{Queued, settle_by_index};
ghost use Rattle.model.specs.Claim.{calls};
ghost use Rattle.model.specs.Compile.{Compiled, compile, AcceptsLanguage};
ghost use Rattle.search.specs.Outcomes.{outcome_of};
ghost use Rattle.cobleskeg.specs.Claims.{call_of, call_by_index, SearchHolds, ListHolds, IndexesRefused};
ghost use Rattle.cobleskeg_c.specs.Numbers.{refusal, writes, bit_of, SettledAlike, outcome_number, outcome_nodes, search_answer};
ghost use Rattle.cobleskeg_c.specs.Version.{version};

use cobleskeg::Outcome;

// The version of what is linked.
const VERSION: u32 = 100;

#[unsafe(no_mangle)]
pub extern "C" fn cobleskeg_version() -> u32
    ensures { result ≡ version }
{
    VERSION
}

// Read: the five counts.
#[unsafe(no_mangle)]
pub extern "C" fn cobleskeg_read(
    file: &[u8],
    symbols: &mut usize,
    strings: &mut usize,
    numbers: &mut usize,
    automata: &mut usize,
    constraints: &mut usize,
) -> u8
    ensures value { result ≡ refusal (read (reading file.now)) }
    ensures symbols_after { symbols.new ≡ writes (λ (h : Header). h.symbols) (read (reading file.now)) symbols.old }
    ensures strings_after { strings.new ≡ writes (λ (h : Header). h.strings) (read (reading file.now)) strings.old }
    ensures numbers_after { numbers.new ≡ writes (λ (h : Header). h.numbers) (read (reading file.now)) numbers.old }
    ensures automata_after { automata.new ≡ writes (λ (h : Header). h.automata) (read (reading file.now)) automata.old }
    ensures constraints_after { constraints.new ≡ writes (λ (h : Header). h.constraints) (read (reading file.now)) constraints.old }
{
    match cobleskeg::read(file) {
        Err(e) => e.number(),
        Ok(h) => {
            *symbols = h.symbols;
            *strings = h.strings;
            *numbers = h.numbers;
            *automata = h.automata;
            *constraints = h.constraints;
            0
        }
    }
}

// Unpack: the file's table.
#[unsafe(no_mangle)]
pub extern "C" fn cobleskeg_unpack(file: &[u8], table: &mut [u64]) -> u8
    ensures value { result ≡ refusal (unpack (reading file.now) table.old) }
    ensures table_after { table.new ≡ leaves (λ T. T) (unpack (reading file.now) table.old) table.old }
{
    match cobleskeg::unpack(file, table) {
        Err(e) => e.number(),
        Ok(()) => 0,
    }
}

// Step j, and the bits that it struck.
#[unsafe(no_mangle)]
pub extern "C" fn cobleskeg_step(file: &[u8], j: usize, table: &mut [u64], struck: &mut u32) -> u8
    ensures value { result ≡ refusal (step (reading file.now) j table.old) }
    ensures table_after { table.new
        ≡ leaves (λ (a : Stepped). a.table) (step (reading file.now) j table.old) table.old }
    ensures struck_after { struck.new
        ≡ writes (λ (a : Stepped). a.struck) (step (reading file.now) j table.old) struck.old }
{
    match cobleskeg::step(file, j, table) {
        Err(e) => e.number(),
        Ok(n) => {
            *struck = n;
            0
        }
    }
}

// Settle, its rounds, and 1 where every variable has a value after them, else 0.
#[unsafe(no_mangle)]
pub extern "C" fn cobleskeg_settle(
    file: &[u8],
    table: &mut [u64],
    rounds: &mut u32,
    every_value: &mut u8,
) -> u8
    ensures value { result ≡ refusal (settle (reading file.now) table.old) }
    ensures table_after { table.new
        ≡ leaves (λ (a : Settlement). a.table) (settle (reading file.now) table.old) table.old }
    ensures rounds_after { rounds.new
        ≡ writes (λ (a : Settlement). a.rounds) (settle (reading file.now) table.old) rounds.old }
    ensures every_value_after { every_value.new
        ≡ writes (λ (a : Settlement). bit_of a.every_value) (settle (reading file.now) table.old) every_value.old }
{
    match cobleskeg::settle(file, table) {
        Err(e) => e.number(),
        Ok(s) => {
            *rounds = s.count;
            *every_value = s.every_value as u8;
            0
        }
    }
}

// Index, into the lent words.
#[unsafe(no_mangle)]
pub extern "C" fn cobleskeg_index(file: &[u8], index: &mut [u64]) -> u8
    ensures value { result ≡ refusal (model.index (reading file.now) index.old) }
    ensures index_after { index.new ≡ leaves (λ I. I) (model.index (reading file.now) index.old) index.old }
{
    match cobleskeg::index(file, index) {
        Err(e) => e.number(),
        Ok(()) => 0,
    }
}

// Settle by index, the steps that it ran, and 1 where every variable has a value after them, else 0.
#[unsafe(no_mangle)]
pub extern "C" fn cobleskeg_settle_by_index(
    file: &[u8],
    index: &[u64],
    table: &mut [u64],
    steps: &mut u32,
    every_value: &mut u8,
) -> u8
    ensures value { result ≡ refusal (settle_by_index (reading file.now) index.now table.old) }
    ensures table_after { table.new
        ≡ leaves (λ (a : Queued). a.table) (settle_by_index (reading file.now) index.now table.old) table.old }
    ensures steps_after { steps.new
        ≡ writes (λ (a : Queued). a.steps) (settle_by_index (reading file.now) index.now table.old) steps.old }
    ensures every_value_after { every_value.new
        ≡ writes (λ (a : Queued). bit_of a.every_value) (settle_by_index (reading file.now) index.now table.old)
        every_value.old }
    ensures settled_alike { SettledAlike file.now table.old result table.new every_value.new }
{
    match cobleskeg::settle_by_index(file, index, table) {
        Err(e) => e.number(),
        Ok(q) => {
            *steps = q.count;
            *every_value = q.every_value as u8;
            0
        }
    }
}

// The outcomes of a search.
const FOUND: u8 = 1;

const NONE: u8 = 2;

const SPENT: u8 = 3;

// The outcome as a number, and the nodes that were visited.
#[tactic(auto, unfolding(search::specs::Outcomes::outcome_of, crate::specs::Numbers::outcome_number, crate::specs::Numbers::outcome_nodes))]
fn numbered(o: Outcome) -> (u8, u32)
    ensures number { result.0 ≡ outcome_number (outcome_of o) }
    ensures visited { result.1 ≡ outcome_nodes (outcome_of o) }
{
    match o {
        Outcome::Found(n) => (FOUND, n),
        Outcome::None(n) => (NONE, n),
        Outcome::Spent(n) => (SPENT, n),
    }
}

// Search, its outcome, and the nodes that it visited.
#[unsafe(no_mangle)]
pub extern "C" fn cobleskeg_search(
    file: &[u8],
    budget: u32,
    room: &mut [u64],
    table: &mut [u64],
    outcome: &mut u8,
    nodes: &mut u32,
) -> u8
    ensures value { result ≡ refusal (search (reading file.now) budget room.old table.old) }
    ensures room_after { room.new
        ≡ leaves (λ (a : Searched). a.room) (search (reading file.now) budget room.old table.old) room.old }
    ensures table_after { table.new
        ≡ leaves (λ (a : Searched). a.table) (search (reading file.now) budget room.old table.old) table.old }
    ensures outcome_after { outcome.new
        ≡ writes (λ (a : Searched). outcome_number a.outcome) (search (reading file.now) budget room.old table.old)
        outcome.old }
    ensures nodes_after { nodes.new
        ≡ writes (λ (a : Searched). outcome_nodes a.outcome) (search (reading file.now) budget room.old table.old)
        nodes.old }
    ensures search_holds { SearchHolds file.now budget room.old table.old
        (search_answer result outcome.new nodes.new) table.new }
{
    match cobleskeg::search(file, budget, room, table) {
        Err(e) => e.number(),
        Ok(o) => {
            let (number, visited) = numbered(o);
            *outcome = number;
            *nodes = visited;
            0
        }
    }
}

// A list of Step and Settle calls on one table.
#[unsafe(no_mangle)]
pub extern "C" fn cobleskeg_perform(file: &[u8], list: &[u32], table: &mut [u64])
    ensures table_after { table.new ≡ calls (reading file.now) (map call_of list.now) table.old }
    ensures list_holds { ListHolds file.now table.old table.new }
{
    cobleskeg::perform(file, list, table);
}

// A list of Step, Settle and Settle by index calls on one table, with one index.
#[unsafe(no_mangle)]
pub extern "C" fn cobleskeg_perform_by_index(
    file: &[u8],
    list: &[u32],
    index: &[u64],
    table: &mut [u64],
)
    ensures table_after { table.new
        ≡ calls (reading file.now) (map (call_by_index index.now) list.now) table.old }
    ensures list_holds { ListHolds file.now table.old table.new }
    ensures indexes_refused { IndexesRefused file.now table.old }
{
    cobleskeg::perform_by_index(file, list, index, table);
}

// Compile, and how many bytes it wrote.
#[unsafe(no_mangle)]
pub extern "C" fn cobleskeg_compile(
    text: &[u8],
    symbols: usize,
    buffer: &mut [u8],
    written: &mut usize,
) -> u8
    ensures value { result ≡ refusal (compile symbols text.now buffer.old) }
    ensures buffer_after { buffer.new
        ≡ leaves (λ (a : Compiled). a.buffer) (compile symbols text.now buffer.old) buffer.old }
    ensures written_after { written.new
        ≡ writes (λ (a : Compiled). a.written) (compile symbols text.now buffer.old) written.old }
    ensures accepts_language { result ≡ 0 → AcceptsLanguage symbols text.now (take written.new buffer.new) }
{
    match cobleskeg::compile(text, symbols, buffer) {
        Err(e) => e.number(),
        Ok(n) => {
            *written = n;
            0
        }
    }
}
