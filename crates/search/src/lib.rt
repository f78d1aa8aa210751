// The search of a file's table, node by node in the order of the tree, over the three tables of lent room (crate `room`). No recursion: the room is the stack.
//
// Assumes nothing. `requires` asks what refusals 12 and 13 leave.

#![tactic(auto)]

ghost use Rattle.std.specs.Prelude.{◌≡◌, ◌++◌, map, ◌*◌, ◌≤◌, length, replicate, drop, Some};
ghost use Rattle.model.specs.Layout.{little};
ghost use Rattle.model.specs.Reading.{pieces};
ghost use Rattle.model.specs.Tree.{searching};
ghost use Rattle.laws.specs.Traversal.{visit};
ghost use Rattle.format.specs.Problems.{the_problem, the_table};
ghost use Rattle.search.specs.Visits.{words_in, root, Standing, StandsIn, left_in, GoesDown, GoesBack, Visits};
ghost use Rattle.search.specs.Outcomes.{outcome_of, printed};

use format::Problem;
use std::fmt;
use waiting::Prepared;

// How a search ends, with the nodes that it visited: three ways, of which none is the lack of another.
#[derive(Clone, Copy)]
pub enum Outcome {
    Found(u32),
    None(u32),
    Spent(u32),
}

impl fmt::Display for Outcome {
    ghost output = { λ o. Some (printed o) };

    fn fmt<W: fmt::Write>(&self, f: &mut fmt::Formatter<W>) -> fmt::Result {
        match self {
            Outcome::Found(n) => write!(f, "found {n}"),
            Outcome::None(n) => write!(f, "none {n}"),
            Outcome::Spent(n) => write!(f, "spent {n}"),
        }
    }
}

// Where a search stands. The current table is a child at word `from` of a settled table, or any table where there is no such word; before `depth` there is
// nothing to branch on, and from there on nothing waits; the kept table was branched at word `kept`, where there is one.
#[derive(Clone, Copy)]
struct Path {
    from: Option<usize>,
    depth: usize,
    kept: Option<usize>,
}

// What visiting one node says: it is solved, or it is dead and none waits, or the next one is ready. Three cases, like the ends.
#[derive(Clone, Copy)]
enum Visited {
    Solved,
    Over,
    On(Path),
}

// A node at which every variable has a value: it is solved, or its first child is next.
fn go_down(room: &mut [u64], m: usize, depth: usize) -> Visited
    requires { (3 * m ≤ length room.old) × (depth ≤ m) }
    ensures { GoesDown m depth room.old room.new result }
{
    let Some(at) = room::branch(&room[..m], depth) else {
        return Visited::Solved;
    };
    room::down(room, m, at);
    Visited::On(Path {
        from: Some(at),
        depth: at + 1,
        kept: Some(at),
    })
}

// A dead node: of the values that wait the lowest at the last such word is next, where there is one. It makes a child of the kept table, or, further back, begins
// with that table's words before it.
fn go_back(bytes: &[u8], room: &mut [u64], m: usize, path: Path) -> Visited
    requires { (length bytes.now ≡ 8 * m) × (3 * m ≤ length room.old) × (path.depth ≤ m) }
    ensures { GoesBack (map little (pieces m 8 bytes.now)) m path room.old room.new result }
{
    let Some(at) = room::waiting(&room[2 * m..3 * m], path.depth) else {
        return Visited::Over;
    };
    let depth = at + 1;
    if path.kept == Some(at) {
        room::sibling(room, m, at);
        return Visited::On(Path {
            from: Some(at),
            depth,
            kept: Some(at),
        });
    }
    room::restart(bytes, room, m, at);
    Visited::On(Path {
        from: None,
        depth,
        kept: path.kept,
    })
}

// Visits the current node: settles its table, and goes down into its first child, or back to the last value that waits.
fn visit(p: &Prepared, room: &mut [u64], path: Path) -> Visited
    requires { (3 * words_in p.now.problem ≤ length room.old) × StandsIn p.now.problem path room.old }
    ensures { Visits p.now.problem path room.old room.new result }
{
    let m = p.problem.words();
    if waiting::settle(p, &mut room[..m], path.from) {
        return go_down(room, m, path.depth);
    }
    go_back(p.problem.table_bytes(), room, m, path)
}

// Visits nodes until one is solved, none is left, or as many as the budget are visited.
fn explore(p: &Prepared, budget: u32, room: &mut [u64], answer: &mut [u64]) -> Outcome
    requires { (3 * words_in p.now.problem ≤ length room.old) × (length answer.old ≡ words_in p.now.problem)
        × Standing p.now.problem root room.old (the_table p.now.problem) }
    ensures answer_after { record { outcome = outcome_of result; table = answer.new }
        ≡ visit (the_problem p.now.problem) answer.old 0 budget (left_in p.now.problem room.old (the_table p.now.problem)) }
    ensures room_unchanged { drop (3 * words_in p.now.problem) room.new ≡ drop (3 * words_in p.now.problem) room.old }
{
    let m = p.problem.words();
    let mut path = Path {
        from: None,
        depth: 0,
        kept: None,
    };
    for count in 1..=budget {
        match visit(p, room, path) {
            Visited::Solved => {
                room::copy(&room[..m], answer);
                return Outcome::Found(count);
            }
            Visited::Over => return Outcome::None(count),
            Visited::On(next) => path = next,
        }
    }
    Outcome::Spent(budget)
}

// The whole search: the room's tables are 0 afterwards, and the answer table holds the first solution where one was found.
pub fn search(p: &Problem, budget: u32, room: &mut [u64], answer: &mut [u64]) -> Outcome
    requires { (3 * words_in p.now ≤ length room.old) × (length answer.old ≡ words_in p.now) }
    ensures answer_after { record { outcome = outcome_of result; table = answer.new }
        ≡ searching (the_problem p.now) (the_table p.now) budget answer.old }
    ensures room_after { room.new ≡ replicate (3 * words_in p.now) 0 ++ drop (3 * words_in p.now) room.old }
{
    let m = p.words();
    room::start(p.table_bytes(), room, m);
    let index = index::of_file(p);
    let mut kinds = [0u64; 520];
    steps::kinds(p, &mut kinds);
    let prepared = Prepared {
        problem: *p,
        index: &index,
        kinds: &kinds,
    };
    let outcome = explore(&prepared, budget, room, answer);
    room[..3 * m].fill(0);
    outcome
}
