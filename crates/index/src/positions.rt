ghost use Rattle.std.specs.Prelude.{◌≤◌};

// Where some variables stand: the first `count` of `at`. A count stands beside the array since no list grows without a heap.
#[derive(Clone, Copy)]
pub struct Positions {
    pub at: [usize; 3],
    pub count: usize,
    ghost few: { count ≤ 3 },
}
