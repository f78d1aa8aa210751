ghost use Rattle.std.specs.Prelude.{◌≡◌, ◌≤◌, take};

// What a constraint names: its strings, and the number, if it has one.
#[derive(Clone, Copy)]
pub struct Names {
    pub strings: [usize; 3],
    pub count: usize,
    pub number: Option<usize>,
    ghost most: { count ≤ 3 },
}

impl Names {
    // The strings, as many as there are.
    pub fn strings(&self) -> &[usize]
        ensures { result.now ≡ take self.now.count self.now.strings }
    {
        &self.strings[..self.count]
    }
}
