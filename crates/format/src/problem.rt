ghost use Rattle.model.specs.Layout.{Bytes};
ghost use Rattle.format.specs.Accepting.{Usable};

use layout::Parts;

// A file that none of the refusals 1 to 8 meets, and where its parts lie.
#[derive(Clone, Copy)]
pub struct Problem<'a> {
    pub file: &'a [u8],
    pub parts: Parts,
    ghost bytes: { Bytes file.now },
    ghost usable: { Usable file.now parts },
}
