// A place in the text of an admitted import, before the postings that are still to come.
ghost use Rattle.std.specs.Prelude.{◌≡◌};

use money::Code;

#[derive(Clone, Copy)]
pub struct Postings<'a> {
    pub(crate) text: &'a [u8],
    pub(crate) code: Code,
    pub(crate) at: usize,
}

impl Postings<'_> {
    // Where in the text the next posting is looked for. What owns its import keeps this number between two reads, since it
    // cannot hold a cursor that borrows from it.
    pub fn place(&self) -> usize
        ensures { result ≡ self.now.at }
    {
        self.at
    }
}
