// How long the lists of a book were when it was opened.

#[derive(Clone, Copy, Debug, PartialEq, Eq)]
pub struct Sizes {
    pub cells: usize,
    pub marks: usize,
    pub reads: usize,
    pub writes: usize,
    pub journal: usize,
}
