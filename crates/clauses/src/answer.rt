// What counting and writing answer, where they do not refuse.
#[derive(Clone, Copy)]
pub struct Size {
    pub variables: usize,
    pub clauses: usize,
    pub words: usize,
}
