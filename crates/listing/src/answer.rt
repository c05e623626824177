// What the pieces of a listing answer.
use search::answer::Position;

// What one call came to: the bytes that were put, whether a call for the next can give more, and where the search stands.
#[derive(Clone, Copy)]
pub struct Piece {
    pub bytes: usize,
    pub more: bool,
    pub position: Position,
}
