// The answers, in numbers.

// Whether an instance is within the scopes and satisfies marks and formula: 1 yes, 0 no.
#[repr(C)]
#[derive(Clone, Copy)]
pub struct CheckAnswer {
    pub refusal: u32,
    pub satisfies: u32,
}

// The numbers of variables, clauses and words.
#[repr(C)]
#[derive(Clone, Copy)]
pub struct CountAnswer {
    pub refusal: u32,
    pub variables: usize,
    pub clauses: usize,
    pub words: usize,
}

// The bytes that a clause text has, which are those written; 0 under a refusal.
#[repr(C)]
#[derive(Clone, Copy)]
pub struct TextAnswer {
    pub refusal: u32,
    pub bytes: usize,
}

// How a search ended, 1 found, 2 none, 3 spent, and its steps by kind: forces, choices and turns. All are 0 under a refusal.
#[repr(C)]
#[derive(Clone, Copy)]
pub struct SearchAnswer {
    pub refusal: u32,
    pub end: u32,
    pub propagations: u64,
    pub decisions: u64,
    pub backtracks: u64,
}

// The numbers of a resumed search, and the position that it leaves.
#[derive(Clone, Copy)]
pub struct ResumedAnswer {
    pub answer: SearchAnswer,
    pub position: search::answer::Position,
}

// The cells that read-back copied.
#[repr(C)]
#[derive(Clone, Copy)]
pub struct ReadBackAnswer {
    pub refusal: u32,
    pub cells: usize,
}
