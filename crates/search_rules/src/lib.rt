// Where a run of the step rules stands: what a search shows of it, with the rules in specs/.
#![tactic(auto)]

// The steps done, by kind: the paper's forces, choices and turns.
#[derive(Clone, Copy)]
pub struct Steps {
    pub propagations: u64,
    pub decisions: u64,
    pub backtracks: u64,
}

// The position of a stopped search: the trail's length, and the steps done so far by kind. A caller in C lends it by its address.
#[repr(C)]
#[derive(Clone, Copy)]
pub struct Position {
    pub length: usize,
    pub propagations: u64,
    pub decisions: u64,
    pub backtracks: u64,
}
