// Where the blocks of a sheet stand: what reading answers of an accepted sheet, with the rules of reading in specs/.
#![tactic(auto)]

// Where a block's records start in the sheet, and how many there are.
#[derive(Clone, Copy)]
pub struct Block {
    pub start: usize,
    pub count: usize,
}

#[derive(Clone, Copy)]
pub struct Layout {
    pub sorts: Block,
    pub variables: Block,
    pub relations: Block,
    pub nodes: Block,
}
