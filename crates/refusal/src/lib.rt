// The answers that decline (document 01, "Answers that decline", and document 02): one case for each number.
#![tactic(auto)]

ghost use Rattle.std.specs.Prelude.{◌≡◌};
ghost use Rattle.refusal.specs.Refusals.{number_of};

#[derive(Clone, Copy)]
pub enum Refusal {
    Version,
    Length,
    Count,
    Scope,
    Declaration,
    Node,
    Shape,
    Root,
    Walk,
    Size,
    Cells,
    List,
    Short,
    State,
}

// The paper's number of a refusal.
pub fn number(r: Refusal) -> u32
    ensures { result ≡ number_of r }
{
    match r {
        Refusal::Version => 1,
        Refusal::Length => 2,
        Refusal::Count => 3,
        Refusal::Scope => 4,
        Refusal::Declaration => 5,
        Refusal::Node => 6,
        Refusal::Shape => 7,
        Refusal::Root => 8,
        Refusal::Walk => 9,
        Refusal::Size => 10,
        Refusal::Cells => 11,
        Refusal::List => 12,
        Refusal::Short => 13,
        Refusal::State => 14,
    }
}
