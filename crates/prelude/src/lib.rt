// Tests as functions: what a test showed stays an equation where branches meet.
#![tactic(auto)]

ghost use Rattle.std.specs.Prelude.{◌≡◌, ◌&&◌, ◌||◌, cond};
ghost use Rattle.prelude.specs.Tests.{between};

pub fn both(a: bool, b: bool) -> bool
    ensures { result ≡ (a && b) }
{
    if a { b } else { false }
}

pub fn either(a: bool, b: bool) -> bool
    ensures { result ≡ (a || b) }
{
    if a { true } else { b }
}

pub fn choose(test: bool, a: bool, b: bool) -> bool
    ensures { result ≡ cond test a b }
{
    if test { a } else { b }
}

pub fn within(low: usize, high: usize, n: usize) -> bool
    ensures { result ≡ between low high n }
{
    both(low <= n, n <= high)
}
