// "Each kind has one row in a constant table: which fields are nodes, and what shapes it takes."
#![tactic(auto)]

ghost use Rattle.std.specs.Prelude.{◌≡◌};
ghost use Rattle.kinds.specs.Kinds.{is_known, row_of};

// What a field of a node names.
#[derive(Clone, Copy)]
pub enum Field {
    Unused,
    Node,
    Relation,
    Variable,
    Sort,
}

// What shapes a kind takes and gives (specs/Shapes.antt); an unknown number has no rule.
#[derive(Clone, Copy)]
pub enum Rule {
    Unknown,
    OfRelation,
    OfVariable,
    OfSort,
    OfIdentity,
    Same,
    Join,
    Product,
    Inverse,
    Closure,
    Comprehension,
    Comparison,
    Test,
    Negation,
    Connective,
    Quantifier,
}

#[derive(Clone, Copy)]
pub struct Row {
    pub a: Field,
    pub b: Field,
    pub rule: Rule,
}

// A row of the table: field a, field b, the rule.
macro_rules! row {
    ($a:ident, $b:ident, $rule:ident) => {
        Row {
            a: Field::$a,
            b: Field::$b,
            rule: Rule::$rule,
        }
    };
}

// The row of each number.
const KINDS: [Row; 42] = [
    row!(Unused, Unused, Unknown), // 0
    row!(Relation, Unused, OfRelation), // 1: relation
    row!(Variable, Unused, OfVariable), // 2: variable
    row!(Sort, Unused, OfSort), // 3: all atoms of a sort
    row!(Sort, Unused, OfIdentity), // 4: identity
    row!(Node, Node, Same), // 5: union
    row!(Node, Node, Same), // 6: intersection
    row!(Node, Node, Same), // 7: difference
    row!(Node, Node, Join), // 8: join
    row!(Node, Node, Product), // 9: product
    row!(Node, Unused, Inverse), // 10: inverse
    row!(Node, Unused, Closure), // 11: closure
    row!(Variable, Node, Comprehension), // 12: comprehension
    row!(Unused, Unused, Unknown), // 13
    row!(Unused, Unused, Unknown), // 14
    row!(Unused, Unused, Unknown), // 15
    row!(Unused, Unused, Unknown), // 16
    row!(Unused, Unused, Unknown), // 17
    row!(Unused, Unused, Unknown), // 18
    row!(Unused, Unused, Unknown), // 19
    row!(Node, Node, Comparison), // 20: equal
    row!(Node, Node, Comparison), // 21: within
    row!(Node, Unused, Test), // 22: some
    row!(Node, Unused, Test), // 23: none
    row!(Node, Unused, Test), // 24: lone
    row!(Unused, Unused, Unknown), // 25
    row!(Unused, Unused, Unknown), // 26
    row!(Unused, Unused, Unknown), // 27
    row!(Unused, Unused, Unknown), // 28
    row!(Unused, Unused, Unknown), // 29
    row!(Node, Unused, Negation), // 30: not
    row!(Node, Node, Connective), // 31: and
    row!(Node, Node, Connective), // 32: or
    row!(Node, Node, Connective), // 33: implies
    row!(Node, Node, Connective), // 34: equivalent
    row!(Unused, Unused, Unknown), // 35
    row!(Unused, Unused, Unknown), // 36
    row!(Unused, Unused, Unknown), // 37
    row!(Unused, Unused, Unknown), // 38
    row!(Unused, Unused, Unknown), // 39
    row!(Variable, Node, Quantifier), // 40: for all
    row!(Variable, Node, Quantifier), // 41: for some
];

// A kind's row.
#[tactic(auto, unfolding(crate::specs::Kinds::row_of))]
pub fn row_of(kind: usize) -> Row
    ensures { result ≡ row_of kind }
{
    if kind < 42 {
        KINDS[kind]
    } else {
        row!(Unused, Unused, Unknown)
    }
}

// The rule alone.
pub fn rule_of(kind: usize) -> Rule
    ensures { result ≡ (row_of kind).rule }
{
    row_of(kind).rule
}

// Whether a rule is one of a known kind.
pub fn is_known(rule: Rule) -> bool
    ensures { result ≡ is_known rule }
{
    !matches!(rule, Rule::Unknown)
}
