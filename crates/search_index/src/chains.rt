// The chains, in one array: for each place the latest word that names its variable; for each word of a literal the one before it that
// names the same variable and, beside it, its clause; for each clause its head; the number of clauses.
ghost use Rattle.std.specs.Prelude.{◌≡◌, true, ℕ, suc, ◌+◌, ◌*◌, ◌<◌, ◌≤◌, length, get_or, set};
ghost use Rattle.clause_list.specs.ClauseList.{clauses_of};
ghost use Rattle.search_index.specs.Index.{limit, chain_words, clause_at, head_of, first_at, link_at, owner_at, head_at, count_at};
ghost use Rattle.search_index.specs.Index.{Linked, Apart, Roomy};

// The words of the longest list that is indexed, and the variables of the widest.
pub const LIMIT: usize = 16384;

const LINKS: usize = LIMIT;

const OWNERS: usize = LIMIT + 1;

const HEADS: usize = 3 * LIMIT;

const COUNT: usize = 4 * LIMIT;

// Chains of no word.
pub fn blank_chains() -> [u16; COUNT + 1]
    ensures { (length result ≡ chain_words) × ((k : ℕ) → get_or result k 0 ≡ 0) }
{
    [0u16; COUNT + 1]
}

pub fn wide(x: u16) -> usize
    ensures { result ≡ x }
{
    x as usize
}

// The latest word that names the variable at a place; 0 where no word does.
pub fn first(chains: &[u16], p: usize) -> usize
    requires { (length chains.now ≡ chain_words) × (p < limit) }
    ensures { result ≡ first_at chains.now p }
{
    wide(chains[p])
}

// The word before word i that names the same variable; 0 where there is none.
pub fn link(chains: &[u16], i: usize) -> usize
    requires { (length chains.now ≡ chain_words) × (i < limit) }
    ensures { result ≡ link_at chains.now i }
{
    wide(chains[LINKS + 2 * i])
}

// The clause of word i.
pub fn owner(chains: &[u16], i: usize) -> usize
    requires { (length chains.now ≡ chain_words) × (i < limit) }
    ensures { result ≡ owner_at chains.now i }
{
    wide(chains[OWNERS + 2 * i])
}

// The head of clause c.
pub fn head(chains: &[u16], c: usize) -> usize
    requires { (length chains.now ≡ chain_words) × (c < limit) }
    ensures { result ≡ head_at chains.now c }
{
    wide(chains[HEADS + c])
}

// The number of clauses.
pub fn count(chains: &[u16]) -> usize
    requires { length chains.now ≡ chain_words }
    ensures { result ≡ count_at chains.now }
{
    wide(chains[COUNT])
}

// The words of the clause with number c, which stands at a head, are entered into the chains. Whether each names another variable.
pub fn enter(list: &[i32], c: usize, head: usize, chains: &mut [u16]) -> bool
    requires roomy { Roomy list.now }
    requires c_in_bounds { (c < length (clauses_of list.now)) × (head ≡ head_of (clauses_of list.now) c) }
    requires linked { Linked (clauses_of list.now) chains.old head }
    ensures linked_2 { Linked (clauses_of list.now) chains.new (head_of (clauses_of list.now) (suc c)) }
    ensures by_index { (k : ℕ) → head_at chains.new k ≡ head_at chains.old k }
    ensures apart { result ≡ true → Apart (clause_at (clauses_of list.now) c) }
{
    let end = head + 1 + literal::known_count(list[head]);
    let mut apart = true;
    let mut i = head + 1;
    while i < end {
        let p = literal::place(list[i]);
        let earlier = chains[p];
        if head < wide(earlier) {
            apart = false;
        }
        chains[OWNERS + 2 * i] = c as u16;
        chains[LINKS + 2 * i] = earlier;
        chains[p] = i as u16;
        i += 1;
    }
    apart
}

// The head of clause c is noted.
pub fn note_head(chains: &mut [u16], c: usize, head: usize)
    requires { (length chains.old ≡ chain_words) × (c < limit) × (head < limit) }
    ensures { chains.new ≡ set chains.old (3 * limit + c) head }
{
    chains[HEADS + c] = head as u16;
}

// The number of clauses is noted.
pub fn note_count(chains: &mut [u16], c: usize)
    requires { (length chains.old ≡ chain_words) × (c ≤ limit) }
    ensures { chains.new ≡ set chains.old (4 * limit) c }
{
    chains[COUNT] = c as u16;
}
