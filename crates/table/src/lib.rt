// Tree tables: refusals 1 to 7, and post-order numbers.
//
// All calls share one work list of 4n numbers. While a table is tested, its first 2n numbers hold the first slot of
// each node's children (at 0 to n), then how many nodes stand in each slot, and then marks (from n + 1 on). `number`
// leaves the post numbers at 0, the first numbers of the subtrees at 2n and the post-order itself at 3n.
#![tactic(auto)]

mod numbered;
mod tree;

ghost use Rattle.std.specs.Prelude.{true, [], ◌∷◌, ◌≡◌, ◌+◌, ◌*◌, ◌^◌, ◌≤◌, ◌<◌, length, get_or, set};
ghost use Rattle.laws.specs.Regions.{Only};
ghost use Rattle.laws.specs.Search.{refuse_least};
ghost use Rattle.table.specs.Acceptance.{validity};
ghost use Rattle.table.specs.Firsts.{FirstBelow};
ghost use Rattle.table.specs.Validity.{valid};
ghost use Rattle.table.specs.Table.{climb, stray_parent, adrift, all_long, limits_of, checked, printed};
ghost use Rattle.table.specs.Parts.{Scratch, Zeroed, Tallied, Started, marked, Marking, Reaching, Copied};

use faults::{Fault, Refusal};
pub use numbered::Numbered;
pub use tree::Tree;

// What a call accepts: the most nodes and the largest place, and why it refuses more nodes and a place beyond.
#[derive(Clone, Copy)]
pub struct Limits {
    pub nodes: u32,
    pub many: Fault,
    pub place: u32,
    pub far: Fault,
}

const FARTHEST: u32 = 2147483647;

// A cabinet on the quay: the large one, or the small one, which draws fewer lots on smaller sheets.
#[derive(Clone, Copy)]
pub enum Cabinet {
    Large,
    Small,
}

impl Cabinet {
    // The limits of its calls; those of the large one are also those of a call that names no cabinet, but the check.
    pub fn limits(self) -> Limits
        ensures { result ≡ limits_of self }
    {
        match self {
            Cabinet::Large => Limits {
                nodes: 65536,
                many: Fault::TooManyLots,
                place: FARTHEST,
                far: Fault::WouldPassMaxPlace,
            },
            Cabinet::Small => Limits {
                nodes: 1024,
                many: Fault::TooManyForSmall,
                place: 1048575,
                far: Fault::WouldPassSmallPlace,
            },
        }
    }
}

// The limits of the check.
pub fn checked_limits() -> Limits
    ensures { result ≡ checked }
{
    Limits {
        nodes: 4096,
        many: Fault::TooManyToCheck,
        place: FARTHEST,
        far: Fault::PassesMaxPlace,
    }
}

// The limits of the program `sheet`: the check's, with no refusal of its own.
pub fn printed_limits() -> Limits
    ensures { result ≡ printed }
{
    let limits = checked_limits();
    Limits {
        nodes: limits.nodes,
        many: limits.many,
        place: limits.place,
        far: Fault::WouldPassMaxPlace,
    }
}

// The element at an index.
pub fn get(w: &[u32], i: usize) -> usize
    requires { i < length w.now }
    ensures { (result ≡ get_or w.now i 0) × (result < 2 ^ 32) }
{
    w[i] as usize
}

// Stores a number at an index.
pub fn put(w: &mut [u32], i: usize, x: usize)
    requires { (i < length w.old) × (x < 2 ^ 32) }
    ensures { w.new ≡ set w.old i x }
{
    w[i] = x as u32;
}

// Copies what the work list holds from a on into the list. It is a loop, since the library's copy would have the archive
// for C ask the system for memmove.
pub fn copy_out(work: &[u32], a: usize, list: &mut [u32])
    requires { a + length list.old ≤ length work.now }
    ensures { Copied list.new work.now a
        × (length list.new ≡ length list.old) }
{
    for (i, to) in list.iter_mut().enumerate() {
        *to = work[a + i];
    }
}

// Whether two lists are n long.
pub fn both_long(n: usize, a: &[u32], b: &[u32]) -> bool
    ensures { result ≡ all_long n (a.now ∷ b.now ∷ []) }
{
    if a.len() != n {
        return false;
    }
    b.len() == n
}

// Refusal 5, of the smallest node to which it applies.
fn test_parents(parent: &[u32]) -> Result<(), Refusal>
    requires { (0 < length parent.now) × (length parent.now < 2 ^ 32) }
    ensures { valid result ≡ validity (refuse_least 5 (length parent.now) (stray_parent parent.now)) }
{
    let n = parent.len();
    for v in 1..n {
        if n <= get(parent, v) {
            return Err(Fault::NoSuchParent.at(v));
        }
    }
    Ok(())
}

// Zeroes the work list from a up to e.
pub fn clear(work: &mut [u32], a: usize, e: usize)
    requires { (a ≤ e) × (e ≤ length work.old) }
    ensures { Zeroed a e work.new × Only a e work.old work.new }
{
    work[a..e].fill(0);
}

// Counts the children of p at p + 1, for each node p.
fn tally(parent: &[u32], work: &mut [u32])
    requires { Scratch parent.now work.old × Zeroed 0 (2 * length parent.now) work.old }
    ensures { Tallied parent.now work.new
        × Only 0 (length parent.now + 1) work.old work.new }
{
    for p in &parent[1..] {
        work[*p as usize + 1] += 1;
    }
}

// Sums the tallies up: at p the number of children of all nodes before p.
fn accumulate(parent: &[u32], work: &mut [u32])
    requires { Scratch parent.now work.old × Tallied parent.now work.old }
    ensures { Started parent.now work.new
        × Only 0 (length parent.now + 1) work.old work.new }
{
    for p in 0..parent.len() {
        work[p + 1] += work[p];
    }
}

// The first slot of each node's children, and no slot taken.
fn starts(parent: &[u32], work: &mut [u32])
    requires { Scratch parent.now work.old }
    ensures { Started parent.now work.new
        × Zeroed (length parent.now + 1) (2 * length parent.now) work.new
        × Only 0 (2 * length parent.now) work.old work.new }
{
    let n = parent.len();
    clear(work, 0, 2 * n);
    tally(parent, work);
    accumulate(parent, work);
}

// How many steps lead from v up to a marked node, at most n; none where n steps do not.
fn steps(parent: &[u32], work: &[u32], v: usize) -> Option<usize>
    requires { Scratch parent.now work.now × (v < length parent.now) }
    ensures { FirstBelow (λ k. marked parent.now work.now (climb parent.now k v)) (length parent.now + 1) result }
{
    let n = parent.len();
    let mut u = v;
    for k in 0..=n {
        if 0 < get(work, n + u) {
            return Some(k);
        }
        u = get(parent, u);
    }
    None
}

// Marks the first k nodes on the way up from v, which leads to a marked one.
fn mark(parent: &[u32], work: &mut [u32], v: usize, k: usize)
    requires { Reaching parent.now work.old v k }
    ensures marking { Marking parent.now work.new
        × (marked parent.now work.new v ≡ true) }
    ensures only { Only (length parent.now + 1) (2 * length parent.now) work.old
        work.new }
{
    let n = parent.len();
    let mut u = v;
    for _ in 0..k {
        put(work, n + u, 1);
        u = get(parent, u);
    }
}

// Refusal 7, of the smallest node to which it applies.
fn test_paths(parent: &[u32], work: &mut [u32]) -> Result<(), Refusal>
    requires { Scratch parent.now work.old × Started parent.now work.old
        × Zeroed (length parent.now + 1) (2 * length parent.now) work.old }
    ensures { (valid result ≡ validity (refuse_least 7 (length parent.now) (adrift parent.now)))
        × Only (length parent.now + 1) (2 * length parent.now) work.old
        work.new }
{
    let n = parent.len();
    for v in 1..n {
        let Some(k) = steps(parent, work, v) else {
            return Err(Fault::Loop.at(v));
        };
        mark(parent, work, v, k);
    }
    Ok(())
}
