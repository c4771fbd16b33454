// Whether a given drawing of a tree is monotone.
//
// A pair of nodes has a direction exactly when the vectors of its tree path lie in an open half plane, and of those
// the two outermost are all that a longer path asks for: they are the path's cone. For each node u in turn one pass
// gives every node v the cone of the path from u: up to u's ancestors first, then down from the root, each from its
// neighbour's. The work list holds, of n numbers each, the cones, the parts across and up of the nodes' edges, and
// the post-order. While u has its turn, the edges from u to the root are turned round, so that every edge is walked
// away from u.
#![tactic(auto)]

ghost use Rattle.std.specs.Prelude.{List, ◌≡◌, ℕ, ◌+◌, ◌-◌, ◌*◌, ◌^◌, ◌≤◌, ◌<◌, length, get_or, set};
ghost use Rattle.laws.specs.Regions.{Only};
ghost use Rattle.faults.specs.Numbers.{number};
ghost use Rattle.laws.specs.Search.{refuse_least};
ghost use Rattle.table.specs.Acceptance.{validity};
ghost use Rattle.table.specs.Validity.{valid};
ghost use Rattle.table.specs.Table.{large, checked, farthest};
ghost use Rattle.table.specs.Parts.{Zeroed};
ghost use Rattle.monotone.specs.Findings.{found, verdict};
ghost use Rattle.monotone.specs.Monotone.{place_beyond, Checked};
ghost use Rattle.monotone.specs.Plane.{cross, dot};
ghost use Rattle.monotone.specs.Parts.{WithEdges, EdgeTurned, Turned, Climbed, Reached, ConeKnown};
ghost use Rattle.monotone.specs.Parts.{ChildrenFirst, Coned};
ghost use Rattle.monotone.specs.Parts.{NearPlaces, DrawnPart, DrawnEdges, Found, Judged};
ghost use Rattle.monotone.specs.Cones.{vec, SmallPart, Near, RightMove, part_at, edge_at, Part, SmallEdges};
ghost use Rattle.monotone.specs.Cones.{Alone, Growing};
ghost use Rattle.monotone.specs.Cones.{Grown};

use faults::Refusal;
use table::{Limits, Tree, both_long, checked_limits, clear, get, put};

// What the check answers: every pair has a direction, the first pair that has none, or a refusal's number and lot. One
// enum and no Result, as the document of the check names it.
#[derive(Clone, Copy)]
pub enum Verdict {
    Monotone,
    Turns(u32, u32),
    Refused(u32, u32),
}

// The cone of a path with no edge, and of one that no half plane holds. Any other is the node of the clockwise side
// times `SIDE` and the node of the other side; 0 stands for a cone that is not known yet.
// A cone is one number, and no enum, since the lent work list has one for each node.
const EMPTY: usize = 1;

const SHUT: usize = 2;

const SIDE: usize = 65536;

// A vector of the plane: a difference of two places.
#[derive(Clone, Copy)]
struct Vector {
    across: i64,
    up: i64,
}

// What one vector more does to a cone: nothing, it becomes the counter-clockwise or the clockwise side, or no half
// plane is left.
#[derive(Clone, Copy)]
enum Move {
    Keep,
    High,
    Low,
    Never,
}

fn cross_product(a: Vector, b: Vector) -> i64
    requires { Near a × Near b }
    ensures { result ≡ cross (vec a) (vec b) }
{
    a.across * b.up - a.up * b.across
}

fn dot_product(a: Vector, b: Vector) -> i64
    requires { Near a × Near b }
    ensures { result ≡ dot (vec a) (vec b) }
{
    a.across * b.across + a.up * b.up
}

// What a cone becomes with the vector u, by the signs of its cross products with the two sides.
fn step(lo: Vector, hi: Vector, u: Vector) -> Move
    requires { Near lo × Near hi × Near u }
    ensures { RightMove (vec lo) (vec hi) (vec u) result }
{
    let p = cross_product(lo, u);
    let q = cross_product(u, hi);
    if p > 0 {
        if q < 0 {
            return Move::High;
        }
        return Move::Keep;
    }
    if q > 0 {
        if p < 0 {
            return Move::Low;
        }
        return Move::Keep;
    }
    if p < 0 {
        return Move::Never;
    }
    if q < 0 {
        return Move::Never;
    }
    if dot_product(lo, u) > 0 {
        return Move::Keep;
    }
    Move::Never
}

// A part of a vector, from the number that stands for it: 2,147,483,648 stands for 0.
fn part(work: &[u32], i: usize) -> i64
    requires { (i < length work.now) × (1 ≤ get_or work.now i 0) }
    ensures { (result ≡ part_at work.now i) × SmallPart result }
{
    let number = get(work, i) as i64;
    number - 2147483648
}

// The edge of node z.
fn edge(work: &[u32], n: usize, z: usize) -> Vector
    requires { SmallEdges n work.now × (0 < z) × (z < n) }
    ensures { (vec result ≡ edge_at n work.now z) × Near result }
{
    let across = part(work, n + z);
    let up = part(work, 2 * n + z);
    Vector {
        across: across,
        up: up,
    }
}

// The cone of a path of one edge, e of node z.
fn alone(z: usize, e: Vector) -> usize
    requires { Near e × (z < 65536) }
    ensures { Alone z (vec e) result }
{
    let across = e.across;
    let up = e.up;
    if across != 0 {
        return z * SIDE + z;
    }
    if up != 0 {
        return z * SIDE + z;
    }
    SHUT
}

// The cone of a path with one edge more, that of node z.
fn grow(work: &[u32], n: usize, cone: usize, z: usize) -> usize
    requires { Growing n work.now cone z }
    ensures { Grown n (edge_at n work.now) cone z result }
{
    if cone == SHUT {
        return SHUT;
    }
    let e = edge(work, n, z);
    if cone == EMPTY {
        return alone(z, e);
    }
    let low = cone / SIDE;
    let high = cone % SIDE;
    let a = edge(work, n, low);
    let b = edge(work, n, high);
    match step(a, b, e) {
        Move::Keep => cone,
        Move::High => low * SIDE + z,
        Move::Low => z * SIDE + high,
        Move::Never => SHUT,
    }
}

// Turns a part of a vector round.
fn flip(work: &mut [u32], i: usize)
    requires { (i < length work.old) × Part (get_or work.old i 0) }
    ensures { work.new ≡ set work.old i (4294967296 - get_or work.old i 0) }
{
    let number = get(work, i);
    put(work, i, 4294967296 - number);
}

// Turns the edge of node z round.
fn turn_edge(work: &mut [u32], n: usize, z: usize)
    requires { SmallEdges n work.old × (0 < z) × (z < n) }
    ensures { EdgeTurned n z work.old work.new }
{
    flip(work, n + z);
    flip(work, 2 * n + z);
}

// Turns the edges from u up to the root round.
fn turn(parent: &[u32], work: &mut [u32], u: usize)
    requires { WithEdges parent.now work.old × (u < length parent.now) }
    ensures { Turned parent.now u work.old work.new }
{
    let n = parent.len();
    let mut z = u;
    // It climbs to the root, from parent to parent, and counts nothing.
    while 0 < z {
        turn_edge(work, n, z);
        z = get(parent, z);
    }
}

// The cones of the paths from u to itself and its ancestors. The edges on the way are turned round, so that all are
// walked away from u.
fn cones_up(parent: &[u32], work: &mut [u32], u: usize)
    requires with_edges { WithEdges parent.now work.old × (u < length parent.now) }
    requires zeroed { Zeroed 0 (length parent.now) work.old }
    ensures { Climbed parent.now u work.old work.new }
{
    let n = parent.len();
    put(work, u, EMPTY);
    let mut cone = EMPTY;
    let mut z = u;
    // It climbs to the root, from parent to parent, and counts nothing.
    while 0 < z {
        let p = get(parent, z);
        turn_edge(work, n, z);
        cone = grow(work, n, cone, z);
        put(work, p, cone);
        z = p;
    }
}

// The cone of the path to v, from that of the path to v's parent, where it is not known yet.
fn visit(parent: &[u32], work: &mut [u32], v: usize)
    requires { WithEdges parent.now work.old × Reached parent.now work.old v }
    ensures { ConeKnown parent.now work.old v work.new }
{
    let n = parent.len();
    let known = get(work, v);
    if known != 0 {
        return;
    }
    let p = get(parent, v);
    let cone = get(work, p);
    let next = grow(work, n, cone, v);
    put(work, v, next);
}

// The cones of the paths from u to every node, from the root down.
fn cones(parent: &[u32], work: &mut [u32], u: usize)
    requires { WithEdges parent.now work.old × ChildrenFirst parent.now work.old × (u < length
        parent.now) }
    ensures { Coned parent.now u work.old work.new }
{
    let n = parent.len();
    clear(work, 0, n);
    cones_up(parent, work, u);
    for j in (0..n).rev() {
        let v = get(work, 3 * n + j);
        visit(parent, work, v);
    }
    turn(parent, work, u);
}

// The first pair that has no direction, if there is one: the first whose path has no open half plane.
fn pairs(parent: &[u32], work: &mut [u32]) -> Option<(u32, u32)>
    requires { WithEdges parent.now work.old × ChildrenFirst parent.now work.old }
    ensures { (x y : List ℕ) → DrawnEdges parent.now x y work.old
        → Found parent.now x y (found result) }
{
    let n = parent.len();
    let mut turning = None;
    'pairs: for u in 0..n {
        cones(parent, work, u);
        for v in u + 1..n {
            if get(work, v) == SHUT {
                turning = Some((u as u32, v as u32));
                break 'pairs;
            }
        }
    }
    turning
}

// The edges' parts in the coordinate c, from `at` on: c of each node less c of its parent.
fn offsets(c: &[u32], parent: &[u32], work: &mut [u32], at: usize)
    requires { NearPlaces parent.now c.now × (at + length parent.now ≤ length work.old) }
    ensures drawn_part { DrawnPart parent.now c.now at work.new }
    ensures only { Only at (at + length parent.now) work.old work.new }
{
    for z in 0..parent.len() {
        let p = get(parent, z);
        let below = get(c, z);
        let above = get(c, p);
        put(work, at + z, below + 2147483648 - above);
    }
}

// Refusal 15, of the smallest node with a place beyond the limit.
fn test_places(limits: Limits, x: &[u32], y: &[u32]) -> Result<(), Refusal>
    requires { (length y.now ≡ length x.now) × (length x.now < 2 ^ 32) }
    ensures { valid result
        ≡ validity (refuse_least (number limits.far) (length x.now) (place_beyond limits.place x.now y.now)) }
{
    let most = limits.place as usize;
    for v in 0..x.len() {
        let across = get(x, v);
        let up = get(y, v);
        if most < across || most < up {
            return Err(limits.far.at(v));
        }
    }
    Ok(())
}

// The first pair that has no direction, in an accepted table with places within the limit.
fn judge(tree: &Tree<'_>, x: &[u32], y: &[u32], work: &mut [u32]) -> Option<(u32, u32)>
    requires { Judged tree.now.parent.now tree.now.rank.now x.now y.now work.old }
    ensures { Found tree.now.parent.now x.now y.now (found result) }
{
    let parent = tree.parent;
    let n = parent.len();
    tree.number(work);
    offsets(x, parent, work, n);
    offsets(y, parent, work, 2 * n);
    pairs(parent, work)
}

// The check at given limits: the first pair that has no direction, or a refusal.
fn check_within(
    limits: Limits,
    tree: &Tree<'_>,
    x: &[u32],
    y: &[u32],
    work: &mut [u32],
) -> Result<Option<(u32, u32)>, Refusal>
    requires { (limits.nodes ≤ large.nodes) × (limits.place ≤ farthest) }
    ensures { Checked limits tree.now.parent.now tree.now.rank.now x.now y.now
        work.old work.new (verdict result) }
{
    let long = both_long(tree.parent.len(), x, y);
    tree.validate(limits, long, work)?;
    test_places(limits, x, y)?;
    Ok(judge(tree, x, y, work))
}

// Whether the drawing of a table is monotone: the first pair, by number, whose tree path rises along no direction. The
// work list is 4n long; refusals 1, 14 and 3 leave it alone.
pub fn check(tree: &Tree<'_>, x: &[u32], y: &[u32], work: &mut [u32]) -> Verdict
    ensures { Checked checked tree.now.parent.now tree.now.rank.now x.now y.now
        work.old work.new result }
{
    match check_within(checked_limits(), tree, x, y, work) {
        Ok(None) => Verdict::Monotone,
        Ok(Some((u, v))) => Verdict::Turns(u, v),
        Err(refusal) => Verdict::Refused(refusal.fault.number(), refusal.lot),
    }
}
