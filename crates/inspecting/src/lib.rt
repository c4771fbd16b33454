// The tests of refusal 8 (document 01, "Layout, lengthen, shorten"; held edges: document 02, request 108).
#![tactic(auto)]

ghost use Rattle.std.specs.Prelude.{true, ◌≡◌, ◌+◌, ◌*◌, ◌^◌, ◌≤◌, ◌<◌, min, length};
ghost use Rattle.laws.specs.Search.{least};
ghost use Rattle.table.specs.Validity.{valid};
ghost use Rattle.slopes.specs.Slopes.{edge};
ghost use Rattle.drawing.specs.Drawing.{node_fits, sheet_of};
ghost use Rattle.drawing.specs.Lists.{read};
ghost use Rattle.drawing.specs.Parts.{Sized};
ghost use Rattle.inspecting.specs.Parts.{placed_from, root_fits, misfit, AllFit, misheld, Inspecting};

use drawing::Drawing;
use faults::{Fault, Refusal};
use slopes::{Rule, Slope, bordered_at, edge_slope, slope_before};
use table::{Limits, Numbered, Tree, get};

// Whether v is at its parent's place p and `step` more, and within the limit.
fn placed(limit: usize, places: &[u32], p: usize, v: usize, step: usize) -> bool
    requires { (p < length places.now) × (v < length places.now) × (step + 2 ^ 32 ≤ 2 ^ 64) }
    ensures { result ≡ placed_from limit places.now p v step }
{
    let place = get(places, v);
    if place != get(places, p) + step {
        return false;
    }
    place <= limit
}

// Whether the root has times 1 and place (0, 0).
fn root_fits(drawing: &Drawing<'_>) -> bool
    requires { (0 < length drawing.now.times.now) × (0 < length drawing.now.x.now) × (0 < length drawing.now.y.now) }
    ensures { result ≡ root_fits (read drawing.now) }
{
    if get(drawing.times, 0) != 1 {
        return false;
    }
    if get(drawing.x, 0) != 0 {
        return false;
    }
    get(drawing.y, 0) == 0
}

// `count` times a part of a slope: with room for a place in 64 bits.
pub fn product(count: usize, part: u32) -> usize
    requires { count < 2 ^ 32 }
    ensures { (result ≡ count * part) × (result + 2 ^ 32 ≤ 2 ^ 64) }
{
    count * part as usize
}

// Whether times and place of v, other than the root, are right against its parent's place, and within the limit.
fn node_fits(
    limit: usize,
    rule: Rule,
    tree: &Numbered<'_>,
    drawing: &Drawing<'_>,
    v: usize,
    slope: Slope,
) -> bool
    requires { Sized tree.now.parent.now tree.now.rank.now (read drawing.now) tree.now.work.now
        × (0 < v) × (v < length tree.now.parent.now)
        × (slope ≡ edge tree.now.parent.now tree.now.rank.now rule v) }
    ensures { result ≡ node_fits limit tree.now.parent.now tree.now.rank.now rule
        (read drawing.now) v }
{
    let t = get(drawing.times, v);
    if t < 1 {
        return false;
    }
    let p = get(tree.parent, v);
    let right = placed(limit, drawing.x, p, v, product(t, slope.across));
    if !right {
        return false;
    }
    placed(limit, drawing.y, p, v, product(t, slope.up))
}

// How many lots fit before the first that does not, where the root fits: node by node, each with a slope found by
// itself.
fn misfit_by_node(limit: usize, rule: Rule, tree: &Numbered<'_>, drawing: &Drawing<'_>) -> usize
    requires { Sized tree.now.parent.now tree.now.rank.now (read drawing.now) tree.now.work.now
        × (root_fits (read drawing.now) ≡ true) }
    ensures { result ≡ least (misfit limit tree.now.parent.now tree.now.rank.now rule
        (read drawing.now)) (length tree.now.parent.now) }
{
    let n = tree.parent.len();
    for v in 1..n {
        let slope = edge_slope(rule, tree, v);
        let fits = node_fits(limit, rule, tree, drawing, v, slope);
        if !fits {
            return v;
        }
    }
    n
}

// Whether all nodes fit, where the root does: in reverse post-order, each slope told by the two after it.
fn all_fit(limit: usize, rule: Rule, tree: &Numbered<'_>, drawing: &Drawing<'_>) -> bool
    requires { Sized tree.now.parent.now tree.now.rank.now (read drawing.now) tree.now.work.now
        × (root_fits (read drawing.now) ≡ true) }
    ensures { AllFit limit tree.now.parent.now tree.now.rank.now rule (read drawing.now) result }
{
    let n = tree.parent.len();
    let mut here = bordered_at(rule, n, n - 1);
    let mut after = bordered_at(rule, n, n);
    for j in (1..n).rev() {
        let v = tree.node_at(j);
        let fits = node_fits(limit, rule, tree, drawing, v, here);
        if !fits {
            return false;
        }
        let before = slope_before(rule, n, j, here, after);
        after = here;
        here = before;
    }
    true
}

// How many lots fit before the first that does not. A steep slope is told by its number alone; balanced ones are quicker
// in order, and node by node only where some node doesn't fit.
fn first_misfit(limit: usize, rule: Rule, tree: &Numbered<'_>, drawing: &Drawing<'_>) -> usize
    requires { Sized tree.now.parent.now tree.now.rank.now (read drawing.now) tree.now.work.now }
    ensures { result ≡ least (misfit limit tree.now.parent.now tree.now.rank.now rule
        (read drawing.now)) (length tree.now.parent.now) }
{
    let root = root_fits(drawing);
    if !root {
        return 0;
    }
    match rule {
        Rule::Steep => misfit_by_node(limit, rule, tree, drawing),
        Rule::Balanced => {
            let fit = all_fit(limit, rule, tree, drawing);
            if fit {
                return tree.parent.len();
            }
            misfit_by_node(limit, rule, tree, drawing)
        }
    }
}

// How many entries of held are right before the first that is not.
fn first_misheld(held: &[u32]) -> usize
    requires { 0 < length held.now }
    ensures { result ≡ least (misheld held.now) (length held.now) }
{
    let n = held.len();
    if get(held, 0) != 0 {
        return 0;
    }
    for z in 1..n {
        if 1 < get(held, z) {
            return z;
        }
    }
    n
}

// Refusals 1 to 8 of a call on a sheet; an accepted table is numbered.
pub fn inspect(
    limits: Limits,
    rule: Rule,
    tree: &Tree<'_>,
    drawing: &Drawing<'_>,
    held: &[u32],
    work: &mut [u32],
) -> Result<(), Refusal>
    ensures { Inspecting limits tree.now.parent.now tree.now.rank.now rule
        (sheet_of (read drawing.now) held.now) work.old work.new (valid result) }
{
    let n = tree.parent.len();
    let place = limits.place as usize;
    drawing.prepare(limits, tree, held, work)?;
    let numbered = Numbered {
        parent: tree.parent,
        rank: tree.rank,
        work,
    };
    let u = first_misfit(place, rule, &numbered, drawing);
    let v = u.min(first_misheld(held));
    if v < n {
        return Err(Fault::NoSheet.at(v));
    }
    Ok(())
}
