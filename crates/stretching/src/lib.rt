// Lengthen and shorten (document 01, "Layout, lengthen, shorten"; held edges: document 02, request 108).
//
// Both are one move with a sign: `longer` says which.
#![tactic(auto)]

ghost use Rattle.std.specs.Prelude.{true, false, ◌≡◌, ◌+◌, ◌^◌, ◌≤◌, ◌<◌, length};
ghost use Rattle.table.specs.Acceptance.{validity};
ghost use Rattle.table.specs.Table.{limits_of};
ghost use Rattle.table.specs.Validity.{valid};
ghost use Rattle.slopes.specs.Slopes.{edge};
ghost use Rattle.drawing.specs.Drawing.{sheet_of, Does, to_read, to_write};
ghost use Rattle.drawing.specs.Lists.{read, written, SameLists, parents, ranks, sheet_written};
ghost use Rattle.drawing.specs.Framed.{framed};
ghost use Rattle.drawing.specs.DrawingLaws.{Drawn};
ghost use Rattle.drawing.specs.Parts.{FramesFit};
ghost use Rattle.stretching.specs.Stretching.{moved, stretched, beyond, edge_fault, lengthen, shorten};
ghost use Rattle.stretching.specs.Stretches.{longer};
ghost use Rattle.stretching.specs.Parts.{by, free_fault, Examining, Unheld, Passes, Movable, Stretchable, Opened};
ghost use Rattle.stretching.specs.Parts.{framing};

use drawing::{Drawing, DrawingMut, Frame};
use faults::{Fault, Refusal};
use inspecting::{inspect, product};
use slopes::{Rule, Slope, edge_slope};
use table::{Cabinet, Limits, Numbered, Tree, get, put};

// d more or d less than a.
fn changed(a: usize, d: usize, longer: bool) -> usize
    requires { ((longer ≡ true → a + d < 2 ^ 64)) × ((longer ≡ false → d ≤ a)) }
    ensures { result ≡ by longer a d }
{
    if longer { a + d } else { a - d }
}

// Refusals 9 and 10, of n nodes: whether `lot` has an edge.
fn test_edge(n: usize, lot: u32) -> Result<(), Refusal>
    ensures { valid result ≡ validity (edge_fault n lot) }
{
    if n <= lot as usize {
        return Err(Fault::NoSuchLot.at(0));
    }
    if lot == 0 {
        return Err(Fault::NoEdge.at(0));
    }
    Ok(())
}

// Refusals 9, 10 and 22: whether `lot` has an edge that is not held.
fn test_free(held: &[u32], lot: u32) -> Result<(), Refusal>
    ensures { valid result ≡ validity (free_fault held.now lot) }
{
    test_edge(held.len(), lot)?;
    let v = lot as usize;
    if get(held, v) == 1 {
        return Err(Fault::Held.at(v));
    }
    Ok(())
}

// Refusals 1 to 10 of a call on the edge of `lot`; an accepted table is numbered.
pub fn examine(
    limits: Limits,
    rule: Rule,
    tree: &Tree<'_>,
    drawing: &Drawing<'_>,
    held: &[u32],
    work: &mut [u32],
    lot: u32,
) -> Result<(), Refusal>
    ensures { Examining limits tree.now.parent.now tree.now.rank.now rule
        (sheet_of (read drawing.now) held.now) work.old lot work.new (valid result) }
{
    inspect(limits, rule, tree, drawing, held, work)?;
    test_edge(tree.parent.len(), lot)
}

// Refusals 1 to 10, then 22, of a call that stretches the edge of `lot`; an accepted table is numbered.
fn examine_free(
    limits: Limits,
    rule: Rule,
    tree: &Tree<'_>,
    drawing: &Drawing<'_>,
    held: &[u32],
    work: &mut [u32],
    lot: u32,
) -> Result<(), Refusal>
    ensures { Unheld limits tree.now.parent.now tree.now.rank.now rule
        (sheet_of (read drawing.now) held.now) work.old lot work.new (valid result) }
{
    inspect(limits, rule, tree, drawing, held, work)?;
    test_free(held, lot)
}

// Whether some place of v's subtree would be beyond the limit when it is moved on by d.
fn passes(limit: usize, tree: &Numbered<'_>, places: &[u32], v: usize, d: usize) -> bool
    requires { (length places.now ≡ length tree.now.parent.now) × (v < length tree.now.parent.now)
        × (d + 2 ^ 32 ≤ 2 ^ 64) }
    ensures { Passes limit tree.now.parent.now places.now v d result }
{
    let n = tree.parent.len();
    let work = tree.work;
    let last = get(work, v);
    let first = get(work, 2 * n + v) - 1;
    for j in first..last {
        let z = get(work, 3 * n + j);
        if limit < get(places, z) + d {
            return true;
        }
    }
    false
}

// Moves v's subtree on, or back, by d.
fn move_subtree(tree: &Numbered<'_>, places: &mut [u32], v: usize, d: usize, longer: bool)
    requires { Movable tree.now.parent.now places.old v d longer × (v < length tree.now.parent.now) }
    ensures { places.new ≡ moved tree.now.parent.now (λ a. by longer a d) v places.old }
{
    let n = tree.parent.len();
    let work = tree.work;
    let last = get(work, v);
    let first = get(work, 2 * n + v) - 1;
    for j in first..last {
        let z = get(work, 3 * n + j);
        let place = get(places, z);
        put(places, z, changed(place, d, longer));
    }
}

// Whether some place of the drawing with v's edge, which has this slope, longer would be beyond the limit.
pub fn too_far(
    limit: usize,
    rule: Rule,
    tree: &Numbered<'_>,
    drawing: &Drawing<'_>,
    v: usize,
    slope: Slope,
    count: u32,
) -> bool
    requires { Drawn limit tree.now.parent.now tree.now.rank.now rule (read drawing.now)
        × (v < length tree.now.parent.now) × (slope ≡ edge tree.now.parent.now tree.now.rank.now rule v) }
    ensures { result ≡ beyond limit (length tree.now.parent.now)
        (longer tree.now.parent.now tree.now.rank.now rule (read drawing.now) v count) }
{
    let c = count as usize;
    let wide = passes(limit, tree, drawing.x, v, product(c, slope.across));
    if wide {
        return true;
    }
    passes(limit, tree, drawing.y, v, product(c, slope.up))
}

// Makes v's edge, which has this slope, longer or shorter, and moves its subtree along.
fn stretch(
    rule: Rule,
    tree: &Numbered<'_>,
    drawing: &mut DrawingMut<'_>,
    v: usize,
    slope: Slope,
    count: u32,
    longer: bool,
)
    requires { Stretchable tree.now.parent.now tree.now.rank.now rule (written drawing.old) tree.now.work.now
        v count longer × (slope ≡ edge tree.now.parent.now tree.now.rank.now rule v) }
    ensures stretched { written drawing.new
        ≡ stretched (by longer) tree.now.parent.now tree.now.rank.now rule (written drawing.old) v count }
    ensures lists { SameLists drawing.old drawing.new }
{
    let c = count as usize;
    move_subtree(tree, drawing.x, v, product(c, slope.across), longer);
    move_subtree(tree, drawing.y, v, product(c, slope.up), longer);
    let t = drawing.times[v] as usize;
    put(drawing.times, v, changed(t, c, longer));
}

// Lengthen on a sheet that is accepted, and whose table is numbered: all but the frame.
pub fn lengthen_edge(
    limits: Limits,
    rule: Rule,
    tree: &Numbered<'_>,
    drawing: &mut DrawingMut<'_>,
    held: &[u32],
    lot: u32,
    count: u32,
) -> Result<(), Refusal>
    requires { FramesFit limits × Opened limits tree.now.parent.now tree.now.rank.now rule
        (sheet_of (written drawing.old) held.now) tree.now.work.now }
    ensures lengthened { framing (valid result) (sheet_of (written drawing.new) held.now)
        ≡ lengthen limits tree.now.parent.now tree.now.rank.now rule (sheet_of (written drawing.old) held.now)
        (length tree.now.work.now) lot count }
    ensures lists { SameLists drawing.old drawing.new }
{
    let place = limits.place as usize;
    test_free(held, lot)?;
    let v = lot as usize;
    let slope = edge_slope(rule, tree, v);
    let far = too_far(place, rule, tree, &drawing.read(), v, slope, count);
    if far {
        return Err(limits.far.at(v));
    }
    stretch(rule, tree, drawing, v, slope, count, true);
    Ok(())
}

// Lengthen at any limits whose frames are numbers of 32 bits.
pub fn lengthen_within(
    limits: Limits,
    rule: Rule,
    tree: &Tree<'_>,
    drawing: &mut DrawingMut<'_>,
    held: &[u32],
    work: &mut [u32],
    lot: u32,
    count: u32,
) -> Result<Frame, Refusal>
    requires { FramesFit limits }
    ensures does { Does limits (parents tree) (ranks tree) (sheet_written drawing (to_read held)) (to_write work)
        (λ P R s m. lengthen limits P R rule s m lot count) (framed result) }
    ensures lists { SameLists drawing.old drawing.new }
{
    inspect(limits, rule, tree, &drawing.read(), held, work)?;
    let numbered = Numbered {
        parent: tree.parent,
        rank: tree.rank,
        work,
    };
    lengthen_edge(limits, rule, &numbered, drawing, held, lot, count)?;
    Ok(drawing.read().frame())
}

// Shorten at any limits whose frames are numbers of 32 bits.
pub fn shorten_within(
    limits: Limits,
    rule: Rule,
    tree: &Tree<'_>,
    drawing: &mut DrawingMut<'_>,
    held: &[u32],
    work: &mut [u32],
    lot: u32,
    count: u32,
) -> Result<Frame, Refusal>
    requires { FramesFit limits }
    ensures does { Does limits (parents tree) (ranks tree) (sheet_written drawing (to_read held)) (to_write work)
        (λ P R s m. shorten limits P R rule s m lot count) (framed result) }
    ensures lists { SameLists drawing.old drawing.new }
{
    examine_free(limits, rule, tree, &drawing.read(), held, work, lot)?;
    let numbered = Numbered {
        parent: tree.parent,
        rank: tree.rank,
        work,
    };
    let v = lot as usize;
    if drawing.times[v] <= count {
        return Err(Fault::CountTooLarge.at(v));
    }
    let slope = edge_slope(rule, &numbered, v);
    stretch(rule, &numbered, drawing, v, slope, count, false);
    Ok(drawing.read().frame())
}

// Makes the edge of `lot` longer by `count` times its slope, moves the lot's subtree along and returns the frame; on a
// refusal the sheet stays as it was.
pub fn lengthen(
    cabinet: Cabinet,
    rule: Rule,
    tree: &Tree<'_>,
    drawing: &mut DrawingMut<'_>,
    held: &[u32],
    work: &mut [u32],
    lot: u32,
    count: u32,
) -> Result<Frame, Refusal>
    ensures does { Does (limits_of cabinet) (parents tree) (ranks tree) (sheet_written drawing (to_read held))
        (to_write work) (λ P R s m. lengthen (limits_of cabinet) P R rule s m lot count) (framed result) }
    ensures lists { SameLists drawing.old drawing.new }
{
    lengthen_within(
        cabinet.limits(),
        rule,
        tree,
        drawing,
        held,
        work,
        lot,
        count,
    )
}

// Makes the edge of `lot` shorter by `count` times its slope, moves the lot's subtree back and returns the frame; on a
// refusal the sheet stays as it was.
pub fn shorten(
    cabinet: Cabinet,
    rule: Rule,
    tree: &Tree<'_>,
    drawing: &mut DrawingMut<'_>,
    held: &[u32],
    work: &mut [u32],
    lot: u32,
    count: u32,
) -> Result<Frame, Refusal>
    ensures does { Does (limits_of cabinet) (parents tree) (ranks tree) (sheet_written drawing (to_read held))
        (to_write work) (λ P R s m. shorten (limits_of cabinet) P R rule s m lot count) (framed result) }
    ensures lists { SameLists drawing.old drawing.new }
{
    shorten_within(
        cabinet.limits(),
        rule,
        tree,
        drawing,
        held,
        work,
        lot,
        count,
    )
}
