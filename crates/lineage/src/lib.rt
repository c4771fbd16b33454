// The C interface. Each call that takes a reply writes its answer into it, three numbers (a list of lengthens: four),
// and returns true; where the reply, or a window's point, is not so long it writes nothing at all and returns false.
// include/lineage.h says what the numbers mean.
#![tactic(auto)]

ghost use Rattle.std.specs.Prelude.{◌≡◌, length};
ghost use Rattle.table.specs.Table.{large, small, checked};
ghost use Rattle.numbers.specs.PostNumbers.{spans, Spanned};
ghost use Rattle.drawing.specs.Drawing.{layout, sheet, Does, to_read, to_write};
ghost use Rattle.stretching.specs.Stretching.{lengthen, shorten};
ghost use Rattle.holding.specs.Holding as holding;
ghost use Rattle.arranging.specs.Arranging.{Arranges};
ghost use Rattle.aligning.specs.Aligning.{Aligns};
ghost use Rattle.tallest.specs.Tallest.{lists, Fills};
ghost use Rattle.direction.specs.Direction.{Directed};
ghost use Rattle.monotone.specs.Monotone.{Checked};
ghost use Rattle.treefile.specs.TreeFile.{stated_or_zero, Read, Wrote};
ghost use Rattle.window.specs.Window.{greatest, Says};
ghost use Rattle.replies.specs.Replies.{counted_reply, framed_reply, heading_reply, verdict_reply, saved_reply};
ghost use Rattle.replies.specs.Replies.{arranged_reply, aligned_reply, screen, view_reply};
ghost use Rattle.lineage.specs.Exports.{rule_of, Unchanged, Replied, Exported};

use drawing::{Drawing, DrawingMut};
use replies::{
    put_aligned, put_arranged, put_counted, put_framed, put_heading, put_saved, put_verdict,
    put_view,
};
use slopes::Rule;
use table::{Cabinet, Tree};

// The rule that a bool stands for.
fn rule_of(balanced: bool) -> Rule
    ensures { result ≡ rule_of balanced }
{
    if balanced {
        Rule::Balanced
    } else {
        Rule::Steep
    }
}

// Fills in the first and the last post number in each lot's subtree: {1, n, 0}, or {0, number, node} where it is
// refused.
#[unsafe(no_mangle)]
pub extern "C" fn lineage_post_numbers(
    parent: &[u32],
    rank: &[u32],
    first: &mut [u32],
    last: &mut [u32],
    work: &mut [u32],
    reply: &mut [i64],
) -> bool
    ensures { Exported 3
        (Spanned large parent.now rank.now (spans first.old last.old)
        work.old (spans first.new last.new) work.new)
        counted_reply
        ((spans first.new last.new ≡ spans first.old last.old)
        × (work.new ≡ work.old))
        reply.old reply.new result }
{
    if reply.len() != 3 {
        return false;
    }
    let answer = numbers::post_numbers(&Tree { parent, rank }, first, last, work);
    put_counted(reply, answer);
    true
}

// Fills the lists with the tree of n lots whose fresh steep sheet is the tallest: {1, width, height}, its frame, or
// {0, number, node} where it is refused.
#[unsafe(no_mangle)]
pub extern "C" fn lineage_tallest(
    n: u32,
    parent: &mut [u32],
    rank: &mut [u32],
    reply: &mut [i64],
) -> bool
    ensures { Exported 3
        (Fills large n (lists (to_write parent) (to_write rank)))
        framed_reply ((lists (to_write parent) (to_write rank)).exit ≡ (lists (to_write parent) (to_write rank)).entry)
        reply.old reply.new result }
{
    if reply.len() != 3 {
        return false;
    }
    let answer = tallest::tallest(n, parent, rank);
    put_framed(reply, answer);
    true
}

// Writes a fresh sheet: {1, width, height}, or {0, number, node} where it is refused.
#[unsafe(no_mangle)]
pub extern "C" fn lineage_layout(
    balanced: bool,
    parent: &[u32],
    rank: &[u32],
    times: &mut [u32],
    x: &mut [u32],
    y: &mut [u32],
    held: &mut [u32],
    work: &mut [u32],
    reply: &mut [i64],
) -> bool
    ensures { Exported 3
        (Does large (to_read parent) (to_read rank)
        (sheet (to_write times) (to_write x) (to_write y) (to_write held))
        (to_write work) (λ P R s m. layout large P R (rule_of balanced) s m))
        framed_reply (Unchanged (sheet (to_write times) (to_write x) (to_write y) (to_write held)) (to_write work))
        reply.old reply.new result }
{
    if reply.len() != 3 {
        return false;
    }
    let tree = Tree { parent, rank };
    let mut drawing = DrawingMut { times, x, y };
    let rule = rule_of(balanced);
    let answer = drawing::layout(Cabinet::Large, rule, &tree, &mut drawing, held, work);
    put_framed(reply, answer);
    true
}

// Makes an edge longer: {1, width, height}, or {0, number, node} where it is refused.
#[unsafe(no_mangle)]
pub extern "C" fn lineage_lengthen(
    balanced: bool,
    parent: &[u32],
    rank: &[u32],
    times: &mut [u32],
    x: &mut [u32],
    y: &mut [u32],
    held: &[u32],
    work: &mut [u32],
    lot: u32,
    count: u32,
    reply: &mut [i64],
) -> bool
    ensures { Exported 3
        (Does large (to_read parent) (to_read rank)
        (sheet (to_write times) (to_write x) (to_write y) (to_read held)) (to_write work)
        (λ P R s m. lengthen large P R (rule_of balanced) s m lot count))
        framed_reply (Unchanged (sheet (to_write times) (to_write x) (to_write y) (to_read held)) (to_write work))
        reply.old reply.new result }
{
    if reply.len() != 3 {
        return false;
    }
    let tree = Tree { parent, rank };
    let mut drawing = DrawingMut { times, x, y };
    let rule = rule_of(balanced);
    let cabinet = Cabinet::Large;
    let answer = stretching::lengthen(cabinet, rule, &tree, &mut drawing, held, work, lot, count);
    put_framed(reply, answer);
    true
}

// Makes the edges of a list of lots longer, one after another up to the first that is refused: {1, width, height, 0},
// or {0, number, node, place} with its place in the lists, from 1, or 0 where the sheet or the lists are refused.
#[unsafe(no_mangle)]
pub extern "C" fn lineage_lengthen_each(
    balanced: bool,
    parent: &[u32],
    rank: &[u32],
    times: &mut [u32],
    x: &mut [u32],
    y: &mut [u32],
    held: &[u32],
    work: &mut [u32],
    lots: &[u32],
    counts: &[u32],
    reply: &mut [i64],
) -> bool
    ensures { Exported 4
        (Arranges large (to_read parent) (to_read rank) (rule_of balanced)
        (sheet (to_write times) (to_write x) (to_write y) (to_read held))
        (to_write work) (to_read lots) (to_read counts))
        arranged_reply (Unchanged (sheet (to_write times) (to_write x) (to_write y) (to_read held)) (to_write work))
        reply.old reply.new result }
{
    if reply.len() != 4 {
        return false;
    }
    let tree = Tree { parent, rank };
    let mut drawing = DrawingMut { times, x, y };
    let rule = rule_of(balanced);
    let cabinet = Cabinet::Large;
    let answer = arranging::lengthen_each(
        cabinet,
        rule,
        &tree,
        &mut drawing,
        held,
        work,
        lots,
        counts,
    );
    put_arranged(reply, answer);
    true
}

// Makes an edge shorter: {1, width, height}, or {0, number, node} where it is refused.
#[unsafe(no_mangle)]
pub extern "C" fn lineage_shorten(
    balanced: bool,
    parent: &[u32],
    rank: &[u32],
    times: &mut [u32],
    x: &mut [u32],
    y: &mut [u32],
    held: &[u32],
    work: &mut [u32],
    lot: u32,
    count: u32,
    reply: &mut [i64],
) -> bool
    ensures { Exported 3
        (Does large (to_read parent) (to_read rank)
        (sheet (to_write times) (to_write x) (to_write y) (to_read held)) (to_write work)
        (λ P R s m. shorten large P R (rule_of balanced) s m lot count))
        framed_reply (Unchanged (sheet (to_write times) (to_write x) (to_write y) (to_read held)) (to_write work))
        reply.old reply.new result }
{
    if reply.len() != 3 {
        return false;
    }
    let tree = Tree { parent, rank };
    let mut drawing = DrawingMut { times, x, y };
    let rule = rule_of(balanced);
    let cabinet = Cabinet::Large;
    let answer = stretching::shorten(cabinet, rule, &tree, &mut drawing, held, work, lot, count);
    put_framed(reply, answer);
    true
}

// Holds an edge, or frees it: {1, width, height}, or {0, number, node} where it is refused.
#[unsafe(no_mangle)]
pub extern "C" fn lineage_hold(
    balanced: bool,
    parent: &[u32],
    rank: &[u32],
    times: &[u32],
    x: &[u32],
    y: &[u32],
    held: &mut [u32],
    work: &mut [u32],
    lot: u32,
    hold: bool,
    reply: &mut [i64],
) -> bool
    ensures { Exported 3
        (Does large (to_read parent) (to_read rank)
        (sheet (to_read times) (to_read x) (to_read y) (to_write held)) (to_write work)
        (λ P R s m. holding.hold large P R (rule_of balanced) s m lot hold))
        framed_reply (Unchanged (sheet (to_read times) (to_read x) (to_read y) (to_write held)) (to_write work))
        reply.old reply.new result }
{
    if reply.len() != 3 {
        return false;
    }
    let tree = Tree { parent, rank };
    let drawing = Drawing { times, x, y };
    let rule = rule_of(balanced);
    let cabinet = Cabinet::Large;
    let answer = holding::hold(cabinet, rule, &tree, &drawing, held, work, lot, hold);
    put_framed(reply, answer);
    true
}

// The count by which lengthen brings a lot to a column: {1, count, 0}, {2, 0, 0} where no count does, or
// {0, number, node} where it is refused.
#[unsafe(no_mangle)]
pub extern "C" fn lineage_column(
    balanced: bool,
    parent: &[u32],
    rank: &[u32],
    times: &[u32],
    x: &[u32],
    y: &[u32],
    held: &[u32],
    work: &mut [u32],
    lot: u32,
    column: u32,
    reply: &mut [i64],
) -> bool
    ensures { Exported 3
        (Aligns large parent.now rank.now (rule_of balanced)
        (sheet (to_read times) (to_read x) (to_read y) (to_read held)).entry
        work.old work.new lot column)
        aligned_reply (work.new ≡ work.old)
        reply.old reply.new result }
{
    if reply.len() != 3 {
        return false;
    }
    let tree = Tree { parent, rank };
    let drawing = Drawing { times, x, y };
    let rule = rule_of(balanced);
    let cabinet = Cabinet::Large;
    let answer = aligning::column(cabinet, rule, &tree, &drawing, held, work, lot, column);
    put_aligned(reply, answer);
    true
}

// Writes a fresh sheet of the small cabinet: {1, width, height}, or {0, number, node} where it is refused.
#[unsafe(no_mangle)]
pub extern "C" fn lineage_small_layout(
    balanced: bool,
    parent: &[u32],
    rank: &[u32],
    times: &mut [u32],
    x: &mut [u32],
    y: &mut [u32],
    held: &mut [u32],
    work: &mut [u32],
    reply: &mut [i64],
) -> bool
    ensures { Exported 3
        (Does small (to_read parent) (to_read rank)
        (sheet (to_write times) (to_write x) (to_write y) (to_write held))
        (to_write work) (λ P R s m. layout small P R (rule_of balanced) s m))
        framed_reply (Unchanged (sheet (to_write times) (to_write x) (to_write y) (to_write held)) (to_write work))
        reply.old reply.new result }
{
    if reply.len() != 3 {
        return false;
    }
    let tree = Tree { parent, rank };
    let mut fresh = DrawingMut { times, x, y };
    let rule = rule_of(balanced);
    let answer = drawing::layout(Cabinet::Small, rule, &tree, &mut fresh, held, work);
    put_framed(reply, answer);
    true
}

// Makes an edge longer on the small cabinet: {1, width, height}, or {0, number, node} where it is refused.
#[unsafe(no_mangle)]
pub extern "C" fn lineage_small_lengthen(
    balanced: bool,
    parent: &[u32],
    rank: &[u32],
    times: &mut [u32],
    x: &mut [u32],
    y: &mut [u32],
    held: &[u32],
    work: &mut [u32],
    lot: u32,
    count: u32,
    reply: &mut [i64],
) -> bool
    ensures { Exported 3
        (Does small (to_read parent) (to_read rank)
        (sheet (to_write times) (to_write x) (to_write y) (to_read held)) (to_write work)
        (λ P R s m. lengthen small P R (rule_of balanced) s m lot count))
        framed_reply (Unchanged (sheet (to_write times) (to_write x) (to_write y) (to_read held)) (to_write work))
        reply.old reply.new result }
{
    if reply.len() != 3 {
        return false;
    }
    let tree = Tree { parent, rank };
    let mut lengthened = DrawingMut { times, x, y };
    let rule = rule_of(balanced);
    let small = Cabinet::Small;
    let answer = stretching::lengthen(small, rule, &tree, &mut lengthened, held, work, lot, count);
    put_framed(reply, answer);
    true
}

// Makes an edge shorter on the small cabinet: {1, width, height}, or {0, number, node} where it is refused.
#[unsafe(no_mangle)]
pub extern "C" fn lineage_small_shorten(
    balanced: bool,
    parent: &[u32],
    rank: &[u32],
    times: &mut [u32],
    x: &mut [u32],
    y: &mut [u32],
    held: &[u32],
    work: &mut [u32],
    lot: u32,
    count: u32,
    reply: &mut [i64],
) -> bool
    ensures { Exported 3
        (Does small (to_read parent) (to_read rank)
        (sheet (to_write times) (to_write x) (to_write y) (to_read held)) (to_write work)
        (λ P R s m. shorten small P R (rule_of balanced) s m lot count))
        framed_reply (Unchanged (sheet (to_write times) (to_write x) (to_write y) (to_read held)) (to_write work))
        reply.old reply.new result }
{
    if reply.len() != 3 {
        return false;
    }
    let tree = Tree { parent, rank };
    let mut shortened = DrawingMut { times, x, y };
    let rule = rule_of(balanced);
    let small = Cabinet::Small;
    let answer = stretching::shorten(small, rule, &tree, &mut shortened, held, work, lot, count);
    put_framed(reply, answer);
    true
}

// A direction along which the tree path rises: {1, d, e}, or {0, number, node} where it is refused.
#[unsafe(no_mangle)]
pub extern "C" fn lineage_direction(
    balanced: bool,
    parent: &[u32],
    rank: &[u32],
    work: &mut [u32],
    from: u32,
    to: u32,
    reply: &mut [i64],
) -> bool
    ensures { Exported 3
        (Directed large parent.now rank.now (rule_of balanced) work.old
        work.new from to)
        heading_reply
        (work.new ≡ work.old)
        reply.old reply.new result }
{
    if reply.len() != 3 {
        return false;
    }
    let answer = direction::direction(rule_of(balanced), &Tree { parent, rank }, work, from, to);
    put_heading(reply, answer);
    true
}

// Whether a drawing is monotone: {1, 0, 0}, or {2, u, v} for the first pair that turns, or {0, number, node} where it
// is refused.
#[unsafe(no_mangle)]
pub extern "C" fn lineage_check(
    parent: &[u32],
    rank: &[u32],
    x: &[u32],
    y: &[u32],
    work: &mut [u32],
    reply: &mut [i64],
) -> bool
    ensures { Exported 3
        (Checked checked parent.now rank.now x.now y.now
        work.old work.new)
        verdict_reply
        (work.new ≡ work.old)
        reply.old reply.new result }
{
    if reply.len() != 3 {
        return false;
    }
    let answer = monotone::check(&Tree { parent, rank }, x, y, work);
    put_verdict(reply, answer);
    true
}

// Where a place stands in the window of side 2^m with its corner at (a, b): {1, 0, 0} with both positions in `point`,
// {2, 0, 0} where it lies outside, or {0, number, 0} where it is refused.
#[unsafe(no_mangle)]
pub extern "C" fn lineage_window(
    x: u32,
    y: u32,
    a: u32,
    b: u32,
    m: u32,
    point: &mut [f64],
    reply: &mut [i64],
) -> bool
    ensures { Replied ((length point.old ≡ 2) × (length reply.old ≡ 3))
        (Says greatest x y a b m)
        (view_reply point.old) (Unit {0})
        (screen point.old reply.old) (screen point.new reply.new) result }
{
    if reply.len() != 3 {
        return false;
    }
    if point.len() != 2 {
        return false;
    }
    let answer = window::window(x, y, a, b, m);
    put_view(point, reply, answer);
    true
}

// The number of lots that a tree file states, or 0 where it has fewer than 4 bytes: how long the lists must be that the
// reader is lent.
#[unsafe(no_mangle)]
pub extern "C" fn lineage_stated_nodes(bytes: &[u8]) -> u32
    ensures { result ≡ stated_or_zero bytes.now }
{
    treefile::stated_nodes(bytes)
}

// Reads a tree file: {1, n, 0}, or {0, number, node} where it is refused.
#[unsafe(no_mangle)]
pub extern "C" fn lineage_read_tree(
    bytes: &[u8],
    parent: &mut [u32],
    rank: &mut [u32],
    work: &mut [u32],
    reply: &mut [i64],
) -> bool
    ensures { Exported 3
        (Read large bytes.now parent.old rank.old work.old
        parent.new rank.new work.new)
        counted_reply
        ((parent.new ≡ parent.old) × (rank.new ≡ rank.old)
        × (work.new ≡ work.old))
        reply.old reply.new result }
{
    if reply.len() != 3 {
        return false;
    }
    let limits = Cabinet::Large.limits();
    let answer = treefile::read_tree(limits, bytes, parent, rank, work);
    put_counted(reply, answer);
    true
}

// Writes a tree file: {1, bytes, 0}, or {0, number, node} where it is refused.
#[unsafe(no_mangle)]
pub extern "C" fn lineage_write_tree(
    parent: &[u32],
    rank: &[u32],
    bytes: &mut [u8],
    work: &mut [u32],
    reply: &mut [i64],
) -> bool
    ensures { Exported 3
        (Wrote large parent.now rank.now bytes.old work.old
        bytes.new work.new)
        saved_reply
        ((bytes.new ≡ bytes.old) × (work.new ≡ work.old))
        reply.old reply.new result }
{
    if reply.len() != 3 {
        return false;
    }
    let limits = Cabinet::Large.limits();
    let answer = treefile::write_tree(limits, &Tree { parent, rank }, bytes, work);
    put_saved(reply, answer);
    true
}
