// The call that says by what count a lot comes to a column (document 02, request 110).
#![tactic(auto)]

ghost use Rattle.std.specs.Prelude.{length};
ghost use Rattle.table.specs.Table.{limits_of};
ghost use Rattle.drawing.specs.Drawing.{sheet_of};
ghost use Rattle.drawing.specs.Lists.{read};
ghost use Rattle.stretching.specs.Calls.{Examined};
ghost use Rattle.aligning.specs.Aligned.{told, aligned};
ghost use Rattle.aligning.specs.Aligning.{Says, Aligns};

use drawing::Drawing;
use faults::Refusal;
use slopes::{Rule, edge_slope};
use stretching::{examine, too_far};
use table::{Cabinet, Limits, Numbered, Tree, get};

// The count for a lot that 1 to 10 accept, on a numbered table.
fn count_to(
    limits: Limits,
    rule: Rule,
    tree: &Numbered<'_>,
    drawing: &Drawing<'_>,
    held: &[u32],
    v: usize,
    column: u32,
) -> Option<u32>
    requires { Examined limits tree.now.parent.now tree.now.rank.now rule
        (sheet_of (read drawing.now) held.now) (length tree.now.work.now) v }
    ensures { Says limits tree.now.parent.now tree.now.rank.now rule
        (sheet_of (read drawing.now) held.now) (length tree.now.work.now) v column (told result) }
{
    if get(held, v) == 1 {
        return None;
    }
    let place = get(drawing.x, v);
    let goal = column as usize;
    if goal < place {
        return None;
    }
    let gap = goal - place;
    let slope = edge_slope(rule, tree, v);
    let across = slope.across as usize;
    let whole = gap / across;
    if whole * across != gap {
        return None;
    }
    let count = whole as u32;
    let limit = limits.place as usize;
    let far = too_far(limit, rule, tree, drawing, v, slope, count);
    if far {
        return None;
    }
    Some(count)
}

// Column at any limits.
pub fn column_within(
    limits: Limits,
    rule: Rule,
    tree: &Tree<'_>,
    drawing: &Drawing<'_>,
    held: &[u32],
    work: &mut [u32],
    lot: u32,
    column: u32,
) -> Result<Option<u32>, Refusal>
    ensures { Aligns limits tree.now.parent.now tree.now.rank.now rule
        (sheet_of (read drawing.now) held.now)
        work.old work.new lot column (aligned result) }
{
    // No `?` hands it on, in which the edit `refusal_turned` could turn nothing.
    if let Err(refusal) = examine(limits, rule, tree, drawing, held, work, lot) {
        return Err(refusal);
    }
    let v = lot as usize;
    let numbered = Numbered {
        parent: tree.parent,
        rank: tree.rank,
        work,
    };
    Ok(count_to(limits, rule, &numbered, drawing, held, v, column))
}

// The count by which lengthen brings `lot` to a column, or none where no count does; nothing is moved. The work list
// takes the table's post numbers; refusals 1, 2 and 3 leave it alone.
pub fn column(
    cabinet: Cabinet,
    rule: Rule,
    tree: &Tree<'_>,
    drawing: &Drawing<'_>,
    held: &[u32],
    work: &mut [u32],
    lot: u32,
    column: u32,
) -> Result<Option<u32>, Refusal>
    ensures { Aligns (limits_of cabinet) tree.now.parent.now tree.now.rank.now rule
        (sheet_of (read drawing.now) held.now)
        work.old work.new lot column (aligned result) }
{
    let limits = cabinet.limits();
    column_within(limits, rule, tree, drawing, held, work, lot, column)
}
