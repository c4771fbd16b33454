// A tree laid out, and a lent list of lengthen, shorten and hold calls made one after the other: what the claim says of
// every list of calls holds of what this function leaves.
#![tactic(auto)]

ghost use Rattle.std.specs.Prelude.{◌≡◌, length};
ghost use Rattle.table.specs.Table.{large};
ghost use Rattle.drawing.specs.Drawing.{sheet_of};
ghost use Rattle.drawing.specs.Lists.{written, SameLists};
ghost use Rattle.drawing.specs.Framed.{framed};
ghost use Rattle.claim.specs.Claim.{make, run};
ghost use Rattle.claim.specs.Replay.{call_of, calls_of, Replayed};

use drawing::{DrawingMut, Frame};
use faults::Refusal;
use slopes::Rule;
use table::{Cabinet, Tree};

// One call on a sheet.
#[derive(Clone, Copy)]
pub enum Step {
    Lengthen { lot: u32, count: u32 },
    Shorten { lot: u32, count: u32 },
    Hold { lot: u32, on: bool },
}

// Makes one call. A refused one changes nothing.
#[tactic(auto, unfolding(crate::specs::Claim::make, crate::specs::Replay::call_of))]
fn make_call(
    rule: Rule,
    tree: &Tree<'_>,
    drawing: &mut DrawingMut<'_>,
    held: &mut [u32],
    work: &mut [u32],
    step: Step,
)
    ensures made { sheet_of (written drawing.new) held.new
        ≡ (make large tree.now.parent.now tree.now.rank.now rule (sheet_of (written drawing.old) held.old)
        (call_of step (length work.old))).left }
    ensures lists { SameLists drawing.old drawing.new }
{
    let large = Cabinet::Large;
    match step {
        Step::Lengthen { lot, count } => {
            let _ = stretching::lengthen(large, rule, tree, drawing, held, work, lot, count);
        }
        Step::Shorten { lot, count } => {
            let _ = stretching::shorten(large, rule, tree, drawing, held, work, lot, count);
        }
        Step::Hold { lot, on } => {
            let _ = holding::hold(large, rule, tree, &drawing.read(), held, work, lot, on);
        }
    }
}

// Makes the calls in order.
fn make_calls(
    rule: Rule,
    tree: &Tree<'_>,
    drawing: &mut DrawingMut<'_>,
    held: &mut [u32],
    work: &mut [u32],
    steps: &[Step],
)
    ensures made { sheet_of (written drawing.new) held.new
        ≡ run large tree.now.parent.now tree.now.rank.now rule (sheet_of (written drawing.old) held.old)
        (calls_of steps.now (length work.old)) }
    ensures lists { SameLists drawing.old drawing.new }
{
    for step in steps {
        make_call(rule, tree, drawing, held, work, *step);
    }
}

// Lays the tree out and makes the calls; the reply is layout's. Where layout refuses, no call is made.
pub fn replay(
    rule: Rule,
    tree: &Tree<'_>,
    drawing: &mut DrawingMut<'_>,
    held: &mut [u32],
    work: &mut [u32],
    steps: &[Step],
) -> Result<Frame, Refusal>
    ensures replayed { Replayed large tree.now.parent.now tree.now.rank.now rule
        (sheet_of (written drawing.old) held.old) (length work.old) steps.now
        (sheet_of (written drawing.new) held.new) (framed result) }
    ensures lists { SameLists drawing.old drawing.new }
{
    let frame = drawing::layout(Cabinet::Large, rule, tree, drawing, held, work)?;
    make_calls(rule, tree, drawing, held, work, steps);
    Ok(frame)
}
