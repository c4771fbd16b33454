// The call that holds an edge or frees it (document 02, request 108).
#![tactic(auto)]

ghost use Rattle.std.specs.Prelude.{◌≡◌, ◌<◌, length, set};
ghost use Rattle.table.specs.Table.{limits_of};
ghost use Rattle.drawing.specs.Drawing.{Does, to_write};
ghost use Rattle.drawing.specs.Lists.{parents, ranks, sheet_read};
ghost use Rattle.drawing.specs.Framed.{framed};
ghost use Rattle.drawing.specs.Parts.{FramesFit};
ghost use Rattle.holding.specs.Holding.{entry, hold};

use drawing::{Drawing, Frame};
use faults::Refusal;
use slopes::Rule;
use stretching::examine;
use table::{Cabinet, Limits, Tree, put};

// Sets or clears the entry of v.
fn mark(held: &mut [u32], v: usize, on: bool)
    requires { v < length held.old }
    ensures { held.new ≡ set held.old v (entry on) }
{
    if on {
        put(held, v, 1);
    } else {
        put(held, v, 0);
    }
}

// Hold at any limits whose frames are numbers of 32 bits.
pub fn hold_within(
    limits: Limits,
    rule: Rule,
    tree: &Tree<'_>,
    drawing: &Drawing<'_>,
    held: &mut [u32],
    work: &mut [u32],
    lot: u32,
    on: bool,
) -> Result<Frame, Refusal>
    requires { FramesFit limits }
    ensures { Does limits (parents tree) (ranks tree) (sheet_read drawing (to_write held)) (to_write work)
        (λ P R s m. hold limits P R rule s m lot on) (framed result) }
{
    examine(limits, rule, tree, drawing, held, work, lot)?;
    mark(held, lot as usize, on);
    Ok(drawing.frame())
}

// Holds the edge of `lot`, so that it keeps its length, or frees it, and returns the frame; on a refusal the sheet
// stays as it was. An edge that is held may be held again, and a free one freed.
pub fn hold(
    cabinet: Cabinet,
    rule: Rule,
    tree: &Tree<'_>,
    drawing: &Drawing<'_>,
    held: &mut [u32],
    work: &mut [u32],
    lot: u32,
    on: bool,
) -> Result<Frame, Refusal>
    ensures { Does (limits_of cabinet) (parents tree) (ranks tree) (sheet_read drawing (to_write held)) (to_write work)
        (λ P R s m. hold (limits_of cabinet) P R rule s m lot on) (framed result) }
{
    hold_within(cabinet.limits(), rule, tree, drawing, held, work, lot, on)
}
