// A list of lengthens in one call (document 02, request 105).
#![tactic(auto)]

ghost use Rattle.std.specs.Prelude.{◌≡◌, length};
ghost use Rattle.table.specs.Table.{limits_of};
ghost use Rattle.table.specs.Validity.{valid};
ghost use Rattle.drawing.specs.Drawing.{sheet_of, to_read, to_write};
ghost use Rattle.drawing.specs.Lists.{read, written, SameLists, parents, ranks, sheet_written};
ghost use Rattle.drawing.specs.Parts.{FramesFit};
ghost use Rattle.stretching.specs.Parts.{Opened};
ghost use Rattle.arranging.specs.Arranged.{arranged};
ghost use Rattle.arranging.specs.Arranging.{in_turn, Arranges};
ghost use Rattle.arranging.specs.Parts.{Listed};

use drawing::{Drawing, DrawingMut, Frame};
use faults::{Fault, Refusal};
use inspecting::inspect;
use slopes::Rule;
use stretching::lengthen_edge;
use table::{Cabinet, Limits, Numbered, Tree};

// A refusal, and the place in the lists of the lengthen that it stops, from 1: 0 where it stops them all.
#[derive(Clone, Copy)]
pub struct Stopped {
    pub refusal: Refusal,
    pub place: usize,
}

// A refusal of them all.
impl From<Refusal> for Stopped {
    ghost from_gives = { λ r s. s ≡ record { refusal = r; place = 0 } };

    fn from(refusal: Refusal) -> Stopped {
        Stopped { refusal, place: 0 }
    }
}

// Refusals 1 to 8, with 19 directly after 3; an accepted table is numbered.
fn inspect_lists(
    limits: Limits,
    rule: Rule,
    tree: &Tree<'_>,
    drawing: &Drawing<'_>,
    held: &[u32],
    work: &mut [u32],
    lots: &[u32],
    counts: &[u32],
) -> Result<(), Refusal>
    ensures { Listed limits tree.now.parent.now tree.now.rank.now rule (sheet_of (read drawing.now) held.now)
        work.old lots.now counts.now work.new (valid result) }
{
    if lots.len() == counts.len() {
        return inspect(limits, rule, tree, drawing, held, work);
    }
    let long = drawing.all_long(tree.parent.len(), held);
    tree.test_lengths(limits, long, work)?;
    Err(Fault::ListsDiffer.at(0))
}

// The lengthens of the lists, one after another up to the first refused one, on an accepted sheet whose table is
// numbered: each moves its subtree, and the frame is taken at the end.
fn lengthen_in_turn(
    limits: Limits,
    rule: Rule,
    tree: &Numbered<'_>,
    drawing: &mut DrawingMut<'_>,
    held: &[u32],
    lots: &[u32],
    counts: &[u32],
) -> Result<Frame, Stopped>
    requires { FramesFit limits × Opened limits tree.now.parent.now tree.now.rank.now rule
        (sheet_of (written drawing.old) held.now) tree.now.work.now
        × (length counts.now ≡ length lots.now) }
    ensures turns { record { answer = arranged result; left = sheet_of (written drawing.new) held.now }
        ≡ in_turn limits tree.now.parent.now tree.now.rank.now rule (length tree.now.work.now)
        (sheet_of (written drawing.old) held.now) 1 lots.now counts.now }
    ensures lists { SameLists drawing.old drawing.new }
{
    for (i, (lot, count)) in lots.iter().zip(counts).enumerate() {
        let done = lengthen_edge(limits, rule, tree, drawing, held, *lot, *count);
        if let Err(refusal) = done {
            let place = i + 1;
            return Err(Stopped { refusal, place });
        }
    }
    Ok(drawing.read().frame())
}

// Lengthen each at any limits whose frames are numbers of 32 bits.
pub fn lengthen_each_within(
    limits: Limits,
    rule: Rule,
    tree: &Tree<'_>,
    drawing: &mut DrawingMut<'_>,
    held: &[u32],
    work: &mut [u32],
    lots: &[u32],
    counts: &[u32],
) -> Result<Frame, Stopped>
    requires { FramesFit limits }
    ensures arranges { Arranges limits (parents tree) (ranks tree) rule (sheet_written drawing (to_read held))
        (to_write work) (to_read lots) (to_read counts) (arranged result) }
    ensures lists { SameLists drawing.old drawing.new }
{
    inspect_lists(
        limits,
        rule,
        tree,
        &drawing.read(),
        held,
        work,
        lots,
        counts,
    )?;
    let numbered = Numbered {
        parent: tree.parent,
        rank: tree.rank,
        work,
    };
    lengthen_in_turn(limits, rule, &numbered, drawing, held, lots, counts)
}

// Makes the edge of each lot in the list longer by its count, one after another, and returns the frame. The first that
// is refused ends the call: it changes nothing, those before it stand, and its place is counted from 1. Refusals up to
// 8, and 19, come before all and have place 0.
pub fn lengthen_each(
    cabinet: Cabinet,
    rule: Rule,
    tree: &Tree<'_>,
    drawing: &mut DrawingMut<'_>,
    held: &[u32],
    work: &mut [u32],
    lots: &[u32],
    counts: &[u32],
) -> Result<Frame, Stopped>
    ensures arranges { Arranges (limits_of cabinet) (parents tree) (ranks tree) rule
        (sheet_written drawing (to_read held))
        (to_write work) (to_read lots) (to_read counts) (arranged result) }
    ensures lists { SameLists drawing.old drawing.new }
{
    lengthen_each_within(
        cabinet.limits(),
        rule,
        tree,
        drawing,
        held,
        work,
        lots,
        counts,
    )
}
