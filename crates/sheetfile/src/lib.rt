// From a tree file's bytes to the text that the program `sheet` prints.
#![tactic(auto)]

ghost use Rattle.std.specs.Prelude.{◌≡◌, length};
ghost use Rattle.text.specs.Text.{Appended};
ghost use Rattle.sheetfile.specs.SheetFile.{lots_in, sheet_text, Ample};

use drawing::{DrawingMut, layout};
use slopes::Rule;
use table::{Cabinet, Tree, printed_limits};
use text::{put_refusal, put_sheet};
use treefile::read_tree;

// How many lots the file can hold, and at most 4,096.
fn lots_in(bytes: &[u8]) -> usize
    ensures { result ≡ lots_in (length bytes.now) }
{
    let n = bytes.len().saturating_sub(4) / 8;
    n.min(4096)
}

// Room to work in: lists for a tree, for its two drawings, and for the work. What they hold does not matter.
#[derive(Drop)]
pub struct Room<'a> {
    pub parent: &'a mut [u32],
    pub rank: &'a mut [u32],
    pub times: &'a mut [u32],
    pub x: &'a mut [u32],
    pub y: &'a mut [u32],
    pub u: &'a mut [u32],
    pub w: &'a mut [u32],
    pub held: &'a mut [u32],
    pub work: &'a mut [u32],
}

// Puts the text for the file at the start of `out` and returns its length. The lists may be longer than it
// needs.
pub fn sheet_text(bytes: &[u8], room: Room<'_>, out: &mut [u8]) -> usize
    requires { Ample bytes.now room out.old }
    ensures { Appended out.old out.new 0 result (sheet_text bytes.now) }
{
    let n = lots_in(bytes);
    let Room {
        parent,
        rank,
        times,
        x,
        y,
        u,
        w,
        held,
        work,
    } = room;
    let parent = &mut parent[..n];
    let rank = &mut rank[..n];
    let times = &mut times[..n];
    let x = &mut x[..n];
    let y = &mut y[..n];
    let u = &mut u[..n];
    let w = &mut w[..n];
    let held = &mut held[..n];
    let work = &mut work[..4 * n];
    let limits = printed_limits();
    if let Err(refusal) = read_tree(limits, bytes, parent, rank, work) {
        return put_refusal(out, refusal.fault.number(), refusal.lot);
    }
    let tree = Tree { parent, rank };
    let mut steep = DrawingMut { times, x, y };
    let large = Cabinet::Large;
    let _ = layout(large, Rule::Steep, &tree, &mut steep, held, work);
    let DrawingMut { times, x, y } = steep;
    let mut balanced = DrawingMut { times, x: u, y: w };
    let _ = layout(large, Rule::Balanced, &tree, &mut balanced, held, work);
    let balanced = balanced.read();
    put_sheet(out, x, y, balanced.x, balanced.y)
}
