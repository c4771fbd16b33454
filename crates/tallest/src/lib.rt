// The tallest sheet (document 02, request 113).
#![tactic(auto)]

ghost use Rattle.std.specs.Prelude.{◌≡◌, ◌^◌, ◌<◌, length};
ghost use Rattle.table.specs.Table.{large};
ghost use Rattle.tallest.specs.Tallest.{lists, chain_of, Fills};
ghost use Rattle.drawing.specs.Drawing.{to_write};
ghost use Rattle.drawing.specs.Framed.{framed};

use drawing::Frame;
use faults::{Fault, Refusal};
use table::{Cabinet, both_long, clear, put};

// Hangs each node from 1 up on the one before it, and the root on itself.
fn hang_each(parent: &mut [u32])
    requires { (0 < length parent.old) × (length parent.old < 2 ^ 32) }
    ensures { parent.new ≡ (chain_of (length parent.old)).parents }
{
    put(parent, 0, 0);
    for v in 1..parent.len() {
        put(parent, v, v - 1);
    }
}

// Gives each node the rank of an only child.
fn rank_each(rank: &mut [u32])
    ensures { rank.new ≡ (chain_of (length rank.old)).ranks }
{
    let n = rank.len();
    clear(rank, 0, n);
}

// Fills the lists with the table of n nodes whose fresh steep sheet is the tallest, each node v from 1 up with parent
// v - 1, and returns that sheet's frame; refuses an n of 0 or above 65,536 and lists that are not n long, and then
// leaves them as they were.
pub fn tallest(n: u32, parent: &mut [u32], rank: &mut [u32]) -> Result<Frame, Refusal>
    ensures { Fills large n (lists (to_write parent) (to_write rank)) (framed result) }
{
    let limits = Cabinet::Large.limits();
    let most = limits.nodes;
    let long = both_long(n as usize, parent, rank);
    if n == 0 {
        return Err(Fault::NoLots.at(0));
    }
    if most < n {
        return Err(limits.many.at(0));
    }
    if !long {
        return Err(Fault::WrongLength.at(0));
    }
    hang_each(parent);
    rank_each(rank);
    let height = n * (n - 1) / 2 + 1;
    Ok(Frame { width: n, height })
}
