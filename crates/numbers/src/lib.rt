// The post numbers under each node (document 02, request 107).
#![tactic(auto)]

ghost use Rattle.table.specs.Counted.{counted};
ghost use Rattle.table.specs.Table.{large};
ghost use Rattle.numbers.specs.PostNumbers.{spans, Spanned};

use faults::Refusal;
use table::{Cabinet, Tree, both_long, copy_out};

// Fills the lists with the first and the last post number in each node's subtree; refuses a table to which one of 1 to
// 7 applies, and then leaves both as they were. The work list takes the numbering; refusals 1, 2 and 3 leave it alone.
pub fn post_numbers(
    tree: &Tree<'_>,
    first: &mut [u32],
    last: &mut [u32],
    work: &mut [u32],
) -> Result<u32, Refusal>
    ensures { Spanned large tree.now.parent.now tree.now.rank.now
        (spans first.old last.old) work.old
        (spans first.new last.new) work.new (counted result) }
{
    let n = tree.parent.len();
    let long = both_long(n, first, last);
    tree.prepare(Cabinet::Large.limits(), long, work)?;
    copy_out(work, 2 * n, first);
    copy_out(work, 0, last);
    Ok(n as u32)
}
