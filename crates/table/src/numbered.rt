// A numbered tree table.
ghost use Rattle.std.specs.Prelude.{◌<◌, length};
ghost use Rattle.table.specs.Numbering.{NumberedTree, Numbers};

use crate::get;

// A tree table with its numbering, as `prepare` leaves it in the work list.
#[derive(Clone, Copy)]
pub struct Numbered<'a> {
    pub parent: &'a [u32],
    pub rank: &'a [u32],
    pub work: &'a [u32],
    pub ghost tree: { NumberedTree parent.now rank.now work.now },
}

impl Numbered<'_> {
    // The node with number j, other than the root.
    pub fn node_at(&self, j: usize) -> usize
        requires { (0 < j) × (j < length self.now.parent.now) }
        ensures { Numbers self.now.parent.now self.now.rank.now j result }
    {
        let n = self.parent.len();
        get(self.work, 3 * n + j - 1)
    }
}
