// Tree tables: their tests and their numbering.
ghost use Rattle.std.specs.Prelude.{◌≡◌, ◌+◌, ◌*◌, ◌<◌, length};
ghost use Rattle.laws.specs.Regions.{Only};
ghost use Rattle.laws.specs.Search.{refuse_least};
ghost use Rattle.table.specs.Acceptance.{validity};
ghost use Rattle.table.specs.Validity.{valid};
ghost use Rattle.table.specs.Table.{post_number, bad_rank, shape_fault};
ghost use Rattle.table.specs.Parts.{Scratch, Zeroed, Started, Seating, Occupied, Lengths, Rooted, Structured};
ghost use Rattle.table.specs.Parts.{Validated, Ready, Seated, Leftmost, Next, Visited, Prepared};
ghost use Rattle.table.specs.Numbering.{Numbered};

use crate::{Limits, clear, get, put, starts, test_parents, test_paths};
use faults::{Fault, Refusal};

// A tree table: each node's parent, and its rank among its siblings.
#[derive(Clone, Copy)]
pub struct Tree<'a> {
    pub parent: &'a [u32],
    pub rank: &'a [u32],
}

impl Tree<'_> {
    // Counts v in the slot of its rank, if its parent has so many children.
    fn seat(&self, work: &mut [u32], v: usize)
        requires { Seating self.now.parent.now self.now.rank.now work.old v × (v < length self.now.parent.now) }
        ensures { Seating self.now.parent.now self.now.rank.now work.new (v + 1)
            × Only (length self.now.parent.now + 1) (2 * length self.now.parent.now) work.old
            work.new }
    {
        let n = self.parent.len();
        let p = get(self.parent, v);
        let r = get(self.rank, v);
        let s = get(work, p) + r;
        let e = get(work, p + 1);
        if e <= s {
            return;
        }
        let o = get(work, n + 1 + s);
        put(work, n + 1 + s, o + 1);
    }

    // Counts the nodes in each slot.
    fn occupy(&self, work: &mut [u32])
        requires scratch { Scratch self.now.parent.now work.old
            × (length self.now.rank.now ≡ length self.now.parent.now) }
        requires started { Started self.now.parent.now work.old
            × Zeroed (length self.now.parent.now + 1) (2 * length self.now.parent.now) work.old }
        ensures { Occupied self.now.parent.now self.now.rank.now work.new
            × Only (length self.now.parent.now + 1) (2 * length self.now.parent.now) work.old
            work.new }
    {
        // The lists of a copy are read once; those behind `self` would be read again after each write.
        let tree = *self;
        let n = tree.parent.len();
        for v in 1..n {
            tree.seat(work, v);
        }
    }

    // Refusal 6, of the smallest node to which it applies.
    fn test_ranks(&self, work: &[u32]) -> Result<(), Refusal>
        requires scratch { Scratch self.now.parent.now work.now
            × (length self.now.rank.now ≡ length self.now.parent.now) }
        requires started { Started self.now.parent.now work.now
            × Occupied self.now.parent.now self.now.rank.now work.now }
        ensures { valid result ≡ validity (refuse_least 6 (length self.now.parent.now)
            (bad_rank self.now.parent.now self.now.rank.now)) }
    {
        let n = self.parent.len();
        for v in 1..n {
            let p = get(self.parent, v);
            let r = get(self.rank, v);
            let s = get(work, p) + r;
            if get(work, p + 1) <= s {
                return Err(Fault::WrongRank.at(v));
            }
            if 1 < get(work, n + 1 + s) {
                return Err(Fault::WrongRank.at(v));
            }
        }
        Ok(())
    }

    // Refusals 5 to 7.
    fn structure(&self, work: &mut [u32]) -> Result<(), Refusal>
        requires { Rooted self.now.parent.now self.now.rank.now work.old }
        ensures { Structured self.now.parent.now self.now.rank.now work.old work.new (valid result) }
    {
        let n = self.parent.len();
        test_parents(self.parent)?;
        starts(self.parent, work);
        self.occupy(work);
        self.test_ranks(work)?;
        clear(work, n + 1, 2 * n);
        test_paths(self.parent, work)
    }

    // Refusals 1 to 3 at the limits, where `long` says that the lists lent besides are as long as the parent list.
    pub fn test_lengths(&self, limits: Limits, long: bool, work: &[u32]) -> Result<(), Refusal>
        ensures { valid result ≡ validity (shape_fault limits self.now.parent.now self.now.rank.now long
            (length work.now)) }
    {
        let n = self.parent.len();
        let most = limits.nodes as usize;
        if n == 0 {
            return Err(Fault::NoLots.at(0));
        }
        if most < n {
            return Err(limits.many.at(0));
        }
        if self.rank.len() != n {
            return Err(Fault::WrongLength.at(0));
        }
        if !long {
            return Err(Fault::WrongLength.at(0));
        }
        if work.len() != 4 * n {
            return Err(Fault::WrongLength.at(0));
        }
        Ok(())
    }

    // Refusals 4 to 7. Only the first 2n numbers of the work list change.
    pub fn test_tree(&self, work: &mut [u32]) -> Result<(), Refusal>
        requires { Lengths self.now.parent.now self.now.rank.now work.old }
        ensures { Structured self.now.parent.now self.now.rank.now work.old work.new (valid result) }
    {
        if get(self.parent, 0) != 0 {
            return Err(Fault::WrongRoot.at(0));
        }
        if get(self.rank, 0) != 0 {
            return Err(Fault::WrongRoot.at(0));
        }
        self.structure(work)
    }

    // Refusals 1 to 7. Only the first 2n numbers of the work list change, and none on a refusal before 4.
    pub fn validate(&self, limits: Limits, long: bool, work: &mut [u32]) -> Result<(), Refusal>
        ensures { Validated limits self.now.parent.now self.now.rank.now long work.old
            work.new (valid result) }
    {
        self.test_lengths(limits, long, work)?;
        self.test_tree(work)
    }

    // Puts each node into its slot.
    fn fill(&self, work: &mut [u32])
        requires { Ready self.now.parent.now self.now.rank.now work.old }
        ensures { Seated self.now.parent.now self.now.rank.now work.new }
    {
        // The lists of a copy are read once; those behind `self` would be read again after each write.
        let tree = *self;
        let n = tree.parent.len();
        for v in 1..n {
            let p = get(tree.parent, v);
            let r = get(tree.rank, v);
            let s = get(work, p) + r;
            put(work, n + 1 + s, v);
        }
    }

    // The node that comes first in v's subtree: by first children down to a leaf.
    fn leaf(&self, work: &[u32], v: usize) -> usize
        requires { Seated self.now.parent.now self.now.rank.now work.now × (v < length self.now.parent.now) }
        ensures { Leftmost self.now.parent.now self.now.rank.now v result }
    {
        let n = self.parent.len();
        let mut u = v;
        let mut s = get(work, u);
        // This walk down the tree counts nothing: how many steps lead to a leaf is not known before.
        while s < get(work, u + 1) {
            u = get(work, n + 1 + s);
            s = get(work, u);
        }
        u
    }

    // The node that comes after v: the first in the next sibling's subtree, or the parent after the last sibling.
    fn next(&self, work: &[u32], v: usize) -> usize
        requires { Seated self.now.parent.now self.now.rank.now work.now × (0 < v) × (v < length self.now.parent.now) }
        ensures { Next self.now.parent.now self.now.rank.now v result }
    {
        let n = self.parent.len();
        let p = get(self.parent, v);
        let r = get(self.rank, v);
        let s = get(work, p) + r + 1;
        if get(work, p + 1) <= s {
            return p;
        }
        let u = get(work, n + 1 + s);
        self.leaf(work, u)
    }

    // Notes v as number c + 1, with its subtree's first number: its first child's, or its own at a leaf.
    fn visit(&self, work: &mut [u32], v: usize, c: usize)
        requires { Visited self.now.parent.now self.now.rank.now work.old c × (v < length self.now.parent.now)
            × (post_number self.now.parent.now self.now.rank.now v ≡ c + 1) }
        ensures { Visited self.now.parent.now self.now.rank.now work.new (c + 1) }
    {
        let n = self.parent.len();
        put(work, 3 * n + c, v);
        let s = get(work, v);
        if get(work, v + 1) <= s {
            put(work, 2 * n + v, c + 1);
            return;
        }
        let u = get(work, n + 1 + s);
        let f = get(work, 2 * n + u);
        put(work, 2 * n + v, f);
    }

    // Visits every node in post-order.
    fn walk(&self, work: &mut [u32])
        requires { Seated self.now.parent.now self.now.rank.now work.old }
        ensures { Visited self.now.parent.now self.now.rank.now work.new
            (length self.now.parent.now) }
    {
        // The lists of a copy are read once; those behind `self` would be read again after each write.
        let tree = *self;
        let n = tree.parent.len();
        let mut v = tree.leaf(work, 0);
        for c in 0..n - 1 {
            tree.visit(work, v, c);
            v = tree.next(work, v);
        }
        tree.visit(work, v, n - 1);
    }

    // The post number of each node, from the order.
    fn invert(&self, work: &mut [u32])
        requires { Visited self.now.parent.now self.now.rank.now work.old (length self.now.parent.now) }
        ensures { Numbered self.now.parent.now self.now.rank.now work.new }
    {
        let n = self.parent.len();
        for j in 0..n {
            let v = get(work, 3 * n + j);
            put(work, v, j + 1);
        }
    }

    // Numbers an accepted table, on the work list that `validate` left.
    pub fn number(&self, work: &mut [u32])
        requires { Ready self.now.parent.now self.now.rank.now work.old }
        ensures { Numbered self.now.parent.now self.now.rank.now work.new }
    {
        self.fill(work);
        self.walk(work);
        self.invert(work);
    }

    // Refusals 1 to 7; an accepted table is numbered.
    pub fn prepare(&self, limits: Limits, long: bool, work: &mut [u32]) -> Result<(), Refusal>
        ensures { Prepared limits self.now.parent.now self.now.rank.now long work.old
            work.new (valid result) }
    {
        self.validate(limits, long, work)?;
        self.number(work);
        Ok(())
    }
}
