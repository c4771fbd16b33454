// The walks to all balanced slopes of 1 to 16 levels, a line for each number of levels; the tallest trees of 1, 2, 4 and
// so on up to 65,536 nodes, and of one more; then large trees of several shapes under both rules: layout, a list of
// calls, columns and the check, with a line for each answer.
//
// Each line ends with its lists, each mixed into one number: the two of a table, three, or the four of a sheet. What is
// printed is compared with the output of tests/cases.py, which makes the same calls in plain Python.
#![tactic(auto)]

ghost use Rattle.std.specs.Prelude.{◌≤◌};

use arranging::Stopped;
use drawing::{Drawing, DrawingMut, Frame};
use faults::Refusal;
use monotone::Verdict;
use slopes::Rule;
use std::fmt;
use std::io::{self, ErrorKind};
use table::Cabinet;

#[derive(Clone, Copy)]
enum Shape {
    Chain,
    Star,
    Broom,
    Caterpillar,
    Random,
}

impl Shape {
    // The parent of the node after `before`, in a tree of n nodes: one of those up to `before`.
    fn parent(self, n: u32, before: u32, random: &mut Random) -> u32
        ensures { result ≤ before }
    {
        match self {
            Shape::Chain => before,
            Shape::Star => 0,
            Shape::Broom => before.min((n / 2).saturating_sub(1)),
            Shape::Caterpillar => before / 2 * 2,
            Shape::Random => random.up_to(before),
        }
    }
}

// The cabinet that makes all calls.
const LARGE: Cabinet = Cabinet::Large;

// A small linear congruential generator.
#[derive(Clone, Copy)]
struct Random(u64);

impl Random {
    // A number up to `most`.
    fn up_to(&mut self, most: u32) -> u32
        ensures { result ≤ most }
    {
        self.0 = (self.0 % 2147483648 * 1103515245 + 12345) % 2147483648;
        (self.0 / 256 % (u64::from(most) + 1)) as u32
    }
}

// A tree and a rule; whether the nodes are relabelled, so that parents come after their children.
#[derive(Clone, Copy)]
struct Case {
    shape: Shape,
    nodes: u32,
    relabelled: bool,
    rule: Rule,
}

impl fmt::Display for Case {
    fn fmt<W: fmt::Write>(&self, f: &mut fmt::Formatter<W>) -> fmt::Result {
        let nodes = self.nodes;
        let shape = self.shape as u32;
        let relabelled = u32::from(self.relabelled);
        let balanced = u32::from(matches!(self.rule, Rule::Balanced));
        write!(f, "{nodes} {shape} {relabelled} {balanced}")
    }
}

// Every shape at 4,096 nodes, which is the most that the check takes, and once more at another size: 65,536 is the most
// that the other calls take.
const TREES: [(Shape, u32); 10] = [
    (Shape::Chain, 4096),
    (Shape::Star, 4096),
    (Shape::Broom, 4096),
    (Shape::Caterpillar, 4096),
    (Shape::Random, 4096),
    (Shape::Chain, 65536),
    (Shape::Star, 4097),
    (Shape::Broom, 65536),
    (Shape::Caterpillar, 65537),
    (Shape::Random, 65536),
];

// A call on a sheet: a node, and by how much its edge is lengthened or shortened; or that it is held or freed.
#[derive(Clone, Copy)]
enum Call {
    Lengthen(u32, u32),
    Shorten(u32, u32),
    Hold(u32),
    Free(u32),
}

impl fmt::Display for Call {
    fn fmt<W: fmt::Write>(&self, f: &mut fmt::Formatter<W>) -> fmt::Result {
        match *self {
            Call::Shorten(node, count) => write!(f, "0 {node} {count}"),
            Call::Lengthen(node, count) => write!(f, "1 {node} {count}"),
            Call::Hold(node) => write!(f, "2 {node} 1"),
            Call::Free(node) => write!(f, "2 {node} 0"),
        }
    }
}

// What a line shows of a library's answer.
#[derive(Clone, Copy)]
struct Shown<T>(T);

// 0 and the refusal.
impl fmt::Display for Shown<Refusal> {
    fn fmt<W: fmt::Write>(&self, f: &mut fmt::Formatter<W>) -> fmt::Result {
        let number = self.0.fault.number();
        let lot = self.0.lot;
        write!(f, "0 {number} {lot}")
    }
}

// 1 and the frame, or the refusal.
impl fmt::Display for Shown<Result<Frame, Refusal>> {
    fn fmt<W: fmt::Write>(&self, f: &mut fmt::Formatter<W>) -> fmt::Result {
        match self.0 {
            Ok(Frame { width, height }) => write!(f, "1 {width} {height}"),
            Err(refusal) => write!(f, "{}", Shown(refusal)),
        }
    }
}

// 1, the frame and 0, or the refusal and its place.
impl fmt::Display for Shown<Result<Frame, Stopped>> {
    fn fmt<W: fmt::Write>(&self, f: &mut fmt::Formatter<W>) -> fmt::Result {
        match self.0 {
            Ok(Frame { width, height }) => write!(f, "1 {width} {height} 0"),
            Err(Stopped { refusal, place }) => write!(f, "{} {place}", Shown(refusal)),
        }
    }
}

// 1 and the count, 2 where no count brings the lot there, or the refusal.
impl fmt::Display for Shown<Result<Option<u32>, Refusal>> {
    fn fmt<W: fmt::Write>(&self, f: &mut fmt::Formatter<W>) -> fmt::Result {
        match self.0 {
            Ok(Some(count)) => write!(f, "1 {count} 0"),
            Ok(None) => write!(f, "2 0 0"),
            Err(refusal) => write!(f, "{}", Shown(refusal)),
        }
    }
}

// 2 for Monotone, 1 and the pair that turns, or the refusal.
impl fmt::Display for Shown<Verdict> {
    fn fmt<W: fmt::Write>(&self, f: &mut fmt::Formatter<W>) -> fmt::Result {
        match self.0 {
            Verdict::Monotone => write!(f, "2 0 0"),
            Verdict::Turns(u, v) => write!(f, "1 {u} {v}"),
            Verdict::Refused(number, lot) => write!(f, "0 {number} {lot}"),
        }
    }
}

// One more number mixed in.
fn mix(h: u32, a: u32) -> u32 {
    h.wrapping_mul(31).wrapping_add(a)
}

// The numbers of a list, in their order, as one number.
fn mixed(list: &[u32]) -> u32 {
    list.iter().fold(0, |h, a| mix(h, *a))
}

// The two lists of a tree, each mixed into one number.
impl fmt::Display for Shown<table::Tree<'_>> {
    fn fmt<W: fmt::Write>(&self, f: &mut fmt::Formatter<W>) -> fmt::Result {
        let parent = mixed(self.0.parent);
        let rank = mixed(self.0.rank);
        write!(f, "{parent} {rank}")
    }
}

// The number of a node in a list.
fn number_of(list: &[u32], node: u32) -> io::Result<u32> {
    list.get(node as usize)
        .copied()
        .ok_or(ErrorKind::InvalidInput.into())
}

// Puts a number at a node of a list.
fn set_number(list: &mut [u32], node: u32, number: u32) -> io::Result<()> {
    let Some(place) = list.get_mut(node as usize) else {
        return Err(ErrorKind::InvalidInput.into());
    };
    *place = number;
    Ok(())
}

// A coordinate of a node becomes that of the node before.
fn displace(places: &mut [u32], node: u32) -> io::Result<()> {
    let before = number_of(places, node.saturating_sub(1))?;
    set_number(places, node, before)
}

// The first n numbers of a list, or all where it has fewer.
fn first(list: &[u32], n: usize) -> &[u32] {
    &list[..n.min(list.len())]
}

// The same, lent to write.
fn first_mut(list: &mut [u32], n: usize) -> &mut [u32] {
    let most = n.min(list.len());
    &mut list[..most]
}

// A tree's parents and ranks: the first numbers of arrays that fit the largest tree. The program has fixed memory, and
// no heap.
#[derive(Drop)]
struct Tree {
    parent: [u32; 65537],
    rank: [u32; 65537],
}

impl Tree {
    // Makes the tree of a case: each node comes after the children that its parent has, which `used` counts.
    fn grow(&mut self, case: Case, used: &mut [u32]) -> io::Result<()> {
        let n = case.nodes;
        let name = |v: u32| { if case.relabelled && 0 < v { n - v } else { v } };
        self.parent.fill(0);
        self.rank.fill(0);
        used.fill(0);
        let mut random = Random(1);
        for v in 1..n {
            let child = name(v);
            let above = name(case.shape.parent(n, v - 1, &mut random));
            let rank = number_of(used, above)?;
            set_number(&mut self.parent, child, above)?;
            set_number(&mut self.rank, child, rank)?;
            set_number(used, above, rank.wrapping_add(1))?;
        }
        Ok(())
    }

    // The lists of n nodes, lent to read.
    fn lent(&self, n: usize) -> table::Tree<'_> {
        table::Tree {
            parent: first(&self.parent, n),
            rank: first(&self.rank, n),
        }
    }

    // Makes the tallest tree of so many nodes, on lists that are zeroed.
    fn make_tallest(&mut self, nodes: u32) -> Result<Frame, Refusal> {
        self.parent.fill(0);
        self.rank.fill(0);
        let n = nodes as usize;
        let parent = first_mut(&mut self.parent, n);
        let rank = first_mut(&mut self.rank, n);
        tallest::tallest(nodes, parent, rank)
    }
}

// A sheet of a tree under a rule, in arrays as the tree's. The work list is four times as long as the others.
#[derive(Drop)]
struct Sheet {
    rule: Rule,
    nodes: u32,
    tree: Tree,
    times: [u32; 65537],
    x: [u32; 65537],
    y: [u32; 65537],
    held: [u32; 65537],
    work: [u32; 262148],
}

// The library's calls, each in one place.
impl Sheet {
    // Takes the tree and the rule of a case, and zeroes for its sheet.
    fn take(&mut self, case: Case) -> io::Result<()> {
        self.rule = case.rule;
        self.nodes = case.nodes;
        self.times.fill(0);
        self.x.fill(0);
        self.y.fill(0);
        self.held.fill(0);
        self.tree.grow(case, &mut self.work)
    }

    // The drawing, lent to read.
    fn drawing(&self) -> Drawing<'_> {
        let n = self.nodes as usize;
        Drawing {
            times: first(&self.times, n),
            x: first(&self.x, n),
            y: first(&self.y, n),
        }
    }

    // The middle node.
    fn middle(&self) -> u32 {
        self.nodes / 2
    }

    fn last(&self) -> u32 {
        self.nodes.saturating_sub(1)
    }

    // The fresh drawing.
    fn layout(&mut self) -> Result<Frame, Refusal> {
        let n = self.nodes as usize;
        let rule = self.rule;
        let tree = self.tree.lent(n);
        let mut drawing = DrawingMut {
            times: first_mut(&mut self.times, n),
            x: first_mut(&mut self.x, n),
            y: first_mut(&mut self.y, n),
        };
        let held = first_mut(&mut self.held, n);
        let work = first_mut(&mut self.work, 4 * n);
        drawing::layout(LARGE, rule, &tree, &mut drawing, held, work)
    }

    // Lengthens, shortens, holds or frees.
    fn make(&mut self, call: Call) -> Result<Frame, Refusal> {
        let n = self.nodes as usize;
        let rule = self.rule;
        let tree = self.tree.lent(n);
        let mut drawing = DrawingMut {
            times: first_mut(&mut self.times, n),
            x: first_mut(&mut self.x, n),
            y: first_mut(&mut self.y, n),
        };
        let held = first_mut(&mut self.held, n);
        let work = first_mut(&mut self.work, 4 * n);
        match call {
            Call::Lengthen(node, count) => {
                stretching::lengthen(LARGE, rule, &tree, &mut drawing, held, work, node, count)
            }
            Call::Shorten(node, count) => {
                stretching::shorten(LARGE, rule, &tree, &mut drawing, held, work, node, count)
            }
            Call::Hold(node) => {
                holding::hold(LARGE, rule, &tree, &drawing.read(), held, work, node, true)
            }
            Call::Free(node) => {
                holding::hold(LARGE, rule, &tree, &drawing.read(), held, work, node, false)
            }
        }
    }

    fn lengthen_each(&mut self, lots: &[u32], counts: &[u32]) -> Result<Frame, Stopped> {
        let n = self.nodes as usize;
        let rule = self.rule;
        let tree = self.tree.lent(n);
        let mut drawing = DrawingMut {
            times: first_mut(&mut self.times, n),
            x: first_mut(&mut self.x, n),
            y: first_mut(&mut self.y, n),
        };
        let held = first(&self.held, n);
        let work = first_mut(&mut self.work, 4 * n);
        arranging::lengthen_each(LARGE, rule, &tree, &mut drawing, held, work, lots, counts)
    }

    fn column(&mut self, lot: u32, column: u32) -> Result<Option<u32>, Refusal> {
        let n = self.nodes as usize;
        let rule = self.rule;
        let tree = self.tree.lent(n);
        let drawing = Drawing {
            times: first(&self.times, n),
            x: first(&self.x, n),
            y: first(&self.y, n),
        };
        let held = first(&self.held, n);
        let work = first_mut(&mut self.work, 4 * n);
        aligning::column(LARGE, rule, &tree, &drawing, held, work, lot, column)
    }

    fn check(&mut self) -> Verdict {
        let n = self.nodes as usize;
        let tree = self.tree.lent(n);
        let x = first(&self.x, n);
        let y = first(&self.y, n);
        let work = first_mut(&mut self.work, 4 * n);
        monotone::check(&tree, x, y, work)
    }
}

impl fmt::Display for Sheet {
    fn fmt<W: fmt::Write>(&self, f: &mut fmt::Formatter<W>) -> fmt::Result {
        let n = self.nodes as usize;
        let drawing = self.drawing();
        let times = mixed(drawing.times);
        let x = mixed(drawing.x);
        let y = mixed(drawing.y);
        let held = mixed(first(&self.held, n));
        write!(f, "{times} {x} {y} {held}")
    }
}

// What is made of a sheet, with a line for each answer.
impl Sheet {
    // One call, its answer and what it leaves.
    fn show_call(&mut self, rt: &HostRuntime, call: Call) -> io::Result<()> {
        let answer = Shown(self.make(call));
        println!(rt; "{call} {answer} {self}")
    }

    // Accepted calls, and refused ones beside them.
    fn show_calls(&mut self, rt: &HostRuntime) -> io::Result<()> {
        let n = self.nodes;
        let middle = self.middle();
        let last = self.last();
        let calls = [
            Call::Lengthen(middle, 1),
            Call::Lengthen(last, 1000),
            Call::Hold(middle),
            Call::Lengthen(middle, 0),
            Call::Shorten(middle, 1),
            Call::Lengthen(n / 4, 1),
            Call::Hold(0),
            Call::Free(n),
            Call::Free(middle),
            Call::Lengthen(1, 0),
            Call::Lengthen(0, 1),
            Call::Lengthen(n, 1),
            Call::Lengthen(middle, u32::MAX),
            Call::Shorten(middle, 2),
            Call::Shorten(middle, 1),
            Call::Shorten(last, 1001),
            Call::Shorten(last, 999),
            Call::Hold(last),
            Call::Lengthen(n / 3, 70000),
        ];
        for call in calls {
            self.show_call(rt, call)?;
        }
        Ok(())
    }

    // A list of lengthens in one call. The fourth is of a held edge, and so the fifth is not tried.
    fn show_arranged(&mut self, rt: &HostRuntime) -> io::Result<()> {
        let quarter = self.nodes / 4;
        let middle = self.middle();
        let last = self.last();
        let lots = [quarter, middle, quarter, last, middle];
        let answer = Shown(self.lengthen_each(&lots, &[1, 10, 2, 1, 1]));
        println!(rt; "{answer} {self}")
    }

    // Columns that a count reaches, some that none does, and refused ones, each with the sheet, in which nothing has
    // moved. The last lot is held. 2520 is a multiple of every number up to 10, and so often of the slope's across
    // part.
    fn show_columns(&mut self, rt: &HostRuntime) -> io::Result<()> {
        let n = self.nodes;
        let middle = self.middle();
        let last = self.last();
        let a = number_of(&self.x, middle)?;
        let b = number_of(&self.x, last)?;
        let columns = [
            (middle, a),
            (middle, a.wrapping_add(1)),
            (middle, a.wrapping_add(2520)),
            (middle, a.wrapping_sub(1)),
            (middle, 2147483647),
            (middle, 2147483648),
            (last, b),
            (0, 0),
            (n, 0),
        ];
        for (lot, column) in columns {
            let answer = Shown(self.column(lot, column));
            println!(rt; "{lot} {column} {answer} {self}")?;
        }
        Ok(())
    }

    // Lengthens the edge of the middle node by 2^31, 2^30, .., 1, each where it fits: afterwards not even 1 does.
    fn reach(&mut self, rt: &HostRuntime) -> io::Result<()> {
        let middle = self.middle();
        for k in (0..32u32).rev() {
            let _ = self.make(Call::Lengthen(middle, 1 << k));
        }
        self.show_call(rt, Call::Lengthen(middle, 1))
    }

    // The check's answer.
    fn judge(&mut self, rt: &HostRuntime) -> io::Result<()> {
        let answer = Shown(self.check());
        let n = self.nodes as usize;
        let tree = self.tree.lent(n);
        let drawing = self.drawing();
        let parent = mixed(tree.parent);
        let x = mixed(drawing.x);
        let y = mixed(drawing.y);
        println!(rt; "{answer} {parent} {x} {y}")
    }

    // The check of the drawing, and of the one whose middle node stands where the node before it does.
    fn judge_twice(&mut self, rt: &HostRuntime) -> io::Result<()> {
        let middle = self.middle();
        self.judge(rt)?;
        displace(&mut self.x, middle)?;
        displace(&mut self.y, middle)?;
        self.judge(rt)
    }
}

// The tree of the case is drawn, stretched and checked.
fn show_case(rt: &HostRuntime, sheet: &mut Sheet, case: Case) -> io::Result<()> {
    sheet.take(case)?;
    let answer = Shown(sheet.layout());
    println!(rt; "{case} {answer} {sheet}")?;
    sheet.show_calls(rt)?;
    sheet.show_arranged(rt)?;
    sheet.show_columns(rt)?;
    sheet.reach(rt)?;
    sheet.judge_twice(rt)
}

// Each tree with and without new numbers for the nodes, under both rules.
fn show_cases(rt: &HostRuntime, sheet: &mut Sheet) -> io::Result<()> {
    for (shape, nodes) in TREES {
        for relabelled in [false, true] {
            for rule in [Rule::Steep, Rule::Balanced] {
                let case = Case {
                    shape,
                    nodes,
                    relabelled,
                    rule,
                };
                show_case(rt, sheet, case)?;
            }
        }
    }
    Ok(())
}

// The tallest tree of n nodes.
fn show_tallest(rt: &HostRuntime, tree: &mut Tree, n: u32) -> io::Result<()> {
    let answer = Shown(tree.make_tallest(n));
    let lists = Shown(tree.lent(n as usize));
    println!(rt; "{n} {answer} {lists}")
}

// 1, 2, 4 and so on up to 65,536 nodes, and one more.
fn show_tallest_trees(rt: &HostRuntime, tree: &mut Tree) -> io::Result<()> {
    for k in 0..17u32 {
        show_tallest(rt, tree, 1 << k)?;
    }
    show_tallest(rt, tree, 65537)
}

// The walks to the slopes of k levels, in order: k, then the across parts, the up parts and the numbers of turns.
fn show_walks(rt: &HostRuntime, k: u32) -> io::Result<()>
    requires { k ≤ 16 }
{
    let mut across = 0;
    let mut up = 0;
    let mut turns = 0;
    for j in 1..1 << k {
        let walked = slopes::walk_to(k, j);
        across = mix(across, walked.slope.across);
        up = mix(up, walked.slope.up);
        turns = mix(turns, walked.turns);
    }
    println!(rt; "{k} {across} {up} {turns}")
}

// The walks in 1 to 16 levels, which are all that 65,536 lots need.
fn show_all_walks(rt: &HostRuntime) -> io::Result<()> {
    for k in 1..17 {
        show_walks(rt, k)?;
    }
    Ok(())
}

fn main(rt: HostRuntime) -> io::Result<()> {
    show_all_walks(&rt)?;
    let mut sheet = Sheet {
        rule: Rule::Steep,
        nodes: 0,
        tree: Tree {
            parent: [0; 65537],
            rank: [0; 65537],
        },
        times: [0; 65537],
        x: [0; 65537],
        y: [0; 65537],
        held: [0; 65537],
        work: [0; 262148],
    };
    show_tallest_trees(&rt, &mut sheet.tree)?;
    show_cases(&rt, &mut sheet)
}
