// Tree files.
#![tactic(auto)]

ghost use Rattle.std.specs.Prelude.{◌≡◌, ◌+◌, ◌*◌, ◌^◌, ◌≤◌, ◌<◌, length};
ghost use Rattle.laws.specs.Regions.{Only};
ghost use Rattle.table.specs.Counted.{counted};
ghost use Rattle.table.specs.Parts.{Copied};
ghost use Rattle.treefile.specs.Parts.{Opened, Tabled, WordPut, Encoded};
ghost use Rattle.treefile.specs.Saved.{saved};
ghost use Rattle.treefile.specs.TreeFile.{word_at, words, stated_or_zero, Read, Wrote};

use faults::{Fault, Refusal};
use table::{Limits, Tree};

// The number in the 4 bytes from i on, least byte first.
fn word(bytes: &[u8], i: usize) -> usize
    requires { i + 3 < length bytes.now }
    ensures { (result ≡ word_at bytes.now i) × (result < 2 ^ 32) }
{
    u32::from_le_bytes([bytes[i], bytes[i + 1], bytes[i + 2], bytes[i + 3]]) as usize
}

// The number of nodes that a tree file states, or 0 where it has fewer than 4 bytes.
pub fn stated_nodes(bytes: &[u8]) -> u32
    ensures { result ≡ stated_or_zero bytes.now }
{
    let size = bytes.len();
    if size < 4 {
        return 0;
    }
    word(bytes, 0) as u32
}

// Fills the list with the numbers in the bytes from a on.
fn decode(bytes: &[u8], a: usize, list: &mut [u32])
    requires { (a + 4 * length list.old ≤ length bytes.now) × (length list.old < 2 ^ 32) }
    ensures { list.new ≡ words bytes.now a (length list.old) }
{
    for (v, w) in list.iter_mut().enumerate() {
        *w = word(bytes, a + 4 * v) as u32;
    }
}

// Copies the list into the work list from a on, by a loop as `copy_out` does.
fn save(list: &[u32], work: &mut [u32], a: usize)
    requires { a + length list.now ≤ length work.old }
    ensures { Copied list.now work.new a
        × Only a (a + length list.now) work.old work.new }
{
    for (i, w) in list.iter().enumerate() {
        work[a + i] = *w;
    }
}

// Loads the file's table into the two lists, keeping what they held in the work list, and puts that back where the
// table is refused.
fn load(
    limits: Limits,
    bytes: &[u8],
    parent: &mut [u32],
    rank: &mut [u32],
    work: &mut [u32],
) -> Result<u32, Refusal>
    requires { Opened limits bytes.now parent.old rank.old work.old }
    ensures { Tabled bytes.now parent.old rank.old parent.new
        rank.new (counted result) }
{
    let n = parent.len();
    save(parent, work, 2 * n);
    save(rank, work, 3 * n);
    decode(bytes, 4, parent);
    decode(bytes, 4 + 4 * n, rank);
    let tree = Tree { parent, rank };
    if let Err(refusal) = tree.validate(limits, true, work) {
        table::copy_out(work, 2 * n, parent);
        table::copy_out(work, 3 * n, rank);
        return Err(refusal);
    }
    Ok(n as u32)
}

// Reads a tree file at the limits: refusals 16, 1, 2, 17, 3, then 4 to 7 on the file's table. The two lists are filled
// only when the table is accepted, and hold what they held otherwise.
pub fn read_tree(
    limits: Limits,
    bytes: &[u8],
    parent: &mut [u32],
    rank: &mut [u32],
    work: &mut [u32],
) -> Result<u32, Refusal>
    ensures { Read limits bytes.now parent.old rank.old work.old
        parent.new rank.new work.new (counted result) }
{
    if bytes.len() < 4 {
        return Err(Fault::FileTooShort.at(0));
    }
    let n = word(bytes, 0);
    let most = limits.nodes as usize;
    if n == 0 {
        return Err(Fault::NoLots.at(0));
    }
    if most < n {
        return Err(limits.many.at(0));
    }
    if bytes.len() != 4 + 8 * n {
        return Err(Fault::WrongFileLength.at(0));
    }
    if parent.len() != n {
        return Err(Fault::WrongLength.at(0));
    }
    if rank.len() != n {
        return Err(Fault::WrongLength.at(0));
    }
    if work.len() != 4 * n {
        return Err(Fault::WrongLength.at(0));
    }
    load(limits, bytes, parent, rank, work)
}

// Writes a number's 4 bytes from i on, least byte first.
fn put_word(bytes: &mut [u8], i: usize, w: u32)
    requires { i + 3 < length bytes.old }
    ensures { WordPut bytes.old bytes.new i w }
{
    bytes[i..i + 4].copy_from_slice(&w.to_le_bytes());
}

// Writes the list's numbers from a on.
fn encode(list: &[u32], bytes: &mut [u8], a: usize)
    requires { a + 4 * length list.now ≤ length bytes.old }
    ensures { Encoded list.now bytes.old bytes.new a }
{
    for (v, w) in list.iter().enumerate() {
        put_word(bytes, a + 4 * v, *w);
    }
}

// Writes the file of an accepted table at the limits: refusals 1 to 7, then 17 where the lent bytes are not 4 + 8n
// long. Nothing is written on a refusal.
pub fn write_tree(
    limits: Limits,
    tree: &Tree<'_>,
    bytes: &mut [u8],
    work: &mut [u32],
) -> Result<usize, Refusal>
    ensures { Wrote limits tree.now.parent.now tree.now.rank.now bytes.old work.old
        bytes.new work.new (saved result) }
{
    let n = tree.parent.len();
    tree.validate(limits, true, work)?;
    if bytes.len() != 4 + 8 * n {
        return Err(Fault::WrongFileLength.at(0));
    }
    put_word(bytes, 0, n as u32);
    encode(tree.parent, bytes, 4);
    encode(tree.rank, bytes, 4 + 4 * n);
    Ok(4 + 8 * n)
}
