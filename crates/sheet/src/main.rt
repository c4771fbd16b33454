// Reads a tree file from standard input and prints the sheet that document 01 asks for, or the refusal.
//
// One byte more than the longest accepted file is read: what follows does not change the text (`cut_same`). The exit
// status says nothing of a failure: where the input cannot be read or the text cannot be written, a line on standard
// error says so, and no refusal is printed for a file that was not read. Where nobody reads any more, nothing is said,
// and the status is that of a program that the signal stops.
#![tactic(auto)]

ghost use Rattle.std.specs.Prelude.{◌≤◌, length, IfOk};

use sheetfile::{Room, sheet_text};
use std::io::{self, ErrorKind, Read, Write};
use std::process::ExitCode;

const MOST: usize = 32773;

// The status that a shell gives a program that was stopped because nobody reads its output any more.
const CLOSED: u8 = 141;

// Reads until the buffer is full or the input ends, and returns how many bytes came.
fn read_full<R: Read>(input: &mut R, bytes: &mut [u8]) -> io::Result<usize>
    ensures { IfOk result (λ m. m ≤ length bytes.new) }
{
    let mut m = 0;
    // It goes on by as many bytes as came, and counts no index.
    while m < bytes.len() {
        let k = input.read(&mut bytes[m..])?;
        if k == 0 {
            return Ok(m);
        }
        m += k;
    }
    Ok(m)
}

fn main(rt: HostRuntime) -> ExitCode {
    let mut bytes = [0u8; MOST];
    let Ok(m) = read_full(&mut rt.stdin(), &mut bytes) else {
        let _ = eprintln!(rt; "sheet: standard input cannot be read");
        return ExitCode::SUCCESS;
    };
    let mut parent = [0u32; 4096];
    let mut rank = [0u32; 4096];
    let mut times = [0u32; 4096];
    let mut x = [0u32; 4096];
    let mut y = [0u32; 4096];
    let mut u = [0u32; 4096];
    let mut w = [0u32; 4096];
    let mut held = [0u32; 4096];
    let mut work = [0u32; 16384];
    let mut out = [0u8; 225310];
    let room = Room {
        parent: &mut parent,
        rank: &mut rank,
        times: &mut times,
        x: &mut x,
        y: &mut y,
        u: &mut u,
        w: &mut w,
        held: &mut held,
        work: &mut work,
    };
    let k = sheet_text(&bytes[..m], room, &mut out);
    let Err(error) = rt.stdout().write_all(&out[..k]) else {
        return ExitCode::SUCCESS;
    };
    if error.kind() == ErrorKind::BrokenPipe {
        return ExitCode::from(CLOSED);
    }
    let _ = eprintln!(rt; "sheet: standard output cannot be written");
    ExitCode::SUCCESS
}
