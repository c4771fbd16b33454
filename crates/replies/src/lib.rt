// Answers as the numbers of the C interface's replies, three, or four for a list of lengthens, and as the two positions
// of a point. include/lineage.h says what they mean.
#![tactic(auto)]

ghost use Rattle.std.specs.Prelude.{[], ◌∷◌, ◌≡◌, ◌^◌, ◌<◌, pos, length};
ghost use Rattle.faults.specs.Numbers.{number};
ghost use Rattle.table.specs.Counted.{counted};
ghost use Rattle.drawing.specs.Framed.{framed};
ghost use Rattle.arranging.specs.Arranged.{arranged};
ghost use Rattle.aligning.specs.Aligned.{aligned};
ghost use Rattle.direction.specs.Heading.{heading};
ghost use Rattle.treefile.specs.Saved.{saved};
ghost use Rattle.replies.specs.Replies.{three, refused_reply, counted_reply, framed_reply, heading_reply};
ghost use Rattle.replies.specs.Replies.{verdict_reply, saved_reply};
ghost use Rattle.replies.specs.Replies.{four, arranged_reply, aligned_reply, screen, view_reply};
ghost use Rattle.replies.specs.Replies.{Short, Near};

use arranging::Stopped;
use direction::Along;
use drawing::Frame;
use faults::Refusal;
use monotone::Verdict;
use window::{Point, View};

// Writes the reply.
fn put_three(reply: &mut [i64], a: i64, b: i64, c: i64)
    requires { length reply.old ≡ 3 }
    ensures { reply.new ≡ three a b c }
{
    reply[0] = a;
    reply[1] = b;
    reply[2] = c;
}

// Writes a reply of numbers without a sign.
fn put_numbers(reply: &mut [i64], a: u32, b: u32, c: u32)
    requires { length reply.old ≡ 3 }
    ensures { reply.new ≡ three (pos a) (pos b) (pos c) }
{
    put_three(reply, a as i64, b as i64, c as i64);
}

// Writes the reply of a direction.
fn put_along(reply: &mut [i64], along: Along)
    requires { length reply.old ≡ 3 }
    ensures { reply.new ≡ three (pos 1) along.across along.up }
{
    put_three(reply, 1, along.across as i64, along.up as i64);
}

// Writes the reply of a refusal.
fn put_refusal(reply: &mut [i64], refusal: Refusal)
    requires { length reply.old ≡ 3 }
    ensures { reply.new ≡ refused_reply (number refusal.fault) refusal.lot }
{
    put_numbers(reply, 0, refusal.fault.number(), refusal.lot);
}

pub fn put_counted(reply: &mut [i64], answer: Result<u32, Refusal>)
    requires { length reply.old ≡ 3 }
    ensures { reply.new ≡ counted_reply (counted answer) }
{
    match answer {
        Ok(n) => put_numbers(reply, 1, n, 0),
        Err(refusal) => put_refusal(reply, refusal),
    }
}

pub fn put_framed(reply: &mut [i64], answer: Result<Frame, Refusal>)
    requires { length reply.old ≡ 3 }
    ensures { reply.new ≡ framed_reply (framed answer) }
{
    match answer {
        Ok(frame) => put_numbers(reply, 1, frame.width, frame.height),
        Err(refusal) => put_refusal(reply, refusal),
    }
}

// Writes a reply of four numbers without a sign.
fn put_four(reply: &mut [i64], a: u32, b: u32, c: u32, d: usize)
    requires { (length reply.old ≡ 4) × (d < 2 ^ 63) }
    ensures { reply.new ≡ four (pos a) (pos b) (pos c) (pos d) }
{
    reply[0] = a as i64;
    reply[1] = b as i64;
    reply[2] = c as i64;
    reply[3] = d as i64;
}

pub fn put_arranged(reply: &mut [i64], answer: Result<Frame, Stopped>)
    requires { (length reply.old ≡ 4) × Near (arranged answer) }
    ensures { reply.new ≡ arranged_reply (arranged answer) }
{
    match answer {
        Ok(frame) => put_four(reply, 1, frame.width, frame.height, 0),
        Err(Stopped { refusal, place }) => {
            let number = refusal.fault.number();
            put_four(reply, 0, number, refusal.lot, place);
        }
    }
}

pub fn put_aligned(reply: &mut [i64], answer: Result<Option<u32>, Refusal>)
    requires { length reply.old ≡ 3 }
    ensures { reply.new ≡ aligned_reply (aligned answer) }
{
    match answer {
        Ok(Some(count)) => put_numbers(reply, 1, count, 0),
        Ok(None) => put_three(reply, 2, 0, 0),
        Err(refusal) => put_refusal(reply, refusal),
    }
}

pub fn put_heading(reply: &mut [i64], answer: Result<Along, Refusal>)
    requires { length reply.old ≡ 3 }
    ensures { reply.new ≡ heading_reply (heading answer) }
{
    match answer {
        Ok(along) => put_along(reply, along),
        Err(refusal) => put_refusal(reply, refusal),
    }
}

pub fn put_verdict(reply: &mut [i64], answer: Verdict)
    requires { length reply.old ≡ 3 }
    ensures { reply.new ≡ verdict_reply answer }
{
    match answer {
        Verdict::Monotone => put_numbers(reply, 1, 0, 0),
        Verdict::Turns(u, v) => put_numbers(reply, 2, u, v),
        Verdict::Refused(number, node) => put_numbers(reply, 0, number, node),
    }
}

pub fn put_saved(reply: &mut [i64], answer: Result<usize, Refusal>)
    requires { (length reply.old ≡ 3) × Short (saved answer) }
    ensures { reply.new ≡ saved_reply (saved answer) }
{
    match answer {
        Ok(bytes) => put_numbers(reply, 1, bytes as u32, 0),
        Err(refusal) => put_refusal(reply, refusal),
    }
}

// Writes both positions.
fn put_point(point: &mut [f64], p: Point)
    requires { length point.old ≡ 2 }
    ensures { point.new ≡ p.across ∷ p.up ∷ [] }
{
    point[0] = p.across;
    point[1] = p.up;
}

pub fn put_view(point: &mut [f64], reply: &mut [i64], answer: View)
    requires { (length point.old ≡ 2) × (length reply.old ≡ 3) }
    ensures { screen point.new reply.new ≡ view_reply point.old answer }
{
    match answer {
        View::Shown(p) => {
            put_point(point, p);
            put_numbers(reply, 1, 0, 0);
        }
        View::Outside => put_numbers(reply, 2, 0, 0),
        View::Refused(number, node) => put_numbers(reply, 0, number, node),
    }
}
