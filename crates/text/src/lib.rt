// The text of a sheet and of a refusal, written into lent bytes.
#![tactic(auto)]

ghost use Rattle.std.specs.Prelude.{[], ◌∷◌, ◌≡◌, ◌+◌, ◌*◌, ◌/◌, ◌%◌, ◌^◌, ◌≤◌, ◌<◌, length};
ghost use Rattle.text.specs.Text.{decimal, field, lot_lines, sheet_of, refusal_of, Appended};
ghost use Rattle.text.specs.Parts.{Unit, line_of, title_of, places_of, Lines};
ghost use Rattle.text.specs.Writing.{Puts};

// Lent bytes, and the place up to which they are written. Each method puts its text in from that place on, leaves what
// stands before it, and moves the place to after it.
#[derive(Drop)]
struct Writer<'a> {
    out: &'a mut [u8],
    at: usize,
}

impl Writer<'_> {
    // Puts one byte.
    fn byte(&mut self, b: u8)
        requires { self.old.at < length self.old.out.now }
        ensures { Puts self.old self.new (b ∷ []) }
    {
        self.out[self.at] = b;
        self.at += 1;
    }

    // Puts the bytes of a word.
    fn word(&mut self, word: &[u8])
        requires { self.old.at + length word.now ≤ length self.old.out.now }
        ensures { Puts self.old self.new word.now }
    {
        let end = self.at + word.len();
        self.out[self.at..end].copy_from_slice(word);
        self.at = end;
    }

    // Puts a number in base ten, from its first digit on.
    fn decimal(&mut self, n: usize)
        requires { (self.old.at + 10 ≤ length self.old.out.now) × (n < 10 ^ 10) }
        ensures { Puts self.old self.new (decimal n) }
    {
        let mut d = unit(n);
        let first = digit(n, d);
        self.byte(first);
        // The loop stays a while: it falls by powers of ten, and counts no index.
        while 1 < d {
            d = d / 10;
            let next = digit(n, d);
            self.byte(next);
        }
    }

    // Puts a number and the byte after it: at most 11 bytes.
    fn field(&mut self, n: usize, after: u8)
        requires { (self.old.at + 11 ≤ length self.old.out.now) × (n < 10 ^ 10) }
        ensures { Puts self.old self.new (field n after) × (self.new.at ≤ self.old.at + 11) }
    {
        self.decimal(n);
        self.byte(after);
    }

    // Puts the line of a lot: five numbers.
    fn line(&mut self, v: usize, a: u32, b: u32, c: u32, d: u32)
        requires { (self.old.at + 55 ≤ length self.old.out.now) × (v < 10 ^ 10) }
        ensures { Puts self.old self.new (line_of v a b c d) }
    {
        self.field(v, b' ');
        self.field(a as usize, b' ');
        self.field(b as usize, b' ');
        self.field(c as usize, b' ');
        self.field(d as usize, b'\n');
    }

    // Puts the title of a sheet.
    fn title(&mut self, n: usize)
        requires { (self.old.at + 17 ≤ length self.old.out.now) × (n < 10 ^ 10) }
        ensures { Puts self.old self.new (title_of n) }
    {
        self.word(b"SHEET ");
        self.field(n, b'\n');
    }

    // Puts the lines of all lots.
    fn lines(&mut self, x: &[u32], y: &[u32], u: &[u32], w: &[u32])
        requires { Lines (places_of x.now y.now u.now w.now) (length x.now) self.old.out.now self.old.at }
        ensures { Puts self.old self.new (lot_lines (places_of x.now y.now u.now w.now) (length x.now)) }
    {
        for v in 0..x.len() {
            self.line(v, x[v], y[v], u[v], w[v]);
        }
    }
}

// The digit of n at the power d of ten, as a byte.
fn digit(n: usize, d: usize) -> u8
    requires { 0 < d }
    ensures { result ≡ 48 + n / d % 10 }
{
    48 + (n / d % 10) as u8
}

// The largest power of ten that is not above n; 1 where n is 0.
fn unit(n: usize) -> usize
    requires { n < 10 ^ 10 }
    ensures { Unit n result }
{
    let mut d = 1;
    // The loop stays a while: it climbs by powers of ten, and counts no index.
    while 10 * d <= n {
        d = 10 * d;
    }
    d
}

// Puts a number in base ten.
pub fn put_decimal(out: &mut [u8], at: usize, n: usize) -> usize
    requires { (at + 10 ≤ length out.old) × (n < 10 ^ 10) }
    ensures { Appended out.old out.new at result (decimal n) }
{
    let mut writer = Writer { out, at };
    writer.decimal(n);
    writer.at
}

// Puts a refusal at the start and returns its length.
pub fn put_refusal(out: &mut [u8], number: u32, lot: u32) -> usize
    requires { 30 ≤ length out.old }
    ensures { Appended out.old out.new 0 result (refusal_of number lot) }
{
    let mut writer = Writer { out, at: 0 };
    writer.word(b"REFUSED ");
    writer.field(number as usize, b' ');
    writer.field(lot as usize, b'\n');
    writer.at
}

// Puts the text of a sheet at the start and returns its length: x and y are the steep places, u and w the balanced
// ones.
pub fn put_sheet(out: &mut [u8], x: &[u32], y: &[u32], u: &[u32], w: &[u32]) -> usize
    requires { Lines (places_of x.now y.now u.now w.now) (length x.now) out.old 17 }
    ensures { Appended out.old out.new 0 result
        (sheet_of (places_of x.now y.now u.now w.now)
        (length x.now)) }
{
    let mut writer = Writer { out, at: 0 };
    writer.title(x.len());
    writer.lines(x, y, u, w);
    writer.at
}
