// A writer for text: it holds the caller's buffer and how much of it is filled (02, R-2: "Text and numbers are added through a writer
// that holds the caller's buffer and its fill"). It is lent to what adds to it, so that a caller that lends its buffer to a writer knows
// what the buffer holds at the end. `add` and `add_two` have plain parameters, for callers that loop: each makes one writer, lends it to
// its parts and drops it.
#![tactic(auto)]

ghost use Rattle.std.specs.Prelude.{◌≡◌, ◌++◌, ◌+◌, ◌≤◌, length};
ghost use Rattle.text.specs.Text.{Writes, decimal};
ghost use Rattle.dot_writer.specs.Written.{written};

#[derive(Drop)]
pub struct Writer<'a> {
    pub out: &'a mut [u8],
    pub fill: usize,
}

impl<'a> Writer<'a> {
    // The borrow goes into the writer, beside how much of it is filled.
    pub fn new(out: &'a mut [u8], fill: usize) -> Writer<'a>
        ensures { (result.out ≡ out.entry) × (result.fill ≡ fill) }
    {
        Writer { out, fill }
    }

    // How much is filled. The buffer is as it was.
    pub fn filled(self) -> usize
        ensures { (result ≡ self.entry.fill) × (self.exit.0.now ≡ self.entry.out.now) }
    {
        self.fill
    }

    // Bytes are added.
    pub fn append_bytes(&mut self, bytes: &[u8])
        requires { self.old.fill + length bytes.now ≤ 18446744073709551615 }
        ensures { self.new ≡ written self.old bytes.now }
    {
        let fill = self.fill;
        self.fill = text::put_bytes(&mut *self.out, fill, bytes);
    }

    // A number in decimal is added.
    pub fn append_number(&mut self, k: usize)
        requires { self.old.fill + 20 ≤ 18446744073709551615 }
        ensures { self.new ≡ written self.old (decimal k) }
    {
        let fill = self.fill;
        self.fill = text::put_decimal(&mut *self.out, fill, k);
    }
}

// A number in decimal between two words, through one writer.
pub fn add<'a, 'b>(
    out: &'a mut [u8],
    fill: usize,
    before: &'b [u8],
    k: usize,
    after: &'b [u8],
) -> usize
    requires { fill + length before.now + 20 + length after.now ≤ 18446744073709551615 }
    ensures { Writes out.old fill (before.now ++ (decimal k ++ after.now)) out.new result }
{
    let mut w = Writer::new(out, fill);
    w.append_bytes(before);
    w.append_number(k);
    w.append_bytes(after);
    w.filled()
}

// Two numbers in decimal, a word behind each, through one writer.
pub fn add_two<'a, 'b>(
    out: &'a mut [u8],
    fill: usize,
    j: usize,
    between: &'b [u8],
    k: usize,
    after: &'b [u8],
) -> usize
    requires { fill + 20 + length between.now + 20 + length after.now ≤ 18446744073709551615 }
    ensures { Writes out.old fill (decimal j ++ (between.now ++ (decimal k ++ after.now))) out.new result }
{
    let mut w = Writer::new(out, fill);
    w.append_number(j);
    w.append_bytes(between);
    w.append_number(k);
    w.append_bytes(after);
    w.filled()
}
