// Parts of sheet texts copied into a lent output, as far as there is room: so one function measures and writes.
#![tactic(auto)]

ghost use Rattle.std.specs.Prelude.{◌+◌, ◌^◌, ◌<◌, ◌≤◌, ◌≡◌, [], ◌∷◌, length, take, drop};
ghost use Rattle.std.proofs.lemmas.List.Edits.{sets};
ghost use Rattle.digits.specs.Written.{digits_of, decimal};
ghost use Rattle.copying.specs.Parts.{up_to, past, count_of, after_two, refitted, rows_of, past_rows, channel_text, channel_left, channel_right, Put};

// A lent output and where it is written next, which counts on past its end.
#[derive(Drop)]
pub struct Writer<'a> {
    pub out: &'a mut [u8],
    pub at: usize,
}

// What is left to read of two texts.
#[derive(Clone, Copy)]
pub struct Texts<'a> {
    pub left: &'a [u8],
    pub right: &'a [u8],
}

impl<'a> Writer<'a> {
    // An output that is written from its front on.
    pub fn new(out: &'a mut [u8]) -> Writer<'a>
        ensures at { result.at ≡ 0 }
        ensures out { result.out.now ≡ out.old }
        ensures same { result.out.ghost_name ≡ out.entry.ghost_name }
    {
        Writer { out, at: 0 }
    }

    // Writes a byte. Ruled out: it at the last place where `at` is past the end; `at` left at the end of the room.
    pub fn put_byte(&mut self, b: u8)
        requires { self.old.at + 1 < 2 ^ 64 }
        ensures { Put self.old (b ∷ []) self.new }
    {
        if self.at < self.out.len() {
            self.out[self.at] = b;
        }
        self.at += 1;
    }

    // Writes bytes. Ruled out: a byte at the last place where `at` is past the end; `at` left at the end of the room.
    pub fn put(&mut self, bytes: &[u8])
        requires { self.old.at + length bytes.now < 2 ^ 64 }
        ensures { Put self.old bytes.now self.new }
    {
        if self.at < self.out.len() {
            let n = bytes.len().min(self.out.len() - self.at);
            fold::copy(&bytes[..n], &mut self.out[self.at..self.at + n]);
        }
        self.at += bytes.len();
    }

    // The decimal digits of n, at most k of them.
    // Kept: `write!` asks for an impl of `fmt::Write`, which may require nothing of the count that goes on past the output's end, and answers an error that never comes; `itoa` of the kit writes every digit, where `decimal` has the last six of a longer number.
    fn put_digits(&mut self, k: usize, n: usize)
        requires { self.old.at + length (digits_of k n) < 2 ^ 64 }
        ensures { Put self.old (digits_of k n) self.new }
    {
        if k == 0 {
            return;
        }
        if n < 10 {
            return self.put_byte(b'0' + n as u8);
        }
        self.put_digits(k - 1, n / 10);
        self.put_byte(b'0' + (n % 10) as u8)
    }

    // The decimal digits of a number, at most six. Ruled out: the last digit first; zeros before the first digit.
    pub fn put_decimal(&mut self, n: usize)
        requires { self.old.at + length (decimal n) < 2 ^ 64 }
        ensures { Put self.old (decimal n) self.new }
    {
        self.put_digits(6, n)
    }
}

// How many bytes b there are. Ruled out: one less where the last byte is b; those of another byte.
pub fn count(text: &[u8], b: u8) -> usize
    ensures { result ≡ count_of b text.now }
{
    text.iter().filter(|x| **x == b).count()
}

// The place after the n-th byte b, or the text's end where there are fewer.
// Kept: `enumerate().filter(..).nth(n - 1)` tells the byte's place, and leaves n 0, the place behind it and a text with fewer as three cases around it.
fn place_after(text: &[u8], b: u8, n: usize) -> usize
    ensures within { result ≤ length text.now }
    ensures before { take result text.now ≡ up_to b n text.now }
    ensures after { drop result text.now ≡ past b n text.now }
{
    let mut left = n;
    for (i, x) in text.iter().enumerate() {
        if left == 0 {
            return i;
        }
        if *x == b {
            left -= 1;
        }
    }
    text.len()
}

// What follows the n-th byte b. Ruled out: that byte left; a byte b skipped where n is 0.
pub fn skip(text: &[u8], b: u8, n: usize) -> &[u8]
    ensures { result.now ≡ past b n text.now }
{
    &text[place_after(text, b, n)..]
}

// Copies all up to the n-th byte b, and that byte. Ruled out: a byte more or less; a byte of the output changed past what is copied.
pub fn copy<'a>(text: &'a [u8], b: u8, n: usize, to: &mut Writer) -> &'a [u8]
    requires { to.old.at + length (up_to b n text.now) < 2 ^ 64 }
    ensures rest { result.now ≡ past b n text.now }
    ensures put { Put to.old (up_to b n text.now) to.new }
{
    let (part, rest) = text.split_at(place_after(text, b, n));
    to.put(part);
    rest
}

// Copies a field, and writes the number n in the place of the next one. Ruled out: the old number copied too; the rest of the line copied twice.
pub fn refit<'a>(text: &'a [u8], n: usize, to: &mut Writer) -> &'a [u8]
    requires { to.old.at + length (refitted n text.now) < 2 ^ 64 }
    ensures rest { result.now ≡ after_two text.now }
    ensures put { Put to.old (refitted n text.now) to.new }
{
    let old = copy(text, b'\t', 1, to);
    to.put_decimal(n);
    to.put_byte(b'\t');
    skip(old, b'\t', 1)
}

// Copies n rows of lines, in each a lines of the left text and then b lines of the right.
// Ruled out: all lines of the left text first; as many lines of the right text as of the left in each row.
pub fn copy_rows<'a>(from: Texts<'a>, n: usize, a: usize, b: usize, to: &mut Writer) -> Texts<'a>
    requires { to.old.at + length (rows_of n a b from.left.now from.right.now) < 2 ^ 64 }
    ensures left { result.left.now ≡ past_rows n a from.entry.left.now }
    ensures right { result.right.now ≡ past_rows n b from.entry.right.now }
    ensures put { Put to.old (rows_of n a b from.entry.left.now from.entry.right.now) to.new }
{
    let mut left = from.left;
    let mut right = from.right;
    for row in 0..n {
        left = copy(left, b'\n', a, to);
        right = copy(right, b'\n', b, to);
    }
    Texts { left, right }
}

// Copies a channel: the left text's line with the width w, the rest of its fields as they are, then n rows of its blocks' lines,
// in each a of the left text and then b of the right. Ruled out: the right text's line of the channel copied too; its quantisers.
pub fn copy_channel<'a>(
    from: Texts<'a>,
    w: usize,
    n: usize,
    a: usize,
    b: usize,
    to: &mut Writer,
) -> Texts<'a>
    requires { to.old.at + length (channel_text w n a b from.left.now from.right.now) < 2 ^ 64 }
    ensures left { result.left.now ≡ channel_left n a from.entry.left.now }
    ensures right { result.right.now ≡ channel_right n b from.entry.right.now }
    ensures put { Put to.old (channel_text w n a b from.entry.left.now from.entry.right.now) to.new }
{
    let factors = refit(from.left, w, to);
    let left = copy(factors, b'\n', 1, to);
    let right = skip(from.right, b'\n', 1);
    copy_rows(Texts { left, right }, n, a, b, to)
}
