// The pieces of a text: each writer stores its bytes from an offset on, where the buffer has room, and answers the offset after them. So
// over an empty buffer it measures. One record, `TextPut`, is the contract of all, and writers one after the other compose by it
// (proofs/Writing.antt). They are no `Display`, since that record may not change in the contracts of `put_byte`, `put_bytes`,
// `put_spaces`, `put_hex` and `put_decimal`: a text goes to a lent buffer, and where that has no room the length is still answered, by
// which a text is refused whole (RULES 6.1); a formatter says only that it failed. It stands on no crate; above it are text_names,
// text_operands and text_state, which put texts together, and reading_numbers, which reads numbers back.
// The buffer and the offset stay two parameters: those five are public, and keep theirs (docs/DECISIONS.md, 18). A struct of a borrowed
// slice and an offset would be made at the head of each of them and taken apart at its end.
// It carries RULES 6.2, hexadecimal with the digit count from the highest set bit, and the decimal scale of 6.5.
#![tactic(auto)]

ghost use Rattle.std.specs.Prelude.{◌≡◌, [], ◌∷◌, ◌≤◌, ◌<◌, length, replicate};
ghost use Rattle.text_pieces.specs.Ascii.{decimal_text};
ghost use Rattle.text_pieces.specs.Hex.{hex_byte, hex_digits, digits_of, hex_text};
ghost use Rattle.text_pieces.specs.Put.{TextPut};

// One byte goes to `at`, if the buffer has room; answers the offset after it, at most 2^64 - 1. (So do the writers below.) The return
// where the byte is stored spares the saturating sum: with it alone an operand's text took 14 % more instructions.
pub fn put_byte(out: &mut [u8], at: usize, b: u8) -> usize
    ensures { TextPut 1 out.old at (b ∷ []) out.new result }
{
    if at < out.len() {
        out[at] = b;
        return at + 1;
    }
    at.saturating_add(1)
}

// These bytes go to the buffer from `at` on; answers the offset after them. (This loop and those of the spaces and the digits differ in
// their source only. One loop over any iterator must ask that it can go on, ends and gives this text, and each caller must show it, which
// is longer. By `fold` the goal `returns` stays open: its closure borrows the buffer, and nothing says what that holds after the calls.)
pub fn put_bytes(out: &mut [u8], at: usize, s: &[u8]) -> usize
    ensures { TextPut (length s.now) out.old at s.now out.new result }
{
    let mut o = at;
    for b in s {
        o = put_byte(out, o, *b);
    }
    o
}

// n spaces from `at` on; answers the offset after them.
pub fn put_spaces(out: &mut [u8], at: usize, n: usize) -> usize
    ensures { TextPut n out.old at (replicate n 32) out.new result }
{
    let mut o = at;
    for _ in 0..n {
        o = put_byte(out, o, b' ');
    }
    o
}

// How many hex digits x takes: from its highest set bit, and one for 0 (RULES 6.2).
fn digit_count(x: u64) -> usize
    ensures { result ≡ digits_of x }
{
    let bits = 64 - x.leading_zeros();
    bits.div_ceil(4).max(1) as usize
}

// (std's `char::from_digit` gives a character or none, to be unwrapped and cast back: no plainer.)
fn hex_byte(d: u8) -> u8
    requires { d < 16 }
    ensures { result ≡ hex_byte d }
{
    if d < 10 { b'0' + d } else { b'a' + (d - 10) }
}

// The n lowest hex digits of x, highest first.
fn put_digits(out: &mut [u8], at: usize, n: usize, x: u64) -> usize
    requires { n ≤ 16 }
    ensures { TextPut 16 out.old at (hex_digits n x) out.new result }
{
    let mut o = at;
    for k in (0..n).rev() {
        let d = ((x >> (4 * k)) % 16) as u8;
        o = put_byte(out, o, hex_byte(d));
    }
    o
}

// x in hex from `at` on, lowercase, with no leading zeros (RULES 6.2); answers the offset after it.
pub fn put_hex(out: &mut [u8], at: usize, x: u64) -> usize
    ensures { TextPut 16 out.old at (hex_text x) out.new result }
{
    put_digits(out, at, digit_count(x), x)
}

// x, a scale, in decimal from `at` on, with no leading zeros (RULES 6.5); answers the offset after it.
pub fn put_decimal(out: &mut [u8], at: usize, x: u8) -> usize
    ensures { TextPut 3 out.old at (decimal_text x) out.new result }
{
    let o = if x < 100 {
        at
    } else {
        put_byte(out, at, b'0' + x / 100)
    };
    let p = if x < 10 {
        o
    } else {
        put_byte(out, o, b'0' + x / 10 % 10)
    };
    put_byte(out, p, b'0' + x % 10)
}
