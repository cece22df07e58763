// The numbers of operand text, read back digit by digit: a first digit, and whether a number goes on with one more. No digit count is
// held: a number has no leading zero, so its value alone says which digits were read (`by_digits`, proofs/Texts.antt). Below is
// `text_pieces`, which prints what is read here; above is reading_operands.
// It carries the numbers of RULES 6.10 to 6.12, as 6.2, 6.4 and 6.5 print them.
#![tactic(auto)]

ghost use Rattle.std.specs.Prelude.{◌≡◌, cond, leb};
ghost use Rattle.std.specs.Int.{w32};
ghost use Rattle.std.proofs.Common.{to_z};
ghost use Rattle.reading_numbers.specs.Numerals.{digit_value, radix_of, least_of, most_of, first_digit, next_digit};
ghost use Rattle.reading_numbers.specs.Numerals.{positive_bits, negative_bits, scale_of};

// The numbers that stand in operand text, each with its radix and its bounds: an immediate, a displacement at or above 0, the distance of
// one below 0, and a scale, which is in decimal.
#[derive(Clone, Copy)]
pub enum Numeral {
    Immediate,
    Above,
    Below,
    Scale,
}

impl Numeral {
    fn radix(self) -> u64
        ensures { result ≡ radix_of self }
    {
        match self {
            Numeral::Immediate | Numeral::Above | Numeral::Below => 16,
            Numeral::Scale => 10,
        }
    }

    // A minus does not stand before 0.
    fn least(self) -> u64
        ensures { result ≡ least_of self }
    {
        match self {
            Numeral::Immediate | Numeral::Above | Numeral::Scale => 0,
            Numeral::Below => 1,
        }
    }

    fn most(self) -> u64
        ensures { result ≡ most_of self }
    {
        match self {
            Numeral::Immediate => u64::MAX,
            Numeral::Above => 0x7FFF_FFFF,
            Numeral::Below => 0x8000_0000,
            Numeral::Scale => 255,
        }
    }
}

// The value of a digit, hex or decimal, or 16, which is past either radix. It is no `Option`: the test of the radix, which a decimal needs
// for a to f, refuses with it what is no digit, and a none would be one case more at both calls. (std's `to_digit` takes A to F too.)
#[tactic(auto, unfolding(crate::specs::Numerals::digit_value))]
fn digit_value(b: u8) -> u64
    ensures { result ≡ digit_value b }
{
    match b {
        b'0'..=b'9' => u64::from(b - b'0'),
        b'a'..=b'f' => u64::from(b - b'a') + 10,
        _ => 16,
    }
}

// The number of one digit, if the byte is one that a number may begin with; else none.
#[tactic(auto, unfolding(crate::specs::Numerals::first_digit))]
pub fn first_digit(n: Numeral, b: u8) -> Option<u64>
    ensures { result ≡ first_digit n b }
{
    let d = digit_value(b);
    (d < n.radix() && n.least() <= d).then_some(d)
}

// The number with one digit more; none if the byte is no digit, the number is 0, after which none stands, or its bound is passed.
#[tactic(auto, using(crate::proofs::Growth::radix), unfolding(crate::specs::Numerals::next_digit))]
pub fn next_digit(n: Numeral, v: u64, b: u8) -> Option<u64>
    ensures { result ≡ next_digit n v b }
{
    let d = digit_value(b);
    if n.radix() <= d {
        return None;
    }
    if v == 0 {
        return None;
    }
    let more = v.checked_mul(n.radix())?.checked_add(d)?;
    (more <= n.most()).then_some(more)
}

// The number, or 0 for one past its bound, which is never read. It is no `Option`: the three below, which say what a number means, cannot
// fail (`positive_bits`, `negative_bits`, `scale_of`, specs/Numerals.antt: what may not change), and would give 0 for its none.
fn within(n: Numeral, v: u64) -> u64
    ensures { result ≡ cond (leb v (most_of n)) v 0 }
{
    if v <= n.most() { v } else { 0 }
}

// The 32 bits of v.
#[tactic(auto, unfolding(crate::specs::Numerals::positive_bits))]
pub fn positive(v: u64) -> u32
    ensures { result ≡ positive_bits v }
{
    within(Numeral::Above, v) as u32
}

// The 32 bits of -v.
#[tactic(auto, unfolding(crate::specs::Numerals::negative_bits))]
pub fn negative(v: u64) -> u32
    ensures { result ≡ negative_bits v }
{
    (within(Numeral::Below, v) as u32).wrapping_neg()
}

// The displacement that 32 bits are, read with their sign.
pub fn displacement(bits: u32) -> i32
    ensures { result ≡ to_z w32 bits }
{
    bits.cast_signed()
}

// The scale that a number is: a byte.
#[tactic(auto, unfolding(crate::specs::Numerals::scale_of))]
pub fn scale(v: u64) -> u8
    ensures { result ≡ scale_of v }
{
    within(Numeral::Scale, v) as u8
}
