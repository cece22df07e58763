// Fields of a word: the part of its parent that a register is, and the flag that a bit of rflags is. Everything here goes from words to
// words; machine_state, above, keeps the words. Below are instruction_set, which says where each field stands, and utils, which has the
// law of fields.
// It carries what a register reads and a write leaves (RULES 2.4, 2.5), values cut to a size (1.6) and values of memory (4.2), and the
// flags: test and set (2.9), those of a result (2.10) and its sized form (2.11).
#![tactic(auto)]

ghost use Rattle.std.specs.Prelude.{◌≡◌, ◌+◌, ◌*◌, ◌/◌, ◌%◌, ◌^◌};
ghost use Rattle.fields.specs.Parts.{read_of, write_of, memory_value, low_bits};
ghost use Rattle.fields.specs.FlagBits.{flag_of, put_flag, sign_in, even_ones, computed_flags, sized_flags};

use instruction_set::{ArgumentSize, Flags, Part};

// The part's lanes of its parent, sign-extended (RULES 2.4); no lanes read 0.
pub fn read_part(part: Part, x: u64) -> u64
    ensures { result ≡ read_of part x }
{
    match part {
        Part::Whole => x,
        Part::Low32 => utils::sign_extend(x, 32),
        Part::Low16 => utils::sign_extend(x, 16),
        Part::Low8 => utils::sign_extend(x, 8),
        Part::High8 => utils::sign_extend(x / 0x100, 8),
        Part::Nothing => 0,
    }
}

// x with its low half from value. A 32-bit write does this to 0, not to what stood there (RULES 2.4).
fn with_low_half(x: u64, value: u64) -> u64
    ensures { result ≡ x / 2 ^ 32 * 2 ^ 32 + value % 2 ^ 32 }
{
    x / 0x1_0000_0000 * 0x1_0000_0000 + value % 0x1_0000_0000
}

// The parent with the part's lanes rewritten from the low bytes of value (RULES 2.4, 2.5).
pub fn write_part(part: Part, x: u64, value: u64) -> u64
    ensures { result ≡ write_of part x value }
{
    match part {
        Part::Whole => value,
        Part::Low32 => with_low_half(0, value),
        Part::Low16 => x / 0x1_0000 * 0x1_0000 + value % 0x1_0000,
        Part::Low8 => x / 0x100 * 0x100 + value % 0x100,
        Part::High8 => x / 0x1_0000 * 0x1_0000 + value % 0x100 * 0x100 + x % 0x100,
        Part::Nothing => x,
    }
}

// A word's low bits as a value of memory (RULES 4.2): Bit64 as it is, Bit32 and Bit16 sign-extended, Bit8 with zeros above it.
pub fn memory_value(word: u64, size: ArgumentSize) -> u64
    ensures { result ≡ memory_value size word }
{
    match size {
        ArgumentSize::Bit64 => word,
        ArgumentSize::Bit32 => utils::sign_extend(word, 32),
        ArgumentSize::Bit16 => utils::sign_extend(word, 16),
        ArgumentSize::Bit8 => word % 0x100,
    }
}

// The value's low bits, as many as the size has (RULES 1.6).
pub fn cut_to(x: u64, size: ArgumentSize) -> u64
    ensures { result ≡ low_bits size x }
{
    match size {
        ArgumentSize::Bit64 => x,
        ArgumentSize::Bit32 => x % 0x1_0000_0000,
        ArgumentSize::Bit16 => x % 0x1_0000,
        ArgumentSize::Bit8 => x % 0x100,
    }
}

// Whether the flag is set in x (RULES 2.9).
pub fn test_flag(x: u64, flag: Flags) -> bool
    ensures { result ≡ flag_of x flag }
{
    let bit = instruction_set::flag_bit(flag);
    (x >> bit) % 2 == 1
}

// x with the flag set or cleared and every other bit as it was (RULES 2.9): its bit goes out of x, and the new one comes in.
pub fn with_flag(x: u64, flag: Flags, value: bool) -> u64
    ensures { result ≡ put_flag x flag value }
{
    let bit = instruction_set::flag_bit(flag);
    let others = x - ((x >> bit) % 2 << bit);
    if value {
        return others + (1 << bit);
    }
    others
}

// The top bit of the size, which Sign is (RULES 2.10).
pub fn sign_bit(res: u64, size: ArgumentSize) -> bool
    ensures { result ≡ sign_in size res }
{
    let top = instruction_set::size_bits(size) - 1;
    (res >> top) % 2 == 1
}

// Parity as the manual has it: set where the low byte has an even number of ones (RULES 2.10).
pub fn even_parity(res: u64) -> bool
    ensures { result ≡ even_ones res }
{
    let low_byte = res % 0x100;
    low_byte.count_ones() % 2 == 0
}

// rflags after a result (RULES 2.10). Zero looks at all 64 bits whatever the size, as in the Rust.
pub fn computed_flags(x: u64, res: u64, size: ArgumentSize) -> u64
    ensures { result ≡ computed_flags x res size }
{
    let zero = with_flag(x, Flags::Zero, res == 0);
    let sign = with_flag(zero, Flags::Sign, sign_bit(res, size));
    with_flag(sign, Flags::Parity, even_parity(res))
}

// rflags after a result, by the manual's rule (RULES 2.11): Zero too looks at the low bits alone, as many as the size has.
pub fn sized_flags(x: u64, res: u64, size: ArgumentSize) -> u64
    ensures { result ≡ sized_flags x res size }
{
    computed_flags(x, cut_to(res, size), size)
}
