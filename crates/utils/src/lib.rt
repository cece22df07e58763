// Words: the ground of the house. A value of the machine is a u64, bit for bit the Rust's i64 (docs/DECISIONS.md, "Values are words").
// Here stand the conversions of src/utils.rs, sign extension and the wrapping product; specs/ says what fields of bits, sign extension
// and bytes are, and proofs/ has their laws, each once over first bit and width. It stands on no crate, and nearly every other one stands
// on it.
// It carries RULES 1.1 to 1.5, and what the outcome of an answer is, 9.3.
#![tactic(auto)]

ghost use Rattle.std.specs.Prelude.{◌≡◌, ◌*◌, ◌%◌, ◌^◌, unsigned_abs};
ghost use Rattle.std.specs.Int.{w64};
ghost use Rattle.std.proofs.Common.{of_z, to_z};
ghost use Rattle.utils.specs.Bytes.{to_bytes, from_bytes};
ghost use Rattle.utils.specs.Word.{extend};

// The 64 bits of a signed number (RULES 1.1).
pub fn word_of(value: i64) -> u64
    ensures { result ≡ of_z w64 value }
{
    value.cast_unsigned()
}

// The signed reading of a word (RULES 1.1).
pub fn signed(word: u64) -> i64
    ensures { result ≡ to_z w64 word }
{
    word.cast_signed()
}

// How far a displacement is from 0: of the lowest one, -2^31, it is 2^31.
pub fn magnitude(value: i32) -> u64
    ensures { result ≡ unsigned_abs value }
{
    u64::from(value.unsigned_abs())
}

// The low bits of a word read as a signed number (RULES 1.4). No bits read 0, and 64 or more are the word itself.
pub fn sign_extend(word: u64, bits: u32) -> u64
    ensures { result ≡ extend bits word }
{
    if bits == 0 {
        return 0;
    }
    if 64 <= bits {
        return word;
    }
    let half = 1u64 << (bits - 1);
    let low = word % half;
    if word / half % 2 == 0 {
        return low;
    }
    low + (u64::MAX - half + 1)
}

// a * b modulo 2^64 (RULES 1.2).
pub fn wrapping_mul(a: u64, b: u64) -> u64
    ensures { result ≡ a * b % 2 ^ 64 }
{
    a.wrapping_mul(b)
}

// A word as its eight bytes, low byte first (RULES 1.3).
pub fn word_to_bytes(word: u64) -> [u8; 8]
    ensures { result ≡ to_bytes 8 word }
{
    word.to_le_bytes()
}

// The word that eight bytes are, low byte first (RULES 1.3).
pub fn bytes_to_word(bytes: [u8; 8]) -> u64
    ensures { result ≡ from_bytes bytes }
{
    u64::from_le_bytes(bytes)
}

// The N lowest bytes of a signed value, low byte first (RULES 1.5): of a value of 8 bits one, of 16, 32 and 64 two, four and eight.
pub fn convert_to_u8vec<const N: usize>(value: i64) -> [u8; N]
    ensures { result ≡ to_bytes N (of_z w64 value) }
{
    let mut bytes = [0; N];
    let mut rest = word_of(value);
    for byte in bytes.iter_mut() {
        *byte = (rest % 0x100) as u8;
        rest /= 0x100;
    }
    bytes
}
