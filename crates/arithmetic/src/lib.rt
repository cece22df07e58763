// Add, add with carry, subtract, subtract with borrow and compare, of two given values at a size. Everything here goes from words to
// words; machine_state, above, keeps rflags. Below are fields, which cuts a value to a size and puts a flag into a word, instruction_set,
// which names sizes and flags, and utils, which extends signs.
// It carries RULES 2.12 to 2.14. No sum here is wider than 64 bits.
#![tactic(auto)]

ghost use Rattle.std.specs.Prelude.{◌≡◌, ◌*◌, ◌%◌, ◌^◌, not, ◌&&◌, ◌||◌, if◌then◌else◌, nat_lt};
ghost use Rattle.instruction_set.specs.Sizes.{bytes_of};
ghost use Rattle.fields.specs.FlagBits.{bool_bit};
ghost use Rattle.arithmetic.specs.Sums.{added, subtracted, carry_taken, is_difference, gives_value, worked_of, flags_of, computed_of};

use instruction_set::{ArgumentSize, Flags};

// The five operations (RULES 2.12), in the order of their numbers in docs/FORMAT.md, 0 to 4.
#[derive(Clone, Copy, Debug, PartialEq, Eq)]
pub enum Operation {
    Add,
    AddWithCarry,
    Subtract,
    SubtractWithBorrow,
    Compare,
}

// A sum or a difference at a size, with its Carry and Overflow (RULES 2.13).
#[derive(Clone, Copy)]
pub struct Sum {
    pub value: u64,
    pub carry: bool,
    pub overflow: bool,
}

// rflags after an operation, and its result, sign-extended from the size (RULES 2.14).
#[derive(Clone, Copy)]
pub struct Computed {
    pub rflags: u64,
    pub value: u64,
}

// Whether a signed sum leaves its range, by the three top bits: both values have one sign, and the sum has the other.
fn overflows(a: bool, b: bool, sum: bool) -> bool
    ensures { result ≡ (if a then b && not sum else not b && sum) }
{
    if a {
        return b && !sum;
    }
    !b && sum
}

// Whether a sum has passed its width: it was made in two steps, and one came out below what it was added to.
fn passes(x: u64, partial: u64, value: u64) -> bool
    ensures { result ≡ (nat_lt partial x || nat_lt value partial) }
{
    partial < x || value < partial
}

// The values are added first, then the carry, each step cut to the size.
fn plus(size: ArgumentSize, a: u64, b: u64, carry: bool) -> Sum
    ensures { result ≡ added (8 * bytes_of size) (a % 2 ^ (8 * bytes_of size)) (b % 2 ^ (8 * bytes_of size)) (bool_bit carry) }
{
    let x = fields::cut_to(a, size);
    let y = fields::cut_to(b, size);
    let partial = fields::cut_to(x.wrapping_add(y), size);
    let value = fields::cut_to(partial.wrapping_add(u64::from(carry)), size);
    Sum {
        value,
        carry: passes(x, partial, value),
        overflow: overflows(
            fields::sign_bit(x, size),
            fields::sign_bit(y, size),
            fields::sign_bit(value, size),
        ),
    }
}

// A difference is the sum with the second value's complement and the other carry, and borrows where that sum does not carry.
fn minus(size: ArgumentSize, a: u64, b: u64, borrow: bool) -> Sum
    ensures { result ≡ subtracted (8 * bytes_of size) (a % 2 ^ (8 * bytes_of size)) (b % 2 ^ (8 * bytes_of size)) (bool_bit borrow) }
{
    let sum = plus(size, a, !b, !borrow);
    Sum {
        carry: !sum.carry,
        ..sum
    }
}

// The Carry that an operation takes: those with carry or borrow read it (RULES 2.12).
fn carry_taken(operation: Operation, carry: bool) -> bool
    ensures { result ≡ carry_taken operation carry }
{
    carry
        && matches!(
            operation,
            Operation::AddWithCarry | Operation::SubtractWithBorrow
        )
}

// Compare is a subtraction.
fn is_difference(operation: Operation) -> bool
    ensures { result ≡ is_difference operation }
{
    !matches!(operation, Operation::Add | Operation::AddWithCarry)
}

fn worked(operation: Operation, size: ArgumentSize, a: u64, b: u64, carry: bool) -> Sum
    ensures { result ≡ worked_of operation (8 * bytes_of size) (a % 2 ^ (8 * bytes_of size)) (b % 2 ^ (8 * bytes_of size)) carry }
{
    if is_difference(operation) {
        return minus(size, a, b, carry);
    }
    plus(size, a, b, carry)
}

// rflags with the five flags of a result; every other bit stays (RULES 2.14).
fn with_flags(rflags: u64, size: ArgumentSize, sum: Sum) -> u64
    ensures { result ≡ flags_of rflags size sum }
{
    let carry = fields::with_flag(rflags, Flags::Carry, sum.carry);
    let computed = fields::computed_flags(carry, sum.value, size);
    fields::with_flag(computed, Flags::Overflow, sum.overflow)
}

// Whether an operation answers a value: all but compare (RULES 2.14), whose difference is worked out all the same, as `computed_of` says.
pub fn gives_value(operation: Operation) -> bool
    ensures { result ≡ gives_value operation }
{
    operation != Operation::Compare
}

// The operation on two values cut to the size: rflags after it and its result (RULES 2.12 to 2.14). Never refuses.
pub fn compute(rflags: u64, operation: Operation, size: ArgumentSize, a: u64, b: u64) -> Computed
    ensures { result ≡ computed_of rflags operation size a b }
{
    let carry = carry_taken(operation, fields::test_flag(rflags, Flags::Carry));
    let sum = worked(operation, size, a, b, carry);
    let value = utils::sign_extend(sum.value, instruction_set::size_bits(size));
    Computed {
        rflags: with_flags(rflags, size, sum),
        value,
    }
}
