// Registers, sizes and operations by their numbers, the first two in the Rust's order, as the records of the comparison and a host give
// them (docs/FORMAT.md, host/ruonasvel.h); a flag's number is instruction_set's.
// Below are instruction_set and arithmetic, which have the names; above are `wire_records`,
// `wire_session`, host, and reading_names, whose definitions go by a register's number.
// It serves the reading of names, RULES 6.11; the numbers are docs/FORMAT.md's.
#![tactic(auto)]

ghost use Rattle.std.specs.Prelude.{◌≡◌, ◌<◌, slice_get};
ghost use Rattle.wire_numbers.specs.Numbers.{register_number, size_number, register_at, size_at, operation_at};

use arithmetic::Operation;
use instruction_set::{ArgumentSize, Register};

// The number of a register among the 80, RAX 0 to GS 79: its place in the enum.
pub fn register_number(register: Register) -> u64
    ensures { (result ≡ register_number register) × (result < 80) }
{
    register as u64
}

// The registers in the Rust's order.
const REGISTERS: [Register; 80] = [
    Register::RAX,
    Register::RBX,
    Register::RCX,
    Register::RDX,
    Register::RSP,
    Register::RBP,
    Register::RSI,
    Register::RDI,
    Register::R8,
    Register::R9,
    Register::R10,
    Register::R11,
    Register::R12,
    Register::R13,
    Register::R14,
    Register::R15,
    Register::RIP,
    Register::CR0,
    Register::CR2,
    Register::CR3,
    Register::CR4,
    Register::CR8,
    Register::EAX,
    Register::EBX,
    Register::ECX,
    Register::EDX,
    Register::ESP,
    Register::EBP,
    Register::ESI,
    Register::EDI,
    Register::R8D,
    Register::R9D,
    Register::R10D,
    Register::R11D,
    Register::R12D,
    Register::R13D,
    Register::R14D,
    Register::R15D,
    Register::AX,
    Register::CX,
    Register::DX,
    Register::BX,
    Register::SP,
    Register::BP,
    Register::SI,
    Register::DI,
    Register::R8W,
    Register::R9W,
    Register::R10W,
    Register::R11W,
    Register::R12W,
    Register::R13W,
    Register::R14W,
    Register::R15W,
    Register::AL,
    Register::CL,
    Register::DL,
    Register::BL,
    Register::AH,
    Register::CH,
    Register::DH,
    Register::BH,
    Register::SPL,
    Register::BPL,
    Register::SIL,
    Register::DIL,
    Register::R8B,
    Register::R9B,
    Register::R10B,
    Register::R11B,
    Register::R12B,
    Register::R13B,
    Register::R14B,
    Register::R15B,
    Register::ES,
    Register::CS,
    Register::SS,
    Register::DS,
    Register::FS,
    Register::GS,
];

// What stands at a number; nothing from the list's end on. (So the three below are no `TryFrom`, whose error would say no more.)
fn item_at<T: Copy>(items: &[T], n: u64) -> Option<T>
    ensures { result ≡ slice_get items.now n }
{
    items.get(n as usize).copied()
}

// The register of a number; none from 80 on.
#[tactic(auto, unfolding(crate::specs::Numbers::register_at))]
pub fn register_at(n: u64) -> Option<Register>
    ensures { result ≡ register_at n }
{
    item_at(&REGISTERS, n)
}

// The number of a size, Bit64 0 to Bit8 3: its place in the enum.
pub fn size_number(size: ArgumentSize) -> u64
    ensures { result ≡ size_number size }
{
    size as u64
}

const SIZES: [ArgumentSize; 4] = [
    ArgumentSize::Bit64,
    ArgumentSize::Bit32,
    ArgumentSize::Bit16,
    ArgumentSize::Bit8,
];

// The size of a number; none from 4 on.
#[tactic(auto, unfolding(crate::specs::Numbers::size_at))]
pub fn size_at(n: u64) -> Option<ArgumentSize>
    ensures { result ≡ size_at n }
{
    item_at(&SIZES, n)
}

const OPERATIONS: [Operation; 5] = [
    Operation::Add,
    Operation::AddWithCarry,
    Operation::Subtract,
    Operation::SubtractWithBorrow,
    Operation::Compare,
];

// The operation of a number, add 0 to compare 4; none from 5 on.
#[tactic(auto, unfolding(crate::specs::Numbers::operation_at))]
pub fn operation_at(n: u64) -> Option<Operation>
    ensures { result ≡ operation_at n }
{
    item_at(&OPERATIONS, n)
}
