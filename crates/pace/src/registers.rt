// Registers, flags, arithmetic and addresses. Where a row's name is known, the compiler sees which register it is; elsewhere the sum
// picks it.
use super::{mix, scatter};
use arithmetic::Operation;
use instruction_set::{ArgumentSize, Flags, InstructionArgument, Register};
use machine_state::{Given, MachineState};

// Registers of each part, none of which gives an event.
pub(crate) fn any_name(x: u64) -> Register {
    match x % 16 {
        0 => Register::RAX,
        1 => Register::RCX,
        2 => Register::RSI,
        3 => Register::R15,
        4 => Register::EAX,
        5 => Register::EDX,
        6 => Register::ESP,
        7 => Register::R9D,
        8 => Register::BX,
        9 => Register::DI,
        10 => Register::R12W,
        11 => Register::AL,
        12 => Register::BPL,
        13 => Register::R8B,
        14 => Register::AH,
        _ => Register::DH,
    }
}

// A machine whose registers differ, the same for every count of turns below 2^40: the compiler does not know it beforehand.
pub(crate) fn some_machine(turns: u64) -> MachineState {
    let mut machine = MachineState::new();
    scatter(&mut machine.regs[..17], turns >> 40, |x| x);
    machine
}

// A turn reads a part of rax, which the sum has set.
pub(crate) fn gets_known(turns: u64) -> u64 {
    let mut now = some_machine(turns);
    let mut sum = 1;
    for _ in 0..turns {
        now.regs[0] = sum >> 7;
        sum = mix(sum, now.get_register_value(Register::EAX));
    }
    sum
}

// A turn reads the register that the sum picks.
pub(crate) fn gets_any(turns: u64) -> u64 {
    let now = some_machine(turns);
    let mut sum = 1;
    for _ in 0..turns {
        sum = mix(sum, now.get_register_value(any_name(sum >> 40)));
    }
    sum
}

// A turn writes a part of rax.
pub(crate) fn sets_known(turns: u64) -> u64 {
    let mut now = some_machine(turns);
    let mut sum = 1;
    for _ in 0..turns {
        now = now.set_register_value(Register::AX, sum >> 7).machine;
        sum = mix(sum, now.regs[0]);
    }
    sum
}

// A turn writes the register that the sum picks. The sum takes in rax each turn, and two others at the end.
pub(crate) fn sets_any(turns: u64) -> u64 {
    let mut now = some_machine(turns);
    let mut sum = 1;
    for _ in 0..turns {
        now = now
            .set_register_value(any_name(sum >> 40), sum >> 7)
            .machine;
        sum = mix(sum, now.regs[0]);
    }
    mix(mix(sum, now.regs[3]), now.regs[9])
}

// A turn computes the flags of a result, sets Carry by its low bit, and tests Parity.
pub(crate) fn flags(turns: u64) -> u64 {
    let mut now = some_machine(turns);
    let mut sum = 1;
    for _ in 0..turns {
        let computed = now.compute_flags(sum >> 7, ArgumentSize::Bit32).machine;
        now = computed.set_flag(Flags::Carry, sum % 2 == 1).machine;
        sum = mix(sum, u64::from(now.get_flag(Flags::Parity)));
    }
    mix(sum, now.rflags)
}

// (By `wire_numbers`, which has these tables, a turn would pay for its bounds.)
fn any_size(x: u64) -> ArgumentSize {
    match x % 4 {
        0 => ArgumentSize::Bit64,
        1 => ArgumentSize::Bit32,
        2 => ArgumentSize::Bit16,
        _ => ArgumentSize::Bit8,
    }
}

// A turn computes the flags of a result at a size, which the sum picks; it takes in all flags.
pub(crate) fn sized_flags(turns: u64) -> u64 {
    let mut now = some_machine(turns);
    let mut sum = 1;
    for _ in 0..turns {
        now = now
            .compute_sized_flags(sum >> 7, any_size(sum >> 32))
            .machine;
        sum = mix(sum, now.rflags);
    }
    sum
}

fn any_operation(x: u64) -> Operation {
    match x % 5 {
        0 => Operation::Add,
        1 => Operation::AddWithCarry,
        2 => Operation::Subtract,
        3 => Operation::SubtractWithBorrow,
        _ => Operation::Compare,
    }
}

// Of the value the upper half: with all 64 bits the sum would soon pick the same few values again and again.
fn upper_half(given: Given) -> u64 {
    match given {
        Given::Word(value) => value >> 32,
        Given::Nothing => 1,
        Given::Truth(_) => 2,
    }
}

// A turn is one operation at one size, both picked by the sum, which takes in the answer and all flags.
pub(crate) fn operations(turns: u64) -> u64 {
    let mut now = some_machine(turns);
    let mut sum = 1;
    for _ in 0..turns {
        let operation = any_operation(sum >> 40);
        let size = any_size(sum >> 32);
        let done = now.operate(operation, size, sum, mix(sum, sum >> 20));
        now = done.machine;
        sum = mix(mix(sum, upper_half(done.given)), now.rflags);
    }
    sum
}

fn any_displacement(x: u64) -> i32 {
    match x % 4 {
        0 => 0,
        1 => -8,
        2 => 0x7654_3210,
        _ => -0x8000_0000,
    }
}

// An operand with base, index, scale and displacement, which the sum picks.
pub(crate) fn any_operand(x: u64) -> InstructionArgument {
    InstructionArgument::EffectiveAddress {
        base: Some(any_name(x >> 40)),
        index: Some(any_name(x >> 44)),
        scale: Some(8),
        displacement: any_displacement(x >> 30),
    }
}

// A turn works out the address of the operand that the sum picks.
pub(crate) fn addresses(turns: u64) -> u64 {
    let now = some_machine(turns);
    let mut sum = 1;
    for _ in 0..turns {
        let address = now.calculate_effective_address(any_operand(sum));
        sum = mix(sum, address.unwrap_or(3));
    }
    sum
}
