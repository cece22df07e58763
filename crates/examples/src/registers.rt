// Registers, flags and addresses.
use super::show::{Flag, Signed};
use instruction_set::{ArgumentSize, Flags, InstructionArgument, Register};
use machine_state::MachineState;
use std::io;

// (The program pace has the same three lines: no crate stands on a program.)
fn with(register: Register, value: u64) -> MachineState {
    MachineState::new()
        .set_register_value(register, value)
        .machine
}

// A register of a machine, to be shown.
fn seen(machine: MachineState, register: Register) -> Signed {
    Signed(machine.get_register_value(register))
}

fn low_byte(rt: &impl Print) -> io::Result<()> {
    let m = with(Register::AL, 0x80);
    let rax = seen(m, Register::RAX);
    let al = seen(m, Register::AL);
    let ah = seen(m, Register::AH);
    println!(rt; "rax 0, write AL 0x80: rax {rax}, AL {al}, AH {ah}")
}

fn low_half(rt: &impl Print) -> io::Result<()> {
    let whole = with(Register::RAX, u64::MAX);
    let m = whole.set_register_value(Register::EAX, u64::MAX).machine;
    let rax = seen(m, Register::RAX);
    let eax = seen(m, Register::EAX);
    println!(rt; "rax -1, write EAX -1: rax {rax}, EAX {eax}")
}

fn parts(rt: &impl Print) -> io::Result<()> {
    let m = with(Register::RAX, 0x8000);
    let ah = seen(m, Register::AH);
    let al = seen(m, Register::AL);
    let ax = seen(m, Register::AX);
    let eax = seen(m, Register::EAX);
    println!(rt; "rax 0x8000: AH {ah}, AL {al}, AX {ax}, EAX {eax}")
}

fn flags(rt: &impl Print) -> io::Result<()> {
    let m = MachineState::new()
        .compute_flags(256, ArgumentSize::Bit8)
        .machine;
    let zero = Flag(m.get_flag(Flags::Zero));
    let sign = Flag(m.get_flag(Flags::Sign));
    let parity = Flag(m.get_flag(Flags::Parity));
    println!(rt; "result 256 at Bit8: Zero {zero}, Sign {sign}, Parity {parity}")
}

fn address(rt: &impl Print) -> io::Result<()> {
    let base = with(Register::RAX, 16);
    let m = base.set_register_value(Register::RBX, u64::MAX).machine;
    let operand = InstructionArgument::EffectiveAddress {
        base: Some(Register::RAX),
        index: Some(Register::RBX),
        scale: Some(8),
        displacement: -8,
    };
    let Ok(at) = m.calculate_effective_address(operand) else {
        return Ok(());
    };
    let at = Signed(at);
    println!(rt; "base 16, index -1, scale 8, displacement -8: address {at}")
}

// All the examples of this file, in order.
pub(crate) fn all(rt: &impl Print) -> io::Result<()> {
    low_byte(rt)?;
    low_half(rt)?;
    parts(rt)?;
    flags(rt)?;
    address(rt)
}
