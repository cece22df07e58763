// Texts of operands and events.
use super::memory::at;
use instruction_set::{ArgumentSize, InstructionArgument, InstructionArgumentsBuilder, Register};
use machine_state::Event;
use std::io;

// A text that was written into `out`, or that it is refused, and the end of the line.
fn print(rt: &impl Print, said: Result<usize, text::Refusal>, out: &[u8]) -> io::Result<()> {
    let Ok(n) = said else {
        return println!(rt; "refused");
    };
    if let Some(written) = out.get(..n) {
        rt.write_all(written)?;
    }
    println!(rt; "")
}

fn operand(rt: &impl Print, argument: InstructionArgument, size: ArgumentSize) -> io::Result<()> {
    let mut out = [0; 28];
    let said = text::format(argument, size, &mut out);
    print(rt, said, &out)
}

fn longest(displacement: i32) -> InstructionArgument {
    InstructionArgument::EffectiveAddress {
        base: Some(Register::R10D),
        index: Some(Register::R11D),
        scale: Some(255),
        displacement,
    }
}

// The longest text of two operands, 57 bytes, into a buffer that just holds it, and into one that does not.
fn two(rt: &impl Print) -> io::Result<()> {
    let arguments = InstructionArgumentsBuilder::new()
        .first_argument(longest(i32::MIN))
        .second_argument(longest(-0x7FFF_FFFF))
        .explicit_size(ArgumentSize::Bit64)
        .finalize();
    let mut out = [0; 57];
    let said = text::arguments_text(arguments, &mut out);
    print(rt, said, &out)?;
    let mut short = [0; 56];
    let refused = text::arguments_text(arguments, &mut short);
    print(rt, refused, &short)
}

fn event(rt: &impl Print, event: Event) -> io::Result<()> {
    let mut out = [0; 21];
    let said = text::event_text(event, &mut out);
    print(rt, said, &out)
}

// All the examples of this file, in order.
pub(crate) fn all(rt: &impl Print) -> io::Result<()> {
    let local = InstructionArgument::EffectiveAddress {
        base: Some(Register::RBP),
        index: None,
        scale: None,
        displacement: -8,
    };
    operand(rt, local, ArgumentSize::Bit64)?;
    let immediate = InstructionArgument::Immediate {
        immediate: u64::MAX,
    };
    operand(rt, immediate, ArgumentSize::Bit8)?;
    let scaled = InstructionArgument::EffectiveAddress {
        base: None,
        index: Some(Register::RCX),
        scale: Some(8),
        displacement: 0,
    };
    operand(rt, scaled, ArgumentSize::Bit64)?;
    operand(rt, at(i32::MIN), ArgumentSize::Bit64)?;
    two(rt)?;
    let control = Event::Control {
        register: Register::CR8,
        value: u64::MAX,
    };
    event(rt, control)?;
    event(rt, Event::Video { byte: 0xE9 })
}
