// Memory, the stack, the walk and the screen. Each example has a store of its own.
use super::show::{Said, Signed};
use instruction_set::{ArgumentSize, InstructionArgument, Register};
use machine_state::{Event, MachineState};
use std::io;

// The operand at an address below 2^31, or as far below 0.
pub(crate) fn at(displacement: i32) -> InstructionArgument {
    InstructionArgument::EffectiveAddress {
        base: None,
        index: None,
        scale: None,
        displacement,
    }
}

fn values(rt: &impl Print) -> io::Result<()> {
    let mut dir = [0; 1];
    let mut bytes = [0; 4096];
    let wrote = MachineState::new().mem_write(0, &[0x80, 0x80], &mut dir, &mut bytes, 0);
    let m = wrote.machine;
    let byte = m.get_value(at(0), ArgumentSize::Bit8, &dir, &bytes, wrote.used);
    let word = m.get_value(at(0), ArgumentSize::Bit16, &dir, &bytes, wrote.used);
    println!(rt;
        "bytes 80 80 at 0: Bit8 reads {}, Bit16 reads {}",
        Said(byte.answer),
        Said(word.answer)
    )
}

fn push(rt: &impl Print) -> io::Result<()> {
    let mut dir = [0; 1];
    let mut bytes = [0; 4096];
    let pushed = MachineState::new().stack_push(b"12345678", &mut dir, &mut bytes, 0);
    let m = pushed.machine;
    let rsp = m.get_register_value(Register::RSP);
    let first = m.mem_read_byte(u64::MAX - 7, &dir, &bytes, pushed.used);
    println!(rt;
        "rsp 0, push 8 bytes: rsp {}, byte at 2^64 - 8 is {}",
        Signed(rsp),
        Said(first.answer)
    )
}

fn top(rt: &impl Print) -> io::Result<()> {
    let mut dir = [0; 2];
    let mut bytes = [0; 8192];
    let wrote = MachineState::new().mem_write(u64::MAX, &[1, 2], &mut dir, &mut bytes, 0);
    let zero = wrote.machine.mem_read_byte(0, &dir, &bytes, wrote.used);
    println!(rt;
        "two bytes written at 2^64 - 1: byte at address 0 is {}",
        Said(zero.answer)
    )
}

fn walk(rt: &impl Print) -> io::Result<()> {
    let mut dir = [0; 4];
    let mut bytes = [0; 16384];
    let m = MachineState::new();
    let one = m.mem_write(0x1000, &[0x03, 0x20], &mut dir, &mut bytes, 0);
    let two = m.mem_write(0x2008, &[0x03, 0x30], &mut dir, &mut bytes, one.used);
    let three = m.mem_write(0x3008, &[0x83, 0x00, 0x60], &mut dir, &mut bytes, two.used);
    let mark = m.mem_write(0x600005, &[77], &mut dir, &mut bytes, three.used);
    let paged = m.set_register_value(Register::CR3, 0x1000).machine;
    let seen = paged.mem_read_byte(0x40200005, &dir, &bytes, mark.used);
    println!(rt;
        "cr3 0x1000: the byte at 0x40200005 is that at 0x600005, {}",
        Said(seen.answer)
    )
}

fn room(rt: &impl Print) -> io::Result<()> {
    let mut dir = [0; 1];
    let mut bytes = [0; 4096];
    let m = MachineState::new();
    let full = m.mem_write(4095, &[1, 2], &mut dir, &mut bytes, 0);
    let mut dir = [0; 2];
    let mut bytes = [0; 8192];
    let page = m.mem_write(0, &[1], &mut dir, &mut bytes, 0);
    let fits = m.mem_write(4095, &[1, 2], &mut dir, &mut bytes, page.used);
    println!(rt;
        "one unused slot, two bytes at 4095: {}; page 0 present: {}",
        Said(full.answer),
        Said(fits.answer)
    )
}

// Two bytes in two new pages, by a write, a push and an operand: a store of one slot, in use or not, has too few.
fn lacking(rt: &impl Print, text: &str, used: usize) -> io::Result<()> {
    let mut dir = [7; 1];
    let mut bytes = [0; 4096];
    let m = MachineState::new();
    let wrote = m.mem_write(4095, &[1, 2], &mut dir, &mut bytes, used);
    let stack = m.set_register_value(Register::RSP, 4097).machine;
    let pushed = stack.stack_push(&[1, 2], &mut dir, &mut bytes, used);
    let size = ArgumentSize::Bit16;
    let operand = m.set_value(0x0201, at(4095), size, &mut dir, &mut bytes, used);
    println!(rt;
        "{text}: {}; pushed: {}; by an operand: {}",
        Said(wrote.answer),
        Said(pushed.answer),
        Said(operand.answer)
    )
}

// A full store has no slot for a new page; with one more it has.
fn grown(rt: &impl Print) -> io::Result<()> {
    let mut dir = [0; 1];
    let mut bytes = [0; 4096];
    let m = MachineState::new();
    let full = m.mem_write(4096, &[1], &mut dir, &mut bytes, 1);
    let mut dir = [0; 2];
    let mut bytes = [0; 8192];
    let more = m.mem_write(4096, &[1], &mut dir, &mut bytes, 1);
    println!(rt;
        "a full store, one byte in a new page: {}; with a slot more: {}",
        Said(full.answer),
        Said(more.answer)
    )
}

fn screen(rt: &impl Print, address: u64) -> io::Result<()> {
    let mut dir = [0; 1];
    let mut bytes = [0; 4096];
    let wrote = MachineState::new().mem_write(address, b"A", &mut dir, &mut bytes, 0);
    let shown = if matches!(wrote.event, Event::Video { .. }) {
        "shows"
    } else {
        "is dark"
    };
    println!(rt; "0x{address:X} {shown}")
}

// All the examples of this file, in order.
pub(crate) fn all(rt: &impl Print) -> io::Result<()> {
    values(rt)?;
    push(rt)?;
    top(rt)?;
    walk(rt)?;
    room(rt)?;
    lacking(rt, "no unused slot, two bytes at 4095", 1)?;
    lacking(rt, "one unused slot, two bytes at 4095", 0)?;
    grown(rt)?;
    screen(rt, 0xB8000)?;
    screen(rt, 0xB8FA0)?;
    screen(rt, 0xB8001)?;
    screen(rt, 0xB8FA2)
}
