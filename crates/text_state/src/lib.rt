// The writers of the state's text and of the lines of events. Below are machine_state, whose state and events are shown, text_names
// and `text_pieces`; above is text, which measures, refuses and writes.
// It carries RULES 6.7 and 6.8.
#![tactic(auto)]

ghost use Rattle.std.specs.Prelude.{◌++◌, ◌≡◌, ◌+◌, ◌^◌, ◌≤◌, ◌<◌, MatchOption};
ghost use Rattle.instruction_set.specs.Registers.{parent_of};
ghost use Rattle.instruction_set.specs.declared.Register.TheVariants.{RAX};
ghost use Rattle.text_state.specs.Lines.{padded, line_of, lines_after, others, label_of, control_text, utf8, event_text};
ghost use Rattle.text_pieces.specs.Ascii.{ascii};
ghost use Rattle.text_names.specs.Names.{name_of};
ghost use Rattle.text_pieces.specs.Put.{TextPut};

use instruction_set::Register;
use machine_state::Event;
use text_names::put_name;
use text_pieces::{put_byte, put_bytes, put_hex, put_spaces};

// The lines after that of rax, in the Rust's order.
const OTHERS: [Register; 16] = [
    Register::RBX,
    Register::RCX,
    Register::RDX,
    Register::RSI,
    Register::RDI,
    Register::RBP,
    Register::RSP,
    Register::R8,
    Register::R9,
    Register::R10,
    Register::R11,
    Register::R12,
    Register::R13,
    Register::R14,
    Register::R15,
    Register::RIP,
];

// The name, and spaces up to column 15. The name's length is the distance of the two offsets, where neither is the last one.
fn put_padded(out: &mut [u8], at: usize, register: Register) -> usize
    requires { at + 15 < 2 ^ 64 }
    ensures { TextPut 15 out.old at (padded (name_of register)) out.new result }
{
    let o = put_name(out, at, register);
    put_spaces(out, o, 15 - (o - at))
}

#[tactic(auto, using(instruction_set::proofs::Bounds::parent_below))]
#[inline]
fn put_line(out: &mut [u8], at: usize, regs: &[u64; 22], register: Register) -> usize
    requires { at + 33 < 2 ^ 64 }
    ensures { TextPut 33 out.old at (line_of regs.now register) out.new result }
{
    let parent = instruction_set::get_parent(register);
    let value = regs[parent];
    let o = put_padded(out, at, register);
    let p = put_bytes(out, o, b"0x");
    put_hex(out, p, value)
}

// The 17 lines of the state (RULES 6.7), with no newline after the last, from offset 0 on; answers the length. Inlined, so that
// a call over an empty buffer compiles to a count.
#[inline(always)]
pub fn put_state(out: &mut [u8], regs: [u64; 22]) -> usize
    ensures { TextPut 577 out.old 0 (line_of regs RAX ++ lines_after regs others) out.new result }
{
    let mut o = put_line(out, 0, &regs, Register::RAX);
    for register in OTHERS {
        o = put_byte(out, o, b'\n');
        o = put_line(out, o, &regs, register);
    }
    o
}

// The digit of a control register's label, as in the Rust (RULES 6.8); absent where a write of the register gives no event (RULES 2.7).
#[tactic(auto, unfolding(instruction_set::specs::Registers::row))]
fn label_digit(register: Register) -> Option<u8>
    ensures { MatchOption result (parent_of register < 17) (λ digit. (17 ≤ parent_of register) × (digit ≡ label_of register)) }
{
    match register {
        Register::CR0 => Some(b'0'),
        Register::CR2 => Some(b'2'),
        Register::CR3 => Some(b'3'),
        Register::CR4 => Some(b'4'),
        Register::CR8 => Some(b'5'),
        _ => None,
    }
}

fn put_control(out: &mut [u8], register: Register, value: u64) -> usize
    ensures { TextPut 21 out.old 0 (control_text register value) out.new result }
{
    let Some(digit) = label_digit(register) else {
        return 0;
    };
    let o = put_bytes(out, 0, b"CR");
    let p = put_byte(out, o, digit);
    let q = put_bytes(out, p, b": ");
    put_hex(out, q, value)
}

// A byte's character takes one byte of UTF-8 below 0x80, and else these two. (By `char::encode_utf8` it took more instructions, and the
// edit of a byte that stands for itself was refused for its form alone.)
fn put_video(out: &mut [u8], byte: u8) -> usize
    ensures { TextPut 9 out.old 0 (ascii "VIDEO: " ++ utf8 byte) out.new result }
{
    let o = put_bytes(out, 0, b"VIDEO: ");
    if byte < 0x80 {
        return put_byte(out, o, byte);
    }
    let p = put_byte(out, o, 0xC0 + byte / 0x40);
    put_byte(out, p, 0x80 + byte % 0x40)
}

// The line of an event (RULES 6.8), empty where there is none, from offset 0 on; answers the length.
pub fn put_event(out: &mut [u8], event: Event) -> usize
    ensures { TextPut 21 out.old 0 (event_text event) out.new result }
{
    match event {
        Event::Quiet => 0,
        Event::Control { register, value } => put_control(out, register, value),
        Event::Video { byte } => put_video(out, byte),
    }
}
