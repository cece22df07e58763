// The writers of operands: register, immediate, address, and one or two operands; and refusal 3, of an index that is shown without a
// scale. Below are instruction_set, whose operands are shown, fields, which cuts an immediate to its size, text_names and `text_pieces`;
// above are text, which measures, refuses and writes, and reading_operands, which reads the same texts back.
// It carries RULES 6.3 to 6.5 and the comma of 6.6; the size that is selected and the order of refusals are text's.
#![tactic(auto)]

ghost use Rattle.std.specs.Prelude.{◌≡◌};
ghost use Rattle.text_names.specs.Names.{register_text};
ghost use Rattle.text_operands.specs.Operands.{displacement_text, base_text, scale_text, address_text, operand_text, list_text};
ghost use Rattle.instruction_set.specs.Operands.{lacks_scale, some_lacks_scale};
ghost use Rattle.text_pieces.specs.Put.{TextPut};

use instruction_set::{ArgumentSize, InstructionArgument, Register};
use text_names::put_name;
use text_pieces::{put_byte, put_bytes, put_decimal, put_hex};

fn put_register(out: &mut [u8], at: usize, register: Register) -> usize
    ensures { TextPut 5 out.old at (register_text register) out.new result }
{
    let o = put_byte(out, at, b'%');
    put_name(out, o, register)
}

fn put_displacement(out: &mut [u8], at: usize, d: i32) -> usize
    ensures { TextPut 11 out.old at (displacement_text d) out.new result }
{
    let prefix = if d < 0 { "-0x" } else { "0x" };
    let o = put_bytes(out, at, prefix.as_bytes());
    put_hex(out, o, utils::magnitude(d))
}

// This and the next are two short matches. By `base.map_or(at, |b| ..)` the goal `returns` stays open: nothing says that a closure that is
// not called leaves the buffer as it was. One function over both would take the writer of what is there as a closure, and be longer.
fn put_base(out: &mut [u8], at: usize, base: Option<Register>) -> usize
    ensures { TextPut 5 out.old at (base_text base) out.new result }
{
    match base {
        None => at,
        Some(b) => put_register(out, at, b),
    }
}

fn put_scale(out: &mut [u8], at: usize, scale: Option<u8>) -> usize
    ensures { TextPut 3 out.old at (scale_text scale) out.new result }
{
    match scale {
        None => at,
        Some(s) => put_decimal(out, at, s),
    }
}

// Nothing, (base), (base,index,scale) or (,index,scale).
fn put_address(
    out: &mut [u8],
    at: usize,
    base: Option<Register>,
    index: Option<Register>,
    scale: Option<u8>,
) -> usize
    ensures { TextPut 17 out.old at (address_text base index scale) out.new result }
{
    match (index, base) {
        (None, None) => at,
        (None, Some(b)) => {
            let o1 = put_byte(out, at, b'(');
            let o2 = put_register(out, o1, b);
            put_byte(out, o2, b')')
        }
        (Some(i), _) => {
            let o1 = put_byte(out, at, b'(');
            let o2 = put_base(out, o1, base);
            let o3 = put_byte(out, o2, b',');
            let o4 = put_register(out, o3, i);
            let o5 = put_byte(out, o4, b',');
            let o6 = put_scale(out, o5, scale);
            put_byte(out, o6, b')')
        }
    }
}

fn put_operand(out: &mut [u8], at: usize, x: InstructionArgument, size: ArgumentSize) -> usize
    ensures { TextPut 28 out.old at (operand_text size x) out.new result }
{
    match x {
        InstructionArgument::Immediate { immediate } => {
            let o = put_bytes(out, at, b"$0x");
            put_hex(out, o, fields::cut_to(immediate, size))
        }
        InstructionArgument::Register { register } => put_register(out, at, register),
        InstructionArgument::EffectiveAddress {
            base,
            index,
            scale,
            displacement,
        } => {
            let o = put_displacement(out, at, displacement);
            put_address(out, o, base, index, scale)
        }
    }
}

// One operand, or two joined by a comma, at a size (RULES 6.3 to 6.6), from offset 0 on; answers the length.
pub fn put_list(
    out: &mut [u8],
    first: InstructionArgument,
    second: Option<InstructionArgument>,
    size: ArgumentSize,
) -> usize
    ensures { TextPut 57 out.old 0 (list_text size first second) out.new result }
{
    let o = put_operand(out, 0, first, size);
    match second {
        None => o,
        Some(y) => {
            let p = put_byte(out, o, b',');
            put_operand(out, p, y, size)
        }
    }
}

// Refusal 3: whether the operand has an index without a scale (RULES 3.3).
pub fn lacks_scale(x: InstructionArgument) -> bool
    ensures { result ≡ lacks_scale x }
{
    matches!(
        x,
        InstructionArgument::EffectiveAddress {
            index: Some(_),
            scale: None,
            ..
        }
    )
}

// The same of an operand that may be absent: then it is not so.
pub fn some_lacks_scale(x: Option<InstructionArgument>) -> bool
    ensures { result ≡ some_lacks_scale x }
{
    x.is_some_and(lacks_scale)
}
