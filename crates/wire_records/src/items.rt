// From words to operands, arguments records, events and calls. A number that names nothing makes the record malformed: none.
// Where a part of a record may be absent, the part is an option within that.
ghost use Rattle.std.specs.Prelude.{◌≡◌};
ghost use Rattle.wire_records.specs.Built.{arguments_of};
ghost use Rattle.wire_records.specs.Decoded.{base_or_index_at, byte_at, displacement_at, explicit_at, truth_at};
ghost use Rattle.wire_records.specs.Decoded.{register_in, register_operand, address_operand, operand_at, given_at, arguments_at};
ghost use Rattle.wire_records.specs.Decoded.{read_call, write_call, address_call, test_call, set_call, flag_call};
ghost use Rattle.wire_records.specs.Decoded.{operation_call, call_by, call_of, control_event, video_event, event_at};

use super::kinds::{CallKind, Kind};
use super::{Header, OperandWords};
use calls::Call;
use instruction_set::{
    ArgumentSize, InstructionArgument, InstructionArguments, InstructionArgumentsBuilder, Register,
    flag_at,
};
use machine_state::Event;
use wire_numbers::{operation_at, register_at, size_at};

// Absent at 0, else the register at the number less 1. This, `byte_at` and `explicit_at` stay three: one function of them would be given
// the word of absence and the look-up, and be no shorter where it is called.
#[tactic(auto, unfolding(crate::specs::Decoded::base_or_index_at))]
fn base_or_index_at(n: u64) -> Option<Option<Register>>
    ensures { result ≡ base_or_index_at n }
{
    if n == 0 {
        return Some(None);
    }
    register_at(n - 1).map(Some)
}

// Absent at 0, else the byte that is the number less 1: a scale, or an opcode.
#[tactic(auto, unfolding(crate::specs::Decoded::byte_at))]
fn byte_at(n: u64) -> Option<Option<u8>>
    ensures { result ≡ byte_at n }
{
    if n == 0 {
        return Some(None);
    }
    u8::try_from(n - 1).ok().map(Some)
}

// The 64 bits are those of a number of 32 with its sign.
#[tactic(auto, unfolding(crate::specs::Decoded::displacement_at))]
fn displacement_at(word: u64) -> Option<i32>
    ensures { result ≡ displacement_at word }
{
    i32::try_from(utils::signed(word)).ok()
}

// The size that an arguments record states: 0 to 3, or 4 for none.
#[tactic(auto, unfolding(crate::specs::Decoded::explicit_at))]
fn explicit_at(n: u64) -> Option<Option<ArgumentSize>>
    ensures { result ≡ explicit_at n }
{
    if n == 4 {
        return Some(None);
    }
    size_at(n).map(Some)
}

// 0 or 1.
#[tactic(auto, unfolding(crate::specs::Decoded::truth_at))]
fn truth_at(n: u64) -> Option<bool>
    ensures { result ≡ truth_at n }
{
    match n {
        0 => Some(false),
        1 => Some(true),
        _ => None,
    }
}

// The base, which must be given.
#[tactic(auto, unfolding(crate::specs::Decoded::register_in))]
fn register_in(words: OperandWords) -> Option<Register>
    ensures { result ≡ register_in words }
{
    base_or_index_at(words.base)?
}

#[tactic(auto, unfolding(crate::specs::Decoded::register_operand))]
fn register_operand(words: OperandWords) -> Option<Option<InstructionArgument>>
    ensures { result ≡ register_operand words }
{
    let register = register_in(words)?;
    Some(Some(InstructionArgument::Register { register }))
}

#[tactic(auto, unfolding(crate::specs::Decoded::address_operand))]
fn address_operand(words: OperandWords) -> Option<Option<InstructionArgument>>
    ensures { result ≡ address_operand words }
{
    let base = base_or_index_at(words.base)?;
    let index = base_or_index_at(words.index)?;
    let scale = byte_at(words.scale)?;
    let displacement = displacement_at(words.value)?;
    Some(Some(InstructionArgument::EffectiveAddress {
        base,
        index,
        scale,
        displacement,
    }))
}

#[tactic(auto, using(crate::proofs::Exact::operand_past), unfolding(crate::specs::Decoded::operand_at))]
fn operand_at(words: OperandWords) -> Option<Option<InstructionArgument>>
    ensures { result ≡ operand_at words }
{
    match words.kind {
        0 => Some(None),
        1 => Some(Some(InstructionArgument::Immediate {
            immediate: words.value,
        })),
        2 => register_operand(words),
        3 => address_operand(words),
        _ => None,
    }
}

// Built by the Rust's builder, which is given what is there.
fn build(
    first: Option<InstructionArgument>,
    second: Option<InstructionArgument>,
    opcode: Option<u8>,
    size: Option<ArgumentSize>,
    equal: bool,
    not_equal: bool,
) -> InstructionArguments
    ensures { result ≡ arguments_of first second opcode size equal not_equal }
{
    let mut builder = InstructionArgumentsBuilder::new();
    if let Some(argument) = first {
        builder = builder.first_argument(argument);
    }
    if let Some(argument) = second {
        builder = builder.second_argument(argument);
    }
    if let Some(number) = opcode {
        builder = builder.opcode(number);
    }
    if let Some(explicit) = size {
        builder = builder.explicit_size(explicit);
    }
    builder.repeat(equal, not_equal).finalize()
}

// The arguments record of a header, with the words of its two repeats, 0 or 1; malformed where a word names nothing.
#[tactic(auto, unfolding(crate::specs::Decoded::arguments_at))]
pub fn decode_arguments(header: Header, equal: u64, not_equal: u64) -> Option<InstructionArguments>
    ensures { result ≡ arguments_at header equal not_equal }
{
    let repeat_equal = truth_at(equal)?;
    let repeat_not_equal = truth_at(not_equal)?;
    let first = operand_at(header.first)?;
    let second = operand_at(header.second)?;
    let opcode = byte_at(header.a)?;
    let size = explicit_at(header.size)?;
    Some(build(first, second, opcode, size, repeat_equal, repeat_not_equal))
}

// An operand that must be given; absent where its words say so or are malformed.
#[tactic(auto, unfolding(crate::specs::Decoded::given_at))]
pub fn given_operand(words: OperandWords) -> Option<InstructionArgument>
    ensures { result ≡ given_at words }
{
    operand_at(words)?
}

#[tactic(auto, unfolding(crate::specs::Decoded::read_call))]
fn read_operand(header: Header) -> Option<Call>
    ensures { result ≡ read_call header }
{
    let argument = given_operand(header.first)?;
    let size = size_at(header.size)?;
    Some(Call::ReadOperand { argument, size })
}

#[tactic(auto, unfolding(crate::specs::Decoded::write_call))]
fn write_operand(header: Header) -> Option<Call>
    ensures { result ≡ write_call header }
{
    let argument = given_operand(header.first)?;
    let size = size_at(header.size)?;
    Some(Call::WriteOperand {
        argument,
        size,
        value: header.a,
    })
}

#[tactic(auto, unfolding(crate::specs::Decoded::address_call))]
fn effective_address(header: Header) -> Option<Call>
    ensures { result ≡ address_call header }
{
    let argument = given_operand(header.first)?;
    Some(Call::EffectiveAddress { argument })
}

#[tactic(auto, unfolding(crate::specs::Decoded::test_call))]
fn test_flag(header: Header) -> Option<Call>
    ensures { result ≡ test_call header }
{
    let flag = flag_at(header.a)?;
    Some(Call::TestFlag { flag })
}

#[tactic(auto, unfolding(crate::specs::Decoded::set_call))]
fn set_flag(header: Header) -> Option<Call>
    ensures { result ≡ set_call header }
{
    let flag = flag_at(header.a)?;
    let value = truth_at(header.b)?;
    Some(Call::SetFlag { flag, value })
}

// Either form of the flag call.
#[tactic(auto, unfolding(crate::specs::Decoded::flag_call))]
fn compute_flags(header: Header, sized: bool) -> Option<Call>
    ensures { result ≡ flag_call sized header }
{
    let size = size_at(header.size)?;
    let result = header.a;
    if sized {
        return Some(Call::ComputeSizedFlags { result, size });
    }
    Some(Call::ComputeFlags { result, size })
}

#[tactic(auto, unfolding(crate::specs::Decoded::operation_call))]
fn operate(header: Header) -> Option<Call>
    ensures { result ≡ operation_call header }
{
    let operation = operation_at(header.c)?;
    let size = size_at(header.size)?;
    Some(Call::Arithmetic {
        operation,
        size,
        first: header.a,
        second: header.b,
    })
}

// The call of a header, by its kind.
fn call_by(call: CallKind, header: Header) -> Option<Call>
    ensures { result ≡ call_by call header }
{
    match call {
        CallKind::ReadOperand => read_operand(header),
        CallKind::WriteOperand => write_operand(header),
        CallKind::EffectiveAddress => effective_address(header),
        CallKind::Push => Some(Call::Push),
        CallKind::Pop => Some(Call::Pop),
        CallKind::ReadMemory => Some(Call::ReadMemory { address: header.a }),
        CallKind::WriteMemory => Some(Call::WriteMemory { address: header.a }),
        CallKind::TestFlag => test_flag(header),
        CallKind::SetFlag => set_flag(header),
        CallKind::ComputeFlags => compute_flags(header, false),
        CallKind::Arithmetic => operate(header),
        CallKind::ComputeSizedFlags => compute_flags(header, true),
    }
}

// The tabled call of a header; malformed where its kind has none or a word names nothing.
#[tactic(auto, unfolding(crate::specs::Decoded::call_of))]
pub fn decode_call(header: Header) -> Option<Call>
    ensures { result ≡ call_of header }
{
    match header.kind {
        Kind::Call(call) => call_by(call, header),
        _ => None,
    }
}

#[tactic(auto, unfolding(crate::specs::Decoded::control_event))]
fn control_event(words: OperandWords) -> Option<Event>
    ensures { result ≡ control_event words }
{
    let register = register_in(words)?;
    Some(Event::Control {
        register,
        value: words.value,
    })
}

#[tactic(auto, unfolding(crate::specs::Decoded::video_event))]
fn video_event(words: OperandWords) -> Option<Event>
    ensures { result ≡ video_event words }
{
    let byte = u8::try_from(words.value).ok()?;
    Some(Event::Video { byte })
}

// The event of an operand's five words; malformed where they make none.
#[tactic(auto, using(crate::proofs::Exact::event_past), unfolding(crate::specs::Decoded::event_at))]
pub fn decode_event(words: OperandWords) -> Option<Event>
    ensures { result ≡ event_at words }
{
    match words.kind {
        0 => Some(Event::Quiet),
        1 => control_event(words),
        2 => video_event(words),
        _ => None,
    }
}
