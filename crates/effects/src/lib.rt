// What each call reads and rewrites: the rows of the table of calls. A place is one byte of a register or one flag; a call's row is the
// spans of places that it reads, and of those that it rewrites, and whether it reaches memory. Below is calls, which says what each call
// does; this crate proves the rows of that, and from them the theorem on forgotten readers for every list of calls. Above are exposed,
// which reports the places that a list takes for granted, neighbours, which says of two calls whether they may be exchanged, and
// promises, which states demand 3.
// It carries RULES 8.1 to 8.4.
#![tactic(auto)]

ghost use Rattle.std.specs.Prelude.{◌≡◌, ◌+◌, ◌*◌};
ghost use Rattle.instruction_set.specs.Registers.{parent_of, part_of, first_lane};
ghost use Rattle.effects.specs.Rows.{rsp_places, cr3_places, flag_place, span, spans, none, read_span, rewrite_span, part_span, flag_span};
ghost use Rattle.effects.specs.Rows.{address_reads, operand_reads, operand_rewrites, operation_reads, three_flags, five_flags};
ghost use Rattle.effects.specs.Rows.{reads_of, rewrites_of, operand_reaches, reaches};

use arithmetic::Operation;
use calls::Call;
use instruction_set::{Flags, InstructionArgument, Register};

// The place of the first flag.
const FIRST_FLAG: usize = 176;

// So many places from one on (RULES 8.1). That they end within the 182 is asked in six private contracts of exposed and neighbours
// (`Inside`). It is no ghost field: each row of specs/Rows.antt, which a reader must believe, would have to carry its proof.
#[derive(Clone, Copy)]
pub struct Span {
    pub start: usize,
    pub count: usize,
}

// What a call reads, or rewrites: at most four spans; a span of no places stands for none. Four fields are plainer than an array: in a
// definition an array is a list, and every law of rows would ask its length.
#[derive(Clone, Copy)]
pub struct Spans {
    pub one: Span,
    pub two: Span,
    pub three: Span,
    pub four: Span,
}

// No place.
const NONE: Span = Span { start: 0, count: 0 };

// So many of a register's lanes, from the lowest of its part on.
#[tactic(auto, using(instruction_set::proofs::Bounds::parent_below, instruction_set::proofs::Bounds::reads_within))]
fn lane_span(register: Register, count: usize) -> Span
    ensures { result ≡ span (8 * parent_of register + first_lane (part_of register)) count }
{
    Span {
        start: 8 * instruction_set::get_parent(register)
            + instruction_set::first_lane(instruction_set::get_part(register)),
        count,
    }
}

fn read_span(register: Register) -> Span
    ensures { result ≡ read_span register }
{
    lane_span(
        register,
        instruction_set::lanes_read(instruction_set::get_part(register)),
    )
}

fn rewrite_span(register: Register) -> Span
    ensures { result ≡ rewrite_span register }
{
    lane_span(
        register,
        instruction_set::lanes_rewritten(instruction_set::get_part(register)),
    )
}

fn part_span(register: Option<Register>) -> Span
    ensures { result ≡ part_span register }
{
    register.map_or(NONE, read_span)
}

// RSP and CR3 are wholly read, and RSP wholly rewritten.
#[tactic(auto, unfolding(instruction_set::specs::Registers::row))]
fn rsp_places() -> Span
    ensures { result ≡ rsp_places }
{
    read_span(Register::RSP)
}

#[tactic(auto, unfolding(instruction_set::specs::Registers::row))]
fn cr3_places() -> Span
    ensures { result ≡ cr3_places }
{
    read_span(Register::CR3)
}

// The flags' places follow those of the 22 parents.
fn flag_place(flag: Flags) -> usize
    ensures { result ≡ flag_place flag }
{
    FIRST_FLAG + instruction_set::flag_number(flag)
}

fn flag_span(flag: Flags) -> Span
    ensures { result ≡ flag_span flag }
{
    Span {
        start: flag_place(flag),
        count: 1,
    }
}

fn two_spans(one: Span, two: Span) -> Spans
    ensures { result ≡ spans one two none none }
{
    Spans {
        one,
        two,
        three: NONE,
        four: NONE,
    }
}

fn one_span(one: Span) -> Spans
    ensures { result ≡ spans one none none none }
{
    two_spans(one, NONE)
}

fn no_spans() -> Spans
    ensures { result ≡ spans none none none none }
{
    one_span(NONE)
}

// The base and index lanes of a memory operand, and what its call reads besides; a register or an immediate has none of these.
fn address_reads(argument: InstructionArgument, besides: Span) -> Spans
    ensures { result ≡ address_reads argument besides }
{
    match argument {
        InstructionArgument::Immediate { .. } => no_spans(),
        InstructionArgument::Register { .. } => no_spans(),
        InstructionArgument::EffectiveAddress { base, index, .. } => Spans {
            one: part_span(base),
            two: part_span(index),
            three: besides,
            four: NONE,
        },
    }
}

fn operand_reads(argument: InstructionArgument) -> Spans
    ensures { result ≡ operand_reads argument }
{
    match argument {
        InstructionArgument::Immediate { .. } => no_spans(),
        InstructionArgument::Register { register } => one_span(read_span(register)),
        InstructionArgument::EffectiveAddress { .. } => address_reads(argument, cr3_places()),
    }
}

fn operand_rewrites(argument: InstructionArgument) -> Spans
    ensures { result ≡ operand_rewrites argument }
{
    match argument {
        InstructionArgument::Immediate { .. } => no_spans(),
        InstructionArgument::Register { register } => one_span(rewrite_span(register)),
        InstructionArgument::EffectiveAddress { .. } => no_spans(),
    }
}

// Those with carry or borrow read Carry (RULES 8.2).
fn operation_reads(operation: Operation) -> Spans
    ensures { result ≡ operation_reads operation }
{
    match operation {
        Operation::Add => no_spans(),
        Operation::AddWithCarry => one_span(flag_span(Flags::Carry)),
        Operation::Subtract => no_spans(),
        Operation::SubtractWithBorrow => one_span(flag_span(Flags::Carry)),
        Operation::Compare => no_spans(),
    }
}

// What either form of the flag call rewrites.
fn three_flags() -> Spans
    ensures { result ≡ three_flags }
{
    Spans {
        one: flag_span(Flags::Parity),
        two: flag_span(Flags::Zero),
        three: flag_span(Flags::Sign),
        four: NONE,
    }
}

// Carry, Parity, Zero and Sign stand side by side; Direction stands before Overflow.
fn five_flags() -> Spans
    ensures { result ≡ five_flags }
{
    let four = Span {
        start: flag_place(Flags::Carry),
        count: 4,
    };
    two_spans(four, flag_span(Flags::Overflow))
}

// The places that a call reads (RULES 8.2), refused or not (RULES 8.3). Here and below each call has a line of its own, as in the table of
// RULES 8.2.
#[tactic(auto, unfolding(crate::specs::Rows::reads_of))]
pub fn reads_of(call: Call) -> Spans
    ensures { result ≡ reads_of call }
{
    match call {
        Call::ReadOperand { argument, .. } => operand_reads(argument),
        Call::WriteOperand { argument, .. } => address_reads(argument, cr3_places()),
        Call::EffectiveAddress { argument } => address_reads(argument, NONE),
        Call::Push => two_spans(rsp_places(), cr3_places()),
        Call::Pop => two_spans(rsp_places(), cr3_places()),
        Call::ReadMemory { .. } => one_span(cr3_places()),
        Call::WriteMemory { .. } => one_span(cr3_places()),
        Call::TestFlag { flag } => one_span(flag_span(flag)),
        Call::SetFlag { .. } => no_spans(),
        Call::ComputeFlags { .. } => no_spans(),
        Call::ComputeSizedFlags { .. } => no_spans(),
        Call::Arithmetic { operation, .. } => operation_reads(operation),
    }
}

// The places that a call rewrites (RULES 8.2), refused or not (RULES 8.3).
#[tactic(auto, unfolding(crate::specs::Rows::rewrites_of))]
pub fn rewrites_of(call: Call) -> Spans
    ensures { result ≡ rewrites_of call }
{
    match call {
        Call::ReadOperand { .. } => no_spans(),
        Call::WriteOperand { argument, .. } => operand_rewrites(argument),
        Call::EffectiveAddress { .. } => no_spans(),
        Call::Push => one_span(rsp_places()),
        Call::Pop => one_span(rsp_places()),
        Call::ReadMemory { .. } => no_spans(),
        Call::WriteMemory { .. } => no_spans(),
        Call::TestFlag { .. } => no_spans(),
        Call::SetFlag { flag, .. } => one_span(flag_span(flag)),
        Call::ComputeFlags { .. } => three_flags(),
        Call::ComputeSizedFlags { .. } => three_flags(),
        Call::Arithmetic { .. } => five_flags(),
    }
}

fn operand_reaches(argument: InstructionArgument) -> bool
    ensures { result ≡ operand_reaches argument }
{
    matches!(argument, InstructionArgument::EffectiveAddress { .. })
}

// Whether a call reaches memory (RULES 8.2): by its kind, refused or not.
#[tactic(auto, unfolding(crate::specs::Rows::reaches))]
pub fn reaches_memory(call: Call) -> bool
    ensures { result ≡ reaches call }
{
    match call {
        Call::ReadOperand { argument, .. } => operand_reaches(argument),
        Call::WriteOperand { argument, .. } => operand_reaches(argument),
        Call::EffectiveAddress { .. } => false,
        Call::Push => true,
        Call::Pop => true,
        Call::ReadMemory { .. } => true,
        Call::WriteMemory { .. } => true,
        Call::TestFlag { .. } => false,
        Call::SetFlag { .. } => false,
        Call::ComputeFlags { .. } => false,
        Call::ComputeSizedFlags { .. } => false,
        Call::Arithmetic { .. } => false,
    }
}
