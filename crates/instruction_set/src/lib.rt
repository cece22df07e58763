// Registers, flags, sizes and operands: what an instruction names. The arguments record with its builder, access and size selection
// stands here too. Below is utils; above, machine_state gives registers and operands their values, and text prints them.
// It carries RULES 2.2 to 2.4 (the table of registers), 2.6, 2.8, 1.6 and, of section 5, 5.1 and 5.5 to 5.8 with refusals 8 to 11.
#![tactic(auto)]

ghost use Rattle.std.specs.Prelude.{◌≡◌, ◌*◌};
ghost use Rattle.instruction_set.specs.Registers.{parent_of, part_of, first_lane, lanes_read, lanes_rewritten};
ghost use Rattle.instruction_set.specs.Sizes.{bytes_of, size_of_part, register_size};
ghost use Rattle.instruction_set.specs.Flags.{bit_of, flag_number, flag_at};
ghost use Rattle.instruction_set.specs.Arguments.{arguments_number, one_outcome, one_argument, two_outcome, two_arguments};
ghost use Rattle.instruction_set.specs.Arguments.{size_outcome, register_size_or, selected_size};
ghost use Rattle.instruction_set.specs.Builder.{new_builder, with_first, with_second, with_opcode, with_size, with_repeat, built};

// The 80 names, in the Rust's order (RULES 2.4).
#[derive(Clone, Copy)]
pub enum Register {
    // 64 bits
    RAX,
    RBX,
    RCX,
    RDX,
    RSP,
    RBP,
    RSI,
    RDI,
    R8,
    R9,
    R10,
    R11,
    R12,
    R13,
    R14,
    R15,
    RIP,
    CR0,
    CR2,
    CR3,
    CR4,
    CR8,
    // 32 bits
    EAX,
    EBX,
    ECX,
    EDX,
    ESP,
    EBP,
    ESI,
    EDI,
    R8D,
    R9D,
    R10D,
    R11D,
    R12D,
    R13D,
    R14D,
    R15D,
    // 16 bits
    AX,
    CX,
    DX,
    BX,
    SP,
    BP,
    SI,
    DI,
    R8W,
    R9W,
    R10W,
    R11W,
    R12W,
    R13W,
    R14W,
    R15W,
    // 8 bits
    AL,
    CL,
    DL,
    BL,
    AH,
    CH,
    DH,
    BH,
    SPL,
    BPL,
    SIL,
    DIL,
    R8B,
    R9B,
    R10B,
    R11B,
    R12B,
    R13B,
    R14B,
    R15B,
    // segments
    ES,
    CS,
    SS,
    DS,
    FS,
    GS,
}

// Which part of its parent, the 64-bit register that holds it, a register is (RULES 2.4); a segment is no part of any.
#[derive(Clone, Copy, Debug, PartialEq, Eq)]
pub enum Part {
    Whole,
    Low32,
    Low16,
    Low8,
    High8,
    Nothing,
}

// The six flags, in the order of their numbers, 0 to 5 (RULES 2.8).
#[derive(Clone, Copy, Debug, PartialEq, Eq)]
pub enum Flags {
    Carry,
    Parity,
    Zero,
    Sign,
    Direction,
    Overflow,
}

// The four sizes (RULES 1.6), in the order of their numbers in docs/FORMAT.md, 0 to 3.
#[derive(Clone, Copy, Debug, PartialEq, Eq)]
pub enum ArgumentSize {
    Bit64,
    Bit32,
    Bit16,
    Bit8,
}

// An operand: a value, a register, or the parts of an address (RULES 5.1).
#[derive(Clone, Copy)]
pub enum InstructionArgument {
    Immediate {
        immediate: u64,
    },
    Register {
        register: Register,
    },
    EffectiveAddress {
        base: Option<Register>,
        index: Option<Register>,
        scale: Option<u8>,
        displacement: i32,
    },
}

// The arguments record (RULES 5.5).
#[derive(Clone, Copy, Default)]
pub struct InstructionArguments {
    pub first_argument: Option<InstructionArgument>,
    pub second_argument: Option<InstructionArgument>,
    pub opcode: Option<u8>,
    pub explicit_size: Option<ArgumentSize>,
    pub repeat_equal: bool,
    pub repeat_not_equal: bool,
}

// What the calls on an arguments record refuse: 8, 9, 10 and 11 (RULES 7.1).
#[derive(Clone, Copy, Debug, PartialEq, Eq)]
pub enum Refusal {
    NoSize = 8,
    NoFirst = 9,
    SecondGiven = 10,
    NoSecond = 11,
}

impl Refusal {
    // The refusal's number.
    pub fn number(self) -> u64
        ensures { result ≡ arguments_number self }
    {
        self as u64
    }
}

// The number of the parent that r is a part of; a segment, which is no part of any, gives 0 (RULES 2.2). This and the next are the table of
// names (RULES 2.4), line by line as in specs/Registers.antt: a column each, for a pair would come back
// through memory (66 instructions to read a register, and not 57).
#[tactic(auto, unfolding(crate::specs::Registers::row))]
pub fn get_parent(r: Register) -> usize
    ensures { result ≡ parent_of r }
{
    match r {
        Register::RAX => 0,
        Register::RBX => 1,
        Register::RCX => 2,
        Register::RDX => 3,
        Register::RSP => 4,
        Register::RBP => 5,
        Register::RSI => 6,
        Register::RDI => 7,
        Register::R8 => 8,
        Register::R9 => 9,
        Register::R10 => 10,
        Register::R11 => 11,
        Register::R12 => 12,
        Register::R13 => 13,
        Register::R14 => 14,
        Register::R15 => 15,
        Register::RIP => 16,
        Register::CR0 => 17,
        Register::CR2 => 18,
        Register::CR3 => 19,
        Register::CR4 => 20,
        Register::CR8 => 21,
        Register::EAX => 0,
        Register::EBX => 1,
        Register::ECX => 2,
        Register::EDX => 3,
        Register::ESP => 4,
        Register::EBP => 5,
        Register::ESI => 6,
        Register::EDI => 7,
        Register::R8D => 8,
        Register::R9D => 9,
        Register::R10D => 10,
        Register::R11D => 11,
        Register::R12D => 12,
        Register::R13D => 13,
        Register::R14D => 14,
        Register::R15D => 15,
        Register::AX => 0,
        Register::CX => 2,
        Register::DX => 3,
        Register::BX => 1,
        Register::SP => 4,
        Register::BP => 5,
        Register::SI => 6,
        Register::DI => 7,
        Register::R8W => 8,
        Register::R9W => 9,
        Register::R10W => 10,
        Register::R11W => 11,
        Register::R12W => 12,
        Register::R13W => 13,
        Register::R14W => 14,
        Register::R15W => 15,
        Register::AL => 0,
        Register::CL => 2,
        Register::DL => 3,
        Register::BL => 1,
        Register::AH => 0,
        Register::CH => 2,
        Register::DH => 3,
        Register::BH => 1,
        Register::SPL => 4,
        Register::BPL => 5,
        Register::SIL => 6,
        Register::DIL => 7,
        Register::R8B => 8,
        Register::R9B => 9,
        Register::R10B => 10,
        Register::R11B => 11,
        Register::R12B => 12,
        Register::R13B => 13,
        Register::R14B => 14,
        Register::R15B => 15,
        // a segment has no parent: with no lanes, 0 is never read or rewritten
        Register::ES => 0,
        Register::CS => 0,
        Register::SS => 0,
        Register::DS => 0,
        Register::FS => 0,
        Register::GS => 0,
    }
}

// Which part of its parent r is; a segment is Nothing (RULES 2.4).
#[tactic(auto, unfolding(crate::specs::Registers::row))]
pub fn get_part(r: Register) -> Part
    ensures { result ≡ part_of r }
{
    match r {
        Register::RAX => Part::Whole,
        Register::RBX => Part::Whole,
        Register::RCX => Part::Whole,
        Register::RDX => Part::Whole,
        Register::RSP => Part::Whole,
        Register::RBP => Part::Whole,
        Register::RSI => Part::Whole,
        Register::RDI => Part::Whole,
        Register::R8 => Part::Whole,
        Register::R9 => Part::Whole,
        Register::R10 => Part::Whole,
        Register::R11 => Part::Whole,
        Register::R12 => Part::Whole,
        Register::R13 => Part::Whole,
        Register::R14 => Part::Whole,
        Register::R15 => Part::Whole,
        Register::RIP => Part::Whole,
        Register::CR0 => Part::Whole,
        Register::CR2 => Part::Whole,
        Register::CR3 => Part::Whole,
        Register::CR4 => Part::Whole,
        Register::CR8 => Part::Whole,
        Register::EAX => Part::Low32,
        Register::EBX => Part::Low32,
        Register::ECX => Part::Low32,
        Register::EDX => Part::Low32,
        Register::ESP => Part::Low32,
        Register::EBP => Part::Low32,
        Register::ESI => Part::Low32,
        Register::EDI => Part::Low32,
        Register::R8D => Part::Low32,
        Register::R9D => Part::Low32,
        Register::R10D => Part::Low32,
        Register::R11D => Part::Low32,
        Register::R12D => Part::Low32,
        Register::R13D => Part::Low32,
        Register::R14D => Part::Low32,
        Register::R15D => Part::Low32,
        Register::AX => Part::Low16,
        Register::CX => Part::Low16,
        Register::DX => Part::Low16,
        Register::BX => Part::Low16,
        Register::SP => Part::Low16,
        Register::BP => Part::Low16,
        Register::SI => Part::Low16,
        Register::DI => Part::Low16,
        Register::R8W => Part::Low16,
        Register::R9W => Part::Low16,
        Register::R10W => Part::Low16,
        Register::R11W => Part::Low16,
        Register::R12W => Part::Low16,
        Register::R13W => Part::Low16,
        Register::R14W => Part::Low16,
        Register::R15W => Part::Low16,
        Register::AL => Part::Low8,
        Register::CL => Part::Low8,
        Register::DL => Part::Low8,
        Register::BL => Part::Low8,
        Register::AH => Part::High8,
        Register::CH => Part::High8,
        Register::DH => Part::High8,
        Register::BH => Part::High8,
        Register::SPL => Part::Low8,
        Register::BPL => Part::Low8,
        Register::SIL => Part::Low8,
        Register::DIL => Part::Low8,
        Register::R8B => Part::Low8,
        Register::R9B => Part::Low8,
        Register::R10B => Part::Low8,
        Register::R11B => Part::Low8,
        Register::R12B => Part::Low8,
        Register::R13B => Part::Low8,
        Register::R14B => Part::Low8,
        Register::R15B => Part::Low8,
        Register::ES => Part::Nothing,
        Register::CS => Part::Nothing,
        Register::SS => Part::Nothing,
        Register::DS => Part::Nothing,
        Register::FS => Part::Nothing,
        Register::GS => Part::Nothing,
    }
}

// The lowest byte lane of a part.
pub fn first_lane(part: Part) -> usize
    ensures { result ≡ first_lane part }
{
    match part {
        Part::Whole => 0,
        Part::Low32 => 0,
        Part::Low16 => 0,
        Part::Low8 => 0,
        Part::High8 => 1,
        Part::Nothing => 0,
    }
}

// How many lanes are read of a part, from the lowest on. (This and the next are columns of a table, line by line as in specs/.)
pub fn lanes_read(part: Part) -> usize
    ensures { result ≡ lanes_read part }
{
    match part {
        Part::Whole => 8,
        Part::Low32 => 4,
        Part::Low16 => 2,
        Part::Low8 => 1,
        Part::High8 => 1,
        Part::Nothing => 0,
    }
}

// How many lanes a write of a part rewrites, from the lowest on: of 32 bits all eight.
pub fn lanes_rewritten(part: Part) -> usize
    ensures { result ≡ lanes_rewritten part }
{
    match part {
        Part::Whole => 8,
        Part::Low32 => 8,
        Part::Low16 => 2,
        Part::Low8 => 1,
        Part::High8 => 1,
        Part::Nothing => 0,
    }
}

fn size_of_part(p: Part) -> ArgumentSize
    ensures { result ≡ size_of_part p }
{
    match p {
        Part::Whole => ArgumentSize::Bit64,
        Part::Low32 => ArgumentSize::Bit32,
        Part::Low16 => ArgumentSize::Bit16,
        Part::Low8 => ArgumentSize::Bit8,
        Part::High8 => ArgumentSize::Bit8,
        Part::Nothing => ArgumentSize::Bit16,
    }
}

// The size of a register: that of its part, and Bit16 of a segment (RULES 2.6).
pub fn get_register_size(r: Register) -> ArgumentSize
    ensures { result ≡ register_size r }
{
    size_of_part(get_part(r))
}

// How many bytes a size has (RULES 1.6).
pub fn size_bytes(size: ArgumentSize) -> usize
    ensures { result ≡ bytes_of size }
{
    match size {
        ArgumentSize::Bit64 => 8,
        ArgumentSize::Bit32 => 4,
        ArgumentSize::Bit16 => 2,
        ArgumentSize::Bit8 => 1,
    }
}

// How many bits a size has (RULES 1.6).
pub fn size_bits(size: ArgumentSize) -> u32
    ensures { result ≡ 8 * bytes_of size }
{
    8 * size_bytes(size) as u32
}

// Which bit of rflags a flag is (RULES 2.8).
pub fn flag_bit(flag: Flags) -> u32
    ensures { result ≡ bit_of flag }
{
    match flag {
        Flags::Carry => 0,
        Flags::Parity => 2,
        Flags::Zero => 6,
        Flags::Sign => 7,
        Flags::Direction => 10,
        Flags::Overflow => 11,
    }
}

// A flag's number, 0 to 5, by which places, records and hosts name it: its place in the enum.
pub fn flag_number(flag: Flags) -> usize
    ensures { result ≡ flag_number flag }
{
    flag as usize
}

// The flag of a number; none past 5. (It is no `TryFrom`, whose error would say no more than none does.)
#[tactic(auto, using(crate::proofs::Numbered::no_flag), unfolding(crate::specs::Flags::flag_at))]
pub fn flag_at(n: u64) -> Option<Flags>
    ensures { result ≡ flag_at n }
{
    match n {
        0 => Some(Flags::Carry),
        1 => Some(Flags::Parity),
        2 => Some(Flags::Zero),
        3 => Some(Flags::Sign),
        4 => Some(Flags::Direction),
        5 => Some(Flags::Overflow),
        _ => None,
    }
}

// The size of an operand that is a register, or the other size.
fn register_size_or(
    argument: InstructionArgument,
    other: Result<ArgumentSize, Refusal>,
) -> Result<ArgumentSize, Refusal>
    ensures { size_outcome result ≡ register_size_or argument (size_outcome other) }
{
    match argument {
        InstructionArgument::Register { register } => Ok(get_register_size(register)),
        _ => other,
    }
}

impl InstructionArguments {
    // The only argument (RULES 5.7). Refuses 9 without a first, then 10 with a second. No event.
    pub fn get_one_argument(self) -> Result<InstructionArgument, Refusal>
        ensures { one_outcome result ≡ one_argument self }
    {
        let argument = self.first_argument.ok_or(Refusal::NoFirst)?;
        if self.second_argument.is_some() {
            return Err(Refusal::SecondGiven);
        }
        Ok(argument)
    }

    // Both arguments (RULES 5.8). Refuses 9 without a first, then 11 without a second. No event.
    pub fn get_two_arguments(self) -> Result<(InstructionArgument, InstructionArgument), Refusal>
        ensures { two_outcome result ≡ two_arguments self }
    {
        let first = self.first_argument.ok_or(Refusal::NoFirst)?;
        let second = self.second_argument.ok_or(Refusal::NoSecond)?;
        Ok((first, second))
    }

    // The explicit size, or that of the first register operand, or Bit64 of a lone operand that is none (RULES 5.6). Refuses 9, then 8.
    pub fn size(self) -> Result<ArgumentSize, Refusal>
        ensures { size_outcome result ≡ selected_size self }
    {
        if let Some(size) = self.explicit_size {
            return Ok(size);
        }
        let a = self.first_argument.ok_or(Refusal::NoFirst)?;
        let Some(b) = self.second_argument else {
            return register_size_or(a, Ok(ArgumentSize::Bit64));
        };
        register_size_or(a, register_size_or(b, Err(Refusal::NoSize)))
    }
}

// What is given of an arguments record so far (RULES 5.5). A part that is given twice keeps the last.
#[derive(Clone, Copy)]
pub struct InstructionArgumentsBuilder {
    pub arguments: InstructionArguments,
}

impl InstructionArgumentsBuilder {
    // A builder to which nothing is given yet: every part absent, both repeats false.
    pub fn new() -> InstructionArgumentsBuilder
        ensures { result ≡ new_builder }
    {
        InstructionArgumentsBuilder {
            arguments: InstructionArguments::default(),
        }
    }

    // Gives the first argument. No builder call refuses.
    pub fn first_argument(
        mut self,
        first_argument: InstructionArgument,
    ) -> InstructionArgumentsBuilder
        ensures { result ≡ with_first self first_argument }
    {
        self.arguments.first_argument = Some(first_argument);
        self
    }

    // Gives the second argument.
    pub fn second_argument(
        mut self,
        second_argument: InstructionArgument,
    ) -> InstructionArgumentsBuilder
        ensures { result ≡ with_second self second_argument }
    {
        self.arguments.second_argument = Some(second_argument);
        self
    }

    // Gives the opcode.
    pub fn opcode(mut self, opcode: u8) -> InstructionArgumentsBuilder
        ensures { result ≡ with_opcode self opcode }
    {
        self.arguments.opcode = Some(opcode);
        self
    }

    // Gives the explicit size.
    pub fn explicit_size(mut self, explicit_size: ArgumentSize) -> InstructionArgumentsBuilder
        ensures { result ≡ with_size self explicit_size }
    {
        self.arguments.explicit_size = Some(explicit_size);
        self
    }

    // Gives both marks for repetition (RULES 5.5).
    pub fn repeat(
        mut self,
        repeat_equal: bool,
        repeat_not_equal: bool,
    ) -> InstructionArgumentsBuilder
        ensures { result ≡ with_repeat self repeat_equal repeat_not_equal }
    {
        self.arguments.repeat_equal = repeat_equal;
        self.arguments.repeat_not_equal = repeat_not_equal;
        self
    }

    // The record of what was given. A missing part is refused by who asks for it, not here.
    pub fn finalize(self) -> InstructionArguments
        ensures { result ≡ built self }
    {
        self.arguments
    }
}
