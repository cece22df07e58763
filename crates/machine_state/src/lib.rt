// The machine: its registers and flags, and the calls on them. A machine goes in by value and comes back inside the answer of every call
// that may change it (RULES 4.8). Below are instruction_set, which names registers and operands, fields, which reads and rewrites parts
// of words, arithmetic, which works out sums and differences with their flags, and mmu, which is memory; above are text, calls, host and
// the programs.
// It carries RULES 2.1 and 2.4 to 2.14 on a machine, the effective address, 3.1 to 3.3, and in memory.rt RULES 4.1 to 4.8, 5.2 and 5.3;
// refusals 1, 2 and 3, and memory's 4 to 6 (7.1, 7.2).
#![tactic(auto)]

ghost use Rattle.std.specs.Prelude.{◌≡◌, slice_index};
ghost use Rattle.machine_state.specs.Machine.{new_machine, read_reg, write_reg, event_of, changed};
ghost use Rattle.machine_state.specs.Flagged.{flag_in, set_flag, compute_flags, compute_sized_flags};
ghost use Rattle.machine_state.specs.Operating.{operation_given, operated};
ghost use Rattle.machine_state.specs.Address.{base_of, address_of};
ghost use Rattle.machine_state.specs.Answers.{refusal_number, said_by, address_outcome};
ghost use Rattle.machine_state.specs.declared.Event.TheVariants.{Quiet};

use arithmetic::Operation;
use instruction_set::{ArgumentSize, Flags, InstructionArgument, Register};

// The parent number of CR0 (RULES 2.2), the first whose write gives an event (RULES 2.7).
const CR0: usize = 17;

// The parent number of CR3, from which a page walk begins (RULES 2.2, 3.11).
pub const CR3: usize = 19;

// A machine (RULES 2.1): the 22 parents by their numbers (RULES 2.2), rflags, gdt and idt, laid out as C does, for a host.
#[repr(C)]
#[derive(Clone, Copy)]
pub struct MachineState {
    pub regs: [u64; 22],
    pub rflags: u64,
    pub gdt: u64,
    pub idt: u64,
}

// What the Rust prints as it goes: a control register written (RULES 2.7), or a cell of the screen (RULES 4.5); or nothing.
#[derive(Clone, Copy)]
pub enum Event {
    Quiet,
    Control { register: Register, value: u64 },
    Video { byte: u8 },
}

// The answer of a call that changes the machine and never refuses.
#[derive(Clone, Copy)]
pub struct Changed {
    pub machine: MachineState,
    pub event: Event,
}

// 1, 2 and 3 (RULES 7.1), and those of memory.
#[derive(Clone, Copy, Debug, PartialEq, Eq)]
pub enum Refusal {
    NotAnAddress,
    IntoImmediate,
    NoScale,
    Memory(mmu::Refusal),
}

impl Refusal {
    // The number of the refusal (RULES 7.1).
    pub fn number(self) -> u64
        ensures { result ≡ refusal_number self }
    {
        match self {
            Refusal::NotAnAddress => 1,
            Refusal::IntoImmediate => 2,
            Refusal::NoScale => 3,
            Refusal::Memory(why) => why.number(),
        }
    }

    // How many slots lack, where it is 6; else 0 (RULES 7.5).
    pub fn lacking(self) -> usize
        ensures { result ≡ slice_index (said_by self) 0 }
    {
        match self {
            Refusal::Memory(why) => why.lacking(),
            _ => 0,
        }
    }
}

// What an accepted call gives: nothing but that it is done, a word, or a truth.
#[derive(Clone, Copy, Debug, PartialEq, Eq)]
pub enum Given {
    Nothing,
    Word(u64),
    Truth(bool),
}

// What a call answers: what it gives, or why it is refused.
pub type Answer = Result<Given, Refusal>;

// The answer of an operation on two given values, which never refuses (RULES 2.14).
#[derive(Clone, Copy)]
pub struct Operated {
    pub machine: MachineState,
    pub given: Given,
}

// What a call that reaches memory, or may, hands back: the machine, the slots in use, the event and the answer (RULES 4.8).
#[derive(Clone, Copy)]
pub struct Answered {
    pub machine: MachineState,
    pub used: usize,
    pub event: Event,
    pub answer: Answer,
}

// An operation that gives no value, compare, is done once its flags are set.
fn operation_given(operation: Operation, value: u64) -> Given
    ensures { result ≡ operation_given operation value }
{
    if arithmetic::gives_value(operation) {
        return Given::Word(value);
    }
    Given::Nothing
}

mod memory; // memory.rt: memory calls, operand values and the stack

impl MachineState {
    // A new machine: all zeros (RULES 2.1).
    pub fn new() -> MachineState
        ensures { result ≡ new_machine }
    {
        MachineState {
            regs: [0; 22],
            rflags: 0,
            gdt: 0,
            idt: 0,
        }
    }

    // The machine as it is now, with no event.
    fn quiet(self) -> Changed
        ensures { result ≡ changed self Quiet }
    {
        Changed {
            machine: self,
            event: Event::Quiet,
        }
    }

    // What a register reads (RULES 2.4). Never refuses.
    #[tactic(auto, using(instruction_set::proofs::Bounds::parent_below), unfolding(crate::specs::Machine::read_reg))]
    pub fn get_register_value(self, register: Register) -> u64
        ensures { result ≡ read_reg self register }
    {
        let parent = instruction_set::get_parent(register);
        let x = self.regs[parent];
        fields::read_part(instruction_set::get_part(register), x)
    }

    // The machine with a register written (RULES 2.4, 2.5). Never refuses; the event of a control register, or none (RULES 2.7).
    #[tactic(auto, using(instruction_set::proofs::Bounds::parent_below, crate::proofs::Controls::control_below, crate::proofs::Controls::control_above), unfolding(crate::specs::Machine::write_reg, crate::specs::Machine::event_of))]
    pub fn set_register_value(mut self, register: Register, value: u64) -> Changed
        ensures { result ≡ changed (write_reg self register value) (event_of register value) }
    {
        let parent = instruction_set::get_parent(register);
        let x = self.regs[parent];
        self.regs[parent] = fields::write_part(instruction_set::get_part(register), x, value);
        if parent < CR0 {
            return self.quiet();
        }
        Changed {
            machine: self,
            event: Event::Control { register, value },
        }
    }

    // Whether a flag is set (RULES 2.9). Never refuses.
    pub fn get_flag(self, flag: Flags) -> bool
        ensures { result ≡ flag_in self flag }
    {
        fields::test_flag(self.rflags, flag)
    }

    // The machine with a flag set or cleared (RULES 2.9). Never refuses; no event.
    pub fn set_flag(mut self, flag: Flags, value: bool) -> Changed
        ensures { result ≡ changed (set_flag self flag value) Quiet }
    {
        self.rflags = fields::with_flag(self.rflags, flag, value);
        self.quiet()
    }

    // The machine with Zero, Sign and Parity of a result: Zero of all 64 bits whatever the size (RULES 2.10). Never refuses; no event.
    pub fn compute_flags(mut self, res: u64, argument_size: ArgumentSize) -> Changed
        ensures { result ≡ changed (compute_flags self res argument_size) Quiet }
    {
        self.rflags = fields::computed_flags(self.rflags, res, argument_size);
        self.quiet()
    }

    // As `compute_flags`, but Zero is of the bits of the size, as the processor has it (RULES 2.11). Never refuses; no event.
    pub fn compute_sized_flags(mut self, res: u64, size: ArgumentSize) -> Changed
        ensures { result ≡ changed (compute_sized_flags self res size) Quiet }
    {
        self.rflags = fields::sized_flags(self.rflags, res, size);
        self.quiet()
    }

    // Adds, subtracts or compares two given values at a size; sets five flags (RULES 2.12 to 2.14). Never refuses; no event.
    #[tactic(auto, unfolding(crate::specs::Operating::operated))]
    pub fn operate(
        mut self,
        operation: Operation,
        size: ArgumentSize,
        first: u64,
        second: u64,
    ) -> Operated
        ensures { result ≡ operated self operation size first second }
    {
        let done = arithmetic::compute(self.rflags, operation, size, first, second);
        self.rflags = done.rflags;
        Operated {
            machine: self,
            given: operation_given(operation, done.value),
        }
    }

    fn base_value(self, base: Option<Register>) -> u64
        ensures { result ≡ base_of self base }
    {
        base.map_or(0, |register| self.get_register_value(register))
    }

    // Base plus displacement plus index times scale, modulo 2^64 (RULES 3.1 to 3.3). Refuses 1, then 3. No event.
    pub fn calculate_effective_address(self, arg: InstructionArgument) -> Result<u64, Refusal>
        ensures { address_outcome result ≡ address_of self arg }
    {
        let InstructionArgument::EffectiveAddress {
            base,
            index,
            scale,
            displacement,
        } = arg
        else {
            return Err(Refusal::NotAnAddress);
        };
        let offset = utils::word_of(i64::from(displacement));
        let address = self.base_value(base).wrapping_add(offset);
        let Some(register) = index else {
            return Ok(address);
        };
        let Some(factor) = scale else {
            return Err(Refusal::NoScale);
        };
        let scaled = utils::wrapping_mul(self.get_register_value(register), u64::from(factor));
        Ok(address.wrapping_add(scaled))
    }
}
