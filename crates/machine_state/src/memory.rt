// The calls that reach memory: reads and writes by address (RULES 4.1), operand values (5.2, 5.3), and the stack (4.3). A store is lent
// to each: the directory, the bytes and the count of slots in use. Every call takes the machine and hands it back with the count, the
// event and the answer (4.8). Memory itself is mmu's; one call here reads it and one writes it, and all others go through these two.
// `dir`, `bytes` and `used` are lent as three, for any may be lent, and what is no store is refused by mmu (RULES 3.5, 4.8).
ghost use Rattle.std.specs.Prelude.{◌≡◌, []};
ghost use Rattle.store.specs.Store.{store_of};
ghost use Rattle.machine_state.specs.Answers.{finished, result_of};
ghost use Rattle.machine_state.specs.Memory.{event_shown, read_memory, write_memory, loaded, stored_at, read_operand, write_operand};
ghost use Rattle.machine_state.specs.Memory.{pushed, popped};
ghost use Rattle.machine_state.specs.Private.{from_memory, given_value, given_rsp};
ghost use Rattle.instruction_set.specs.declared.ArgumentSize.TheVariants.{Bit8};
ghost use Rattle.machine_state.specs.declared.Refusal.TheVariants.{Memory};

use crate::{Answer, Answered, CR3, Event, Given, MachineState, Refusal};
use instruction_set::{ArgumentSize, InstructionArgument};

// The parent number of RSP (RULES 2.2).
const RSP: usize = 4;

// The event of a write that shows this on the screen (RULES 4.5).
fn event_shown(shown: Option<u8>) -> Event
    ensures { result ≡ event_shown shown }
{
    shown.map_or(Event::Quiet, |byte| Event::Video { byte })
}

impl From<mmu::Refusal> for Refusal {
    ghost from_gives = { λ why refusal. refusal ≡ Memory why };

    fn from(why: mmu::Refusal) -> Refusal {
        Refusal::Memory(why)
    }
}

// Memory's answer as the machine's.
fn from_memory(answer: Result<(), mmu::Refusal>) -> Answer
    ensures { result ≡ from_memory answer }
{
    answer?;
    Ok(Given::Nothing)
}

impl Answered {
    // The value that the call read, where it was accepted.
    fn with_value(mut self, value: u64) -> Answered
        ensures { result ≡ given_value self value }
    {
        self.answer = self.answer.map(|_| Given::Word(value));
        self
    }

    // rsp moves only where the call was accepted.
    fn with_rsp(mut self, rsp: u64) -> Answered
        ensures { result ≡ given_rsp self rsp }
    {
        if self.answer.is_ok() {
            self.machine.regs[RSP] = rsp;
        }
        self
    }
}

impl MachineState {
    // The answer of a call that leaves the machine and the count as they are, with no event.
    pub fn quietly(self, used: usize, answer: Answer) -> Answered
        ensures { result ≡ finished self used answer }
    {
        Answered {
            machine: self,
            used,
            event: Event::Quiet,
            answer,
        }
    }

    // The bytes at an address fill `out` (RULES 4.1). Refuses 4, then 5. No event.
    pub fn mem_read(
        mut self,
        address: u64,
        out: &mut [u8],
        dir: &[u64],
        bytes: &[u8],
        used: usize,
    ) -> Answered
        ensures { result_of result dir.now bytes.now out.new
            ≡ read_memory self (store_of dir.now bytes.now used) address out.old }
    {
        let cr3 = self.regs[CR3];
        let answer = mmu::mem_read(cr3, address, out, dir, bytes, used);
        self.quietly(used, from_memory(answer))
    }

    // `data` goes to the bytes at an address (RULES 4.1). Refuses 4, then 5, then 6; the video event, or none (RULES 4.5).
    pub fn mem_write(
        mut self,
        address: u64,
        data: &[u8],
        dir: &mut [u64],
        bytes: &mut [u8],
        used: usize,
    ) -> Answered
        ensures { result_of result dir.new bytes.new «data».now
            ≡ write_memory self (store_of dir.old bytes.old used) address «data».now }
    {
        let cr3 = self.regs[CR3];
        let written = mmu::mem_write(cr3, address, data, dir, bytes, used);
        let event = event_shown(written.shown);
        let answer = from_memory(written.answer);
        Answered {
            machine: self,
            used: written.used,
            event,
            answer,
        }
    }

    // The value at an address: the bytes of the size, low byte first, Bit16 and Bit32 sign-extended, Bit8 with zeros above it, Bit64 as
    // it is (RULES 4.2).
    fn load(
        mut self,
        address: u64,
        size: ArgumentSize,
        dir: &[u64],
        bytes: &[u8],
        used: usize,
    ) -> Answered
        ensures { result_of result dir.now bytes.now []
            ≡ loaded self (store_of dir.now bytes.now used) address size }
    {
        let n = instruction_set::size_bytes(size);
        let mut word = [0u8; 8];
        let read = self.mem_read(address, &mut word[..n], dir, bytes, used);
        let value = fields::memory_value(utils::bytes_to_word(word), size);
        read.with_value(value)
    }

    // The low bytes of a value, as many as the size has, go to an address (RULES 4.2).
    fn store(
        mut self,
        address: u64,
        size: ArgumentSize,
        value: u64,
        dir: &mut [u64],
        bytes: &mut [u8],
        used: usize,
    ) -> Answered
        ensures { result_of result dir.new bytes.new []
            ≡ stored_at self (store_of dir.old bytes.old used) address size value }
    {
        let n = instruction_set::size_bytes(size);
        let word = utils::word_to_bytes(value);
        self.mem_write(address, &word[..n], dir, bytes, used)
    }

    // The byte at an address, with zeros above it (RULES 4.4). Refuses 4. No event.
    pub fn mem_read_byte(mut self, address: u64, dir: &[u64], bytes: &[u8], used: usize) -> Answered
        ensures { result_of result dir.now bytes.now []
            ≡ loaded self (store_of dir.now bytes.now used) address Bit8 }
    {
        self.load(address, ArgumentSize::Bit8, dir, bytes, used)
    }

    // The value of an operand: a register ignores the size, and an immediate reads whole (RULES 5.2). Refuses 3, then 4. No event.
    #[tactic(auto, using(crate::proofs::Steps::address_refused), unfolding(crate::specs::Memory::read_operand))]
    pub fn get_value(
        mut self,
        arg: InstructionArgument,
        argument_size: ArgumentSize,
        dir: &[u64],
        bytes: &[u8],
        used: usize,
    ) -> Answered
        ensures { result_of result dir.now bytes.now []
            ≡ read_operand self (store_of dir.now bytes.now used) arg argument_size }
    {
        match arg {
            InstructionArgument::Register { register } => {
                self.quietly(used, Ok(Given::Word(self.get_register_value(register))))
            }
            InstructionArgument::Immediate { immediate } => {
                self.quietly(used, Ok(Given::Word(immediate)))
            }
            InstructionArgument::EffectiveAddress { .. } => {
                match self.calculate_effective_address(arg) {
                    Ok(at) => self.load(at, argument_size, dir, bytes, used),
                    Err(why) => self.quietly(used, Err(why)),
                }
            }
        }
    }

    // Writes an operand: a register ignores the size (RULES 5.3). Refuses 2, 3, 4, 6 in this order; a control or video event, or none.
    #[tactic(auto, using(crate::proofs::Steps::address_refused), unfolding(crate::specs::Memory::write_operand))]
    pub fn set_value(
        mut self,
        value: u64,
        arg: InstructionArgument,
        argument_size: ArgumentSize,
        dir: &mut [u64],
        bytes: &mut [u8],
        used: usize,
    ) -> Answered
        ensures { result_of result dir.new bytes.new []
            ≡ write_operand self (store_of dir.old bytes.old used) arg argument_size value }
    {
        match arg {
            InstructionArgument::Register { register } => {
                let changed = self.set_register_value(register, value);
                Answered {
                    machine: changed.machine,
                    used,
                    event: changed.event,
                    answer: Ok(Given::Nothing),
                }
            }
            InstructionArgument::Immediate { .. } => {
                self.quietly(used, Err(Refusal::IntoImmediate))
            }
            InstructionArgument::EffectiveAddress { .. } => {
                match self.calculate_effective_address(arg) {
                    Ok(at) => self.store(at, argument_size, value, dir, bytes, used),
                    Err(why) => self.quietly(used, Err(why)),
                }
            }
        }
    }

    // Writes `data` at rsp less its length, and rsp moves there (RULES 4.3). Refuses 4, 5, 6, and rsp stays; a video event, or none.
    pub fn stack_push(
        mut self,
        data: &[u8],
        dir: &mut [u64],
        bytes: &mut [u8],
        used: usize,
    ) -> Answered
        ensures { result_of result dir.new bytes.new «data».now
            ≡ pushed self (store_of dir.old bytes.old used) «data».now }
    {
        let to = self.regs[RSP].wrapping_sub(data.len() as u64);
        let written = self.mem_write(to, data, dir, bytes, used);
        written.with_rsp(to)
    }

    // The eight bytes at rsp as a value, then rsp is 8 more (RULES 4.3). Refuses 4, and rsp stays. No event.
    pub fn stack_pop(mut self, dir: &[u64], bytes: &[u8], used: usize) -> Answered
        ensures { result_of result dir.now bytes.now []
            ≡ popped self (store_of dir.now bytes.now used) }
    {
        let rsp = self.regs[RSP];
        let read = self.load(rsp, ArgumentSize::Bit64, dir, bytes, used);
        read.with_rsp(rsp.wrapping_add(8))
    }
}
