// A host keeps one machine and lends it: a flag is set in the machine behind a reference, through the by-value call of machine_state,
// from Rattle (`set_flag`) or from C and Rust (`ruonasvel_set_flag`); and, from C and Rust, two values are added, subtracted or compared
// with its rflags (`ruonasvel_arithmetic`), the flags of a result are computed at its size (`ruonasvel_compute_sized_flags`), or bytes
// are written to a lent store, which grows by as many slots as the answer says that lack (`ruonasvel_mem_write`). Below are instruction_set
// and machine_state, arithmetic, which has the operations, fields, which has the flags of a result, `wire_numbers`, which names operations
// and sizes, and mmu, which writes memory; above is `host_c`, by which C and Rust have these calls under the same names.
// It carries RULES 9.8; what the calls do is RULES 2.9, 2.11, 2.12 to 2.14 and 4.1, and the numbers of flags are those of 2.8.
#![tactic(auto)]

ghost use Rattle.std.specs.Prelude.{◌≡◌, get_or};
ghost use Rattle.store.specs.Store.{store_of};
ghost use Rattle.mmu.specs.Calls.{memory_outcome};
ghost use Rattle.instruction_set.specs.Flags.{flag_at};
ghost use Rattle.machine_state.specs.Flagged.{set_flag};
ghost use Rattle.wire_numbers.specs.Numbers.{size_at, operation_at};
ghost use Rattle.host.specs.Numbered.{names_flag, is_set, set_numbered};
ghost use Rattle.host.specs.LentWords.{lent_after, unnamed_answer, named_answer, answer_to, operated_on, names_size, sized_flags_on};
ghost use Rattle.host.specs.LentStore.{says_first, shows_byte, byte_shown, WroteLent};

use arithmetic::Operation;
use instruction_set::Flags;
use machine_state::{CR3, MachineState};

// The machine's 25 words are its fields in their order (RULES 9.8): CR3 is among the first 22, and rflags follow these. They are an array
// and no struct, for C lends them so (host/ruonasvel.h).
const RFLAGS: usize = 22;

// Sets or clears a flag of the machine that is lent (RULES 2.9, 9.8). Never refuses; the by-value call's event is always Quiet.
pub fn set_flag(m: &mut MachineState, flag: Flags, value: bool)
    ensures { m.new ≡ set_flag m.old flag value }
{
    *m = (*m).set_flag(flag, value).machine;
}

// Sets a flag by its number (RULES 2.8): 0 clears, any other value sets. Answers false, and changes nothing, where none has it.
#[tactic(auto, unfolding(crate::specs::Numbered::set_numbered))]
pub fn ruonasvel_set_flag(m: &mut MachineState, flag: u64, value: u64) -> bool
    ensures { (m.new ≡ set_numbered m.old (flag_at flag) (is_set value)) × (result ≡ names_flag (flag_at flag)) }
{
    let Some(known) = instruction_set::flag_at(flag) else {
        return false;
    };
    set_flag(m, known, value != 0);
    true
}

// What an operation by number answers: `known` is 0 where a number names nothing, `answers` where there is no value. C reads it
// (host/ruonasvel.h), which has no Option; so too `WriteAnswer`.
#[repr(C)]
#[derive(Clone, Copy)]
pub struct ArithmeticAnswer {
    pub known: u64,
    pub answers: u64,
    pub value: u64,
}

// Adds, subtracts or compares on a machine lent as its 25 words (RULES 2.12 to 2.14). Where a number names nothing, no word changes.
#[tactic(auto, unfolding(crate::specs::LentWords::operated_on))]
pub fn ruonasvel_arithmetic(
    machine: &mut [u64; 25],
    operation: u64,
    size: u64,
    first: u64,
    second: u64,
) -> ArithmeticAnswer
    ensures { lent_after machine.new result ≡ operated_on (operation_at operation) (size_at size) machine.old first second }
{
    let Some(chosen) = wire_numbers::operation_at(operation) else {
        return unnamed();
    };
    let Some(width) = wire_numbers::size_at(size) else {
        return unnamed();
    };
    let computed = arithmetic::compute(machine[RFLAGS], chosen, width, first, second);
    machine[RFLAGS] = computed.rflags;
    answer_to(chosen, computed.value)
}

fn unnamed() -> ArithmeticAnswer
    ensures { result ≡ unnamed_answer }
{
    ArithmeticAnswer {
        known: 0,
        answers: 0,
        value: 0,
    }
}

fn named(answers: u64, value: u64) -> ArithmeticAnswer
    ensures { result ≡ named_answer answers value }
{
    ArithmeticAnswer {
        known: 1,
        answers,
        value,
    }
}

// What an operation that both numbers name answers: its value, if it gives one.
fn answer_to(operation: Operation, value: u64) -> ArithmeticAnswer
    ensures { result ≡ answer_to operation value }
{
    if arithmetic::gives_value(operation) {
        return named(1, value);
    }
    named(0, 0)
}

// The flags of a result at its size (RULES 2.11), in the 25 words. Answers false, and changes none, where no size has the number.
#[tactic(auto, unfolding(crate::specs::LentWords::sized_flags_on))]
pub fn ruonasvel_compute_sized_flags(machine: &mut [u64; 25], res: u64, size: u64) -> bool
    ensures { (machine.new ≡ sized_flags_on (size_at size) machine.old res) × (result ≡ names_size (size_at size)) }
{
    let Some(width) = wire_numbers::size_at(size) else {
        return false;
    };
    machine[RFLAGS] = fields::sized_flags(machine[RFLAGS], res, width);
    true
}

// What a write answers: the refusal's number, or 0; how many slots lack where that is 6 (RULES 7.5); the slots in use afterwards; whether
// the screen shows a byte (1), and which.
#[repr(C)]
#[derive(Clone, Copy)]
pub struct WriteAnswer {
    pub refusal: u64,
    pub lacking: u64,
    pub used: usize,
    pub shows: u64,
    pub byte: u64,
}

// Bytes go to an address of a lent store (RULES 4.1); of the 25 words CR3 is read. Refuses 4, then 5, then 6; may show a byte.
pub fn ruonasvel_mem_write(
    machine: &[u64; 25],
    address: u64,
    data: &[u8],
    dir: &mut [u64],
    bytes: &mut [u8],
    used: usize,
) -> WriteAnswer
    ensures { WroteLent machine.now (store_of dir.old bytes.old used)
        (store_of dir.new bytes.new result.used) address «data».now result }
{
    let written = mmu::mem_write(machine[CR3], address, data, dir, bytes, used);
    WriteAnswer {
        refusal: refusal_of(written.answer),
        lacking: lacking_of(written.answer),
        used: written.used,
        shows: shows_byte(written.shown),
        byte: byte_shown(written.shown),
    }
}

fn refusal_of(answer: Result<(), mmu::Refusal>) -> u64
    ensures { result ≡ (memory_outcome answer).number }
{
    match answer {
        Ok(()) => 0,
        Err(why) => why.number(),
    }
}

fn lacking_of(answer: Result<(), mmu::Refusal>) -> u64
    ensures { result ≡ says_first (memory_outcome answer) }
{
    match answer {
        Ok(()) => 0,
        Err(why) => why.lacking() as u64,
    }
}

fn shows_byte(shown: Option<u8>) -> u64
    ensures { result ≡ shows_byte shown }
{
    u64::from(shown.is_some())
}

fn byte_shown(shown: Option<u8>) -> u64
    ensures { result ≡ byte_shown shown }
{
    shown.map_or(0, u64::from)
}
