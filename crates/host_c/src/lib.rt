// What C and Rust link to: the calls of `host` under their exported names, each with the clauses that it has there. It does nothing itself, so
// that `host` stays a library of Rattle, whose `set_flag` a crate can call. host/ruonasvel.h declares these functions, and tools/link links
// them to programs in C. Below is host; above is only the program that links it.
// It carries RULES 9.8, with what host carries.
#![tactic(auto)]

ghost use Rattle.std.specs.Prelude.{◌≡◌};
ghost use Rattle.store.specs.Store.{store_of};
ghost use Rattle.instruction_set.specs.Flags.{flag_at};
ghost use Rattle.wire_numbers.specs.Numbers.{size_at, operation_at};
ghost use Rattle.host.specs.Numbered.{names_flag, is_set, set_numbered};
ghost use Rattle.host.specs.LentWords.{lent_after, operated_on, names_size, sized_flags_on};
ghost use Rattle.host.specs.LentStore.{WroteLent};

use host::{ArithmeticAnswer, WriteAnswer};
use machine_state::MachineState;

// Sets a flag by its number (RULES 2.8): 0 clears, any other value sets. Answers false, and changes nothing, where none has it.
#[unsafe(no_mangle)]
pub extern "C" fn ruonasvel_set_flag(m: &mut MachineState, flag: u64, value: u64) -> bool
    ensures { (m.new ≡ set_numbered m.old (flag_at flag) (is_set value)) × (result ≡ names_flag (flag_at flag)) }
{
    host::ruonasvel_set_flag(m, flag, value)
}

// Adds, subtracts or compares on a machine lent as its 25 words (RULES 2.12 to 2.14). Where a number names nothing, no word changes.
#[unsafe(no_mangle)]
pub extern "C" fn ruonasvel_arithmetic(
    machine: &mut [u64; 25],
    operation: u64,
    size: u64,
    first: u64,
    second: u64,
) -> ArithmeticAnswer
    ensures { lent_after machine.new result ≡ operated_on (operation_at operation) (size_at size) machine.old first second }
{
    host::ruonasvel_arithmetic(machine, operation, size, first, second)
}

// The flags of a result at its size (RULES 2.11), in the 25 words. Answers false, and changes none, where no size has the number.
#[unsafe(no_mangle)]
pub extern "C" fn ruonasvel_compute_sized_flags(
    machine: &mut [u64; 25],
    res: u64,
    size: u64,
) -> bool
    ensures { (machine.new ≡ sized_flags_on (size_at size) machine.old res) × (result ≡ names_size (size_at size)) }
{
    host::ruonasvel_compute_sized_flags(machine, res, size)
}

// Bytes go to an address of a lent store (RULES 4.1); of the 25 words CR3 is read. Refuses 4, then 5, then 6; may show a byte.
#[unsafe(no_mangle)]
pub extern "C" fn ruonasvel_mem_write(
    machine: &[u64; 25],
    address: u64,
    data: &[u8],
    dir: &mut [u64],
    bytes: &mut [u8],
    used: usize,
) -> WriteAnswer
    ensures { WroteLent machine.now (store_of dir.old bytes.old used)
        (store_of dir.new bytes.new result.used) address data.now result }
{
    host::ruonasvel_mem_write(machine, address, data, dir, bytes, used)
}
