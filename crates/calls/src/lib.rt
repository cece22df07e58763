// Every tabled call as one value, and the function that carries one out. Below is machine_state, whose methods do the work; above are
// `effects`, which says which places a call reads and rewrites, `wire_records` and `wire_session`, which read calls from outside, and the
// programs.
// The arguments of a call are fixed in its value; the bytes that push and write memory write, and the buffer that read memory fills, are
// lent beside it, and so are the store's slices and its count, one by one, as machine_state takes them.
// It carries the list of calls of RULES 8.2, without what is no tabled call, 8.7; what each does is RULES 2.9 to 2.14, 3.1, 4.1, 4.3, 5.2
// and 5.3.
#![tactic(auto)]

ghost use Rattle.std.specs.Prelude.{◌≡◌};
ghost use Rattle.store.specs.Store.{store_of};
ghost use Rattle.machine_state.specs.Operating.{operated};
ghost use Rattle.machine_state.specs.Answers.{finished, result_of};
ghost use Rattle.calls.specs.Step.{step};

use arithmetic::Operation;
use instruction_set::{ArgumentSize, Flags, InstructionArgument};
use machine_state::{Answer, Answered, Event, Given, MachineState};

// A tabled call with its arguments (RULES 8.2).
#[derive(Clone, Copy)]
pub enum Call {
    ReadOperand {
        argument: InstructionArgument,
        size: ArgumentSize,
    },
    WriteOperand {
        argument: InstructionArgument,
        size: ArgumentSize,
        value: u64,
    },
    EffectiveAddress {
        argument: InstructionArgument,
    },
    Push,
    Pop,
    ReadMemory {
        address: u64,
    },
    WriteMemory {
        address: u64,
    },
    TestFlag {
        flag: Flags,
    },
    SetFlag {
        flag: Flags,
        value: bool,
    },
    ComputeFlags {
        result: u64,
        size: ArgumentSize,
    },
    ComputeSizedFlags {
        result: u64,
        size: ArgumentSize,
    },
    Arithmetic {
        operation: Operation,
        size: ArgumentSize,
        first: u64,
        second: u64,
    },
}

// An operation shows nothing and leaves the count.
fn operate(
    machine: MachineState,
    operation: Operation,
    size: ArgumentSize,
    first: u64,
    second: u64,
    used: usize,
) -> Answered
    ensures { result ≡ finished (operated machine operation size first second).machine used
        (Ok (operated machine operation size first second).given) }
{
    let done = machine.operate(operation, size, first, second);
    done.machine.quietly(used, Ok(done.given))
}

// Carries out one call on a machine and a lent store. Refuses with the lowest of 1 to 6 that holds (RULES 7.2); yields the call's event.
#[tactic(auto, unfolding(crate::specs::Step::step))]
pub fn perform(
    call: Call,
    lent: &mut [u8],
    machine: MachineState,
    dir: &mut [u64],
    bytes: &mut [u8],
    used: usize,
) -> Answered
    ensures { result_of result dir.new bytes.new lent.new
        ≡ step call machine (store_of dir.old bytes.old used) lent.old }
{
    match call {
        Call::ReadOperand { argument, size } => machine.get_value(argument, size, dir, bytes, used),
        Call::WriteOperand {
            argument,
            size,
            value,
        } => machine.set_value(value, argument, size, dir, bytes, used),
        Call::EffectiveAddress { argument } => {
            let address = machine.calculate_effective_address(argument);
            machine.quietly(used, address.map(Given::Word))
        }
        Call::Push => machine.stack_push(lent, dir, bytes, used),
        Call::Pop => machine.stack_pop(dir, bytes, used),
        Call::ReadMemory { address } => machine.mem_read(address, lent, dir, bytes, used),
        Call::WriteMemory { address } => machine.mem_write(address, lent, dir, bytes, used),
        Call::TestFlag { flag } => machine.quietly(used, Ok(Given::Truth(machine.get_flag(flag)))),
        Call::SetFlag { flag, value } => machine
            .set_flag(flag, value)
            .machine
            .quietly(used, Ok(Given::Nothing)),
        Call::ComputeFlags { result, size } => machine
            .compute_flags(result, size)
            .machine
            .quietly(used, Ok(Given::Nothing)),
        Call::ComputeSizedFlags { result, size } => machine
            .compute_sized_flags(result, size)
            .machine
            .quietly(used, Ok(Given::Nothing)),
        Call::Arithmetic {
            operation,
            size,
            first,
            second,
        } => operate(machine, operation, size, first, second, used),
    }
}
