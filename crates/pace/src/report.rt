// The exposed report of 64 calls: each turn puts another call into the list, and the sum takes in one place of the report. And whether
// two calls are dependent: one by the sum, the other from the list.
use super::registers::{any_name, any_operand};
use super::{mix, scatter};
use calls::Call;
use instruction_set::{ArgumentSize, Flags, InstructionArgument};

// A call of one of eight kinds, by the sum.
fn any_call(x: u64) -> Call {
    let size = ArgumentSize::Bit32;
    let register = InstructionArgument::Register {
        register: any_name(x),
    };
    match x / 16 % 8 {
        0 => Call::ReadOperand {
            argument: register,
            size,
        },
        1 => Call::WriteOperand {
            argument: register,
            size,
            value: x,
        },
        2 => Call::ReadOperand {
            argument: any_operand(x),
            size,
        },
        3 => Call::Push,
        4 => Call::WriteMemory { address: x },
        5 => Call::TestFlag { flag: Flags::Zero },
        6 => Call::SetFlag {
            flag: Flags::Carry,
            value: true,
        },
        _ => Call::ComputeFlags { result: x, size },
    }
}

fn some_calls() -> [Call; 64] {
    let mut list = [Call::Pop; 64];
    scatter(&mut list, 1, |x| any_call(x >> 30));
    list
}

// A turn is a report of 64 calls, one of which is new.
pub(crate) fn reports(turns: u64) -> u64 {
    let mut list = some_calls();
    let mut sum = 1;
    for _ in 0..turns {
        list[(sum >> 50) as usize % 64] = any_call(sum >> 30);
        let report = exposed::exposed_places(&list, 64);
        let exposed = report.places[(sum >> 40) as usize % 182];
        sum = mix(sum, u64::from(exposed));
    }
    sum
}

// A turn asks of two calls whether they are dependent.
pub(crate) fn dependences(turns: u64) -> u64 {
    let list = some_calls();
    let mut sum = 1;
    for _ in 0..turns {
        let other = list[(sum >> 50) as usize % 64];
        let answer = neighbours::depends(any_call(sum >> 30), other);
        sum = mix(sum, u64::from(answer));
    }
    sum
}
