// The state program (RULES 10.15): no input; RAX -1, AH 0x1234, R8D -1, a push of 8 bytes; then the state's 17 lines, with no newline at
// the end. It stands on text and machine_state and does nothing itself; `rt` compares what it writes with the file stdout beside this
// folder.
#![tactic(auto)]

use instruction_set::Register;
use machine_state::MachineState;
use std::io;

fn main(rt: HostRuntime) -> io::Result<()> {
    let whole = MachineState::new().set_register_value(Register::RAX, u64::MAX);
    let high = whole.machine.set_register_value(Register::AH, 0x1234);
    let low = high.machine.set_register_value(Register::R8D, u64::MAX);
    let mut dir = [0; 1];
    let mut bytes = [0; 4096];
    let pushed = low.machine.stack_push(b"8 bytes.", &mut dir, &mut bytes, 0);
    let mut out = [0; 577];
    match text::state_text(pushed.machine, &mut out) {
        Ok(n) => rt.write_all(&out[..n]),
        Err(_) => eprintln!(rt; "the state's text is longer than 577 bytes"),
    }
}
