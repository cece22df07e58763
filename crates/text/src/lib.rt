// The texts of the machine: registers, operands, the arguments record, the state and the event lines, each into a buffer that the caller
// lends. Below are the writers: `text_pieces`, on it text_names, on that text_operands and text_state, which show the values of
// instruction_set and machine_state. Above are the programs, and `wire_session`, whose answers are compared with the Rust's. A text is
// measured first, over an empty buffer, and written second by the same writer (`measured`): a refused text leaves every byte.
// It carries RULES 6.1 and 6.3 to 6.9, and refusals 9, 8, 3 and 7 in their order (7.3).
#![tactic(auto)]

ghost use Rattle.std.specs.Prelude.{◌≡◌, ℕ, List};
ghost use Rattle.text.specs.declared.Refusal.TheVariants.{Arguments};
ghost use Rattle.instruction_set.specs.declared.ArgumentSize.TheVariants.{Bit64};
ghost use Rattle.text.specs.Answers.{text_number, TextWritten, text_is, text_outcome, Puts};
ghost use Rattle.text.specs.Arguments.{operand_answer, list_answer, arguments_text};
ghost use Rattle.text_state.specs.Lines.{state_text, event_text};
ghost use Rattle.text_names.specs.Names.{register_text};

use instruction_set::{ArgumentSize, InstructionArgument, InstructionArguments, Register};
use machine_state::{Event, MachineState};

// 3, 7, and of the arguments record 8 and 9 (RULES 7.1).
#[derive(Clone, Copy, Debug, PartialEq, Eq)]
pub enum Refusal {
    NoScale,
    TooLong,
    Arguments(instruction_set::Refusal),
}

impl Refusal {
    // The refusal's number.
    pub fn number(self) -> u64
        ensures { result ≡ text_number self }
    {
        match self {
            Refusal::NoScale => 3,
            Refusal::TooLong => 7,
            Refusal::Arguments(deeper) => deeper.number(),
        }
    }
}

impl From<instruction_set::Refusal> for Refusal {
    ghost from_gives = { λ why refusal. refusal ≡ Arguments why };

    fn from(why: instruction_set::Refusal) -> Refusal {
        Refusal::Arguments(why)
    }
}

// A text of this length is refused with 7, or written (RULES 6.1). Who calls it has measured by a call of the same writer over an empty
// buffer, which compiles to a count: with both calls made here, by the closure, a state's text took 11,377 instructions, and not 8,100.
fn measured<F: FnOnce(&mut [u8]) -> usize>(
    length: usize,
    put: F,
    out: &mut [u8],
) -> Result<usize, Refusal>
    requires { F.IsAlwaysCallable put }
    ensures { (text : List ℕ) → Puts length (F.post put) text → TextWritten (text_is text) out.old out.new (text_outcome result) }
{
    if out.len() < length {
        return Err(Refusal::TooLong);
    }
    put(out);
    Ok(length)
}

// Refusal 3, then 7 (RULES 7.3).
fn write_list(
    first: InstructionArgument,
    second: Option<InstructionArgument>,
    size: ArgumentSize,
    out: &mut [u8],
) -> Result<usize, Refusal>
    ensures { TextWritten (list_answer size first second) out.old out.new (text_outcome result) }
{
    if text_operands::lacks_scale(first) || text_operands::some_lacks_scale(second) {
        return Err(Refusal::NoScale);
    }
    let length = text_operands::put_list(&mut [], first, second, size);
    measured(
        length,
        |to| text_operands::put_list(to, first, second, size),
        out,
    )
}

// A register: `%` and its name (RULES 6.3). Refuses 7. No event.
pub fn register_text(register: Register, out: &mut [u8]) -> Result<usize, Refusal>
    ensures { TextWritten (text_is (register_text register)) out.old out.new (text_outcome result) }
{
    argument_text(InstructionArgument::Register { register }, out)
}

// One operand at a size: the Rust's `format` (RULES 6.3 to 6.5). Refuses 3, then 7. No event.
pub fn format(
    argument: InstructionArgument,
    size: ArgumentSize,
    out: &mut [u8],
) -> Result<usize, Refusal>
    ensures { TextWritten (operand_answer size argument) out.old out.new (text_outcome result) }
{
    write_list(argument, None, size, out)
}

// One operand without a size, the Rust's `Display`: an immediate whole (RULES 6.3 to 6.5). Refuses 3, then 7. No event.
pub fn argument_text(argument: InstructionArgument, out: &mut [u8]) -> Result<usize, Refusal>
    ensures { TextWritten (operand_answer Bit64 argument) out.old out.new (text_outcome result) }
{
    format(argument, ArgumentSize::Bit64, out)
}

// No operand, one, or two, at the size that `size()` selects (RULES 6.6). Refuses 9, 8, 3, 7 in this order. No event.
pub fn arguments_text(arguments: InstructionArguments, out: &mut [u8]) -> Result<usize, Refusal>
    ensures { TextWritten (arguments_text arguments) out.old out.new (text_outcome result) }
{
    match (arguments.first_argument, arguments.second_argument) {
        (None, None) => Ok(0),
        (None, Some(_)) => Err(Refusal::Arguments(instruction_set::Refusal::NoFirst)),
        (Some(first), second) => write_list(first, second, arguments.size()?, out),
    }
}

// The 17 lines of the state, with no newline after the last (RULES 6.7). Refuses 7. No event.
pub fn state_text(machine: MachineState, out: &mut [u8]) -> Result<usize, Refusal>
    ensures { TextWritten (text_is (state_text machine)) out.old out.new (text_outcome result) }
{
    let length = text_state::put_state(&mut [], machine.regs);
    measured(length, |to| text_state::put_state(to, machine.regs), out)
}

// The line of an event, without a newline: who prints it adds one (RULES 6.8). Refuses 7. No event of its own.
pub fn event_text(event: Event, out: &mut [u8]) -> Result<usize, Refusal>
    ensures { TextWritten (text_is (event_text event)) out.old out.new (text_outcome result) }
{
    let length = text_state::put_event(&mut [], event);
    measured(length, |to| text_state::put_event(to, event), out)
}
