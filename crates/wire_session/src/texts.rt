// The texts: a text's length, or its refusal; the whole buffer follows.
ghost use Rattle.std.specs.Prelude.{◌≡◌, Some};
ghost use Rattle.machine_state.specs.Memory.{word_outcome};
ghost use Rattle.text.specs.Answers.{text_outcome, text_is};
ghost use Rattle.text_state.specs.Lines.{state_text};
ghost use Rattle.wire_session.specs.Replies.{reply_of};
ghost use Rattle.wire_session.specs.Texts.{Texts, asked, operand_asked, arguments_asked, event_asked, plain_asked, register_asked};

use super::replies::{refused, value};
use instruction_set::InstructionArgument;
use machine_state::MachineState;
use text::Refusal;
use wire_records::{Header, Reply, TextKind};

// `size` and the report's `reply` do the same with another value and another refusal: one function of all would be given both by closures.
fn reply(text: Result<usize, Refusal>, given: usize) -> Reply
    ensures { result ≡ reply_of (word_outcome (text_outcome text)) given }
{
    match text {
        Ok(length) => value(length as u64, given),
        Err(why) => refused(why.number(), given),
    }
}

#[tactic(auto, unfolding(crate::specs::Texts::operand_asked))]
fn operand(header: Header, lent: &mut [u8]) -> Option<Reply>
    ensures { Texts (operand_asked header) lent.old result lent.new }
{
    let n = lent.len();
    let argument = wire_records::given_operand(header.first)?;
    let size = wire_numbers::size_at(header.size)?;
    Some(reply(text::format(argument, size, lent), n))
}

// The repeats do not show in the text: b and c are the buffer.
#[tactic(auto, unfolding(crate::specs::Texts::arguments_asked))]
fn arguments(header: Header, lent: &mut [u8]) -> Option<Reply>
    ensures { Texts (arguments_asked header) lent.old result lent.new }
{
    let n = lent.len();
    let arguments = wire_records::decode_arguments(header, 0, 0)?;
    Some(reply(text::arguments_text(arguments, lent), n))
}

fn state(machine: MachineState, lent: &mut [u8]) -> Reply
    ensures { Texts (Some (text_is (state_text machine))) lent.old (Some result) lent.new }
{
    let n = lent.len();
    reply(text::state_text(machine, lent), n)
}

#[tactic(auto, unfolding(crate::specs::Texts::event_asked))]
fn event(header: Header, lent: &mut [u8]) -> Option<Reply>
    ensures { Texts (event_asked header) lent.old result lent.new }
{
    let n = lent.len();
    let event = wire_records::decode_event(header.first)?;
    Some(reply(text::event_text(event, lent), n))
}

#[tactic(auto, unfolding(crate::specs::Texts::plain_asked))]
fn plain(header: Header, lent: &mut [u8]) -> Option<Reply>
    ensures { Texts (plain_asked header) lent.old result lent.new }
{
    let n = lent.len();
    let argument = wire_records::given_operand(header.first)?;
    Some(reply(text::argument_text(argument, lent), n))
}

#[tactic(auto, unfolding(crate::specs::Texts::register_asked))]
fn register(header: Header, lent: &mut [u8]) -> Option<Reply>
    ensures { Texts (register_asked header) lent.old result lent.new }
{
    let n = lent.len();
    match wire_records::given_operand(header.first)? {
        InstructionArgument::Register { register } => {
            Some(reply(text::register_text(register, lent), n))
        }
        _ => None,
    }
}

// The text that a record asks for.
pub(crate) fn text(
    kind: TextKind,
    header: Header,
    machine: MachineState,
    lent: &mut [u8],
) -> Option<Reply>
    ensures { Texts (asked kind header machine) lent.old result lent.new }
{
    match kind {
        TextKind::OperandText => operand(header, lent),
        TextKind::ArgumentsText => arguments(header, lent),
        TextKind::StateText => Some(state(machine, lent)),
        TextKind::EventText => event(header, lent),
        TextKind::PlainText => plain(header, lent),
        TextKind::RegisterText => register(header, lent),
    }
}
