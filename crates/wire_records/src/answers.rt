// From operands and replies to words.
ghost use Rattle.std.specs.Prelude.{◌≡◌, ◌∷◌, []};
ghost use Rattle.wire_records.specs.Answers.{shape_of, value_of, encoded, part_number, scale_number, operand_words};
ghost use Rattle.wire_records.specs.Events.{event_kind, event_register, event_value};

use super::Reply;
use byte_runs::put_words;
use instruction_set::{InstructionArgument, Register};
use machine_state::{Event, Given};
use wire_numbers::register_number;

// The number plus 1, or 0 for absent.
fn part_number(part: Option<Register>) -> u64
    ensures { result ≡ part_number part }
{
    part.map_or(0, |register| register_number(register) + 1)
}

fn scale_number(scale: Option<u8>) -> u64
    ensures { result ≡ scale_number scale }
{
    scale.map_or(0, |factor| u64::from(factor) + 1)
}

// The five words of an operand, as docs/FORMAT.md has them.
pub fn operand_words(argument: InstructionArgument) -> [u64; 5]
    ensures { result ≡ operand_words argument }
{
    match argument {
        InstructionArgument::Immediate { immediate } => [1, 0, 0, 0, immediate],
        InstructionArgument::Register { register } => [2, register_number(register) + 1, 0, 0, 0],
        InstructionArgument::EffectiveAddress {
            base,
            index,
            scale,
            displacement,
        } => [
            3,
            part_number(base),
            part_number(index),
            scale_number(scale),
            utils::word_of(i64::from(displacement)),
        ],
    }
}

// What is said, in two words: 0 nothing, 1 a value or 2 a truth, and then the value, where a truth is 0 or 1.
fn said_words(said: Given) -> [u64; 2]
    ensures { result ≡ shape_of said ∷ value_of said ∷ [] }
{
    match said {
        Given::Nothing => [0, 0],
        Given::Word(value) => [1, value],
        Given::Truth(truth) => [2, u64::from(truth)],
    }
}

// An event in three words: 0 no event, 1 a control register written or 2 a cell of the screen, then the number of the register that it
// names, else 0, and the value written or the byte shown, else 0.
fn event_words(event: Event) -> [u64; 3]
    ensures { result ≡ event_kind event ∷ event_register event ∷ event_value event ∷ [] }
{
    match event {
        Event::Quiet => [0, 0, 0],
        Event::Control { register, value } => [1, register_number(register), value],
        Event::Video { byte } => [2, 0, u64::from(byte)],
    }
}

// The eight words of an answer, with the event and the count of slots in use, as 64 bytes.
#[tactic(auto, unfolding(crate::specs::Answers::encoded, byte_runs::specs::Runs::room))]
pub fn encode(reply: Reply, event: Event, used: usize) -> [u8; 64]
    ensures { result ≡ encoded reply event used }
{
    let [shape, value] = said_words(reply.said);
    let [kind, register, written] = event_words(event);
    let words = [
        reply.refusal,
        shape,
        value,
        kind,
        register,
        written,
        used as u64,
        reply.given as u64,
    ];
    let mut out = [0; 64];
    put_words(&mut out, 0, &words);
    out
}
