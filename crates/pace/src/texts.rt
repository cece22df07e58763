// Texts of operands and of the state: the sum takes in the length and eight bytes. Texts of operands read back: it takes in the operand's
// words.
ghost use Rattle.std.specs.Prelude.{◌≤◌};

use super::mix;
use super::registers::{any_operand, some_machine};
use instruction_set::{ArgumentSize, InstructionArgument};
use reading_operands::NotOperandText;

fn length_of(said: Result<usize, text::Refusal>) -> u64 {
    said.map_or(1000, |n| n as u64)
}

// A turn prints the operand that the sum picks.
pub(crate) fn operands(turns: u64) -> u64 {
    let mut sum = 1;
    for _ in 0..turns {
        let mut out = [0; 28];
        let said = text::format(any_operand(sum), ArgumentSize::Bit64, &mut out);
        let seen = [
            out[0], out[3], out[4], out[5], out[6], out[7], out[8], out[9],
        ];
        sum = mix(mix(sum, length_of(said)), utils::bytes_to_word(seen));
    }
    sum
}

// An operand's text: so many of the bytes.
#[derive(Clone, Copy)]
struct OperandText {
    bytes: [u8; 32],
    length: usize,
    ghost fits: { length ≤ 32 },
}

// The text of number k, 0 to 63: each displacement with each name once as the base and once as the index.
fn operand_text(k: u64) -> OperandText {
    let name = k % 16;
    let x = (k / 16 % 4) * 0x4000_0000 + name * 0x100_0000_0000 + 5 * name % 16 * 0x1000_0000_0000;
    let mut bytes = [0; 32];
    match text::format(any_operand(x), ArgumentSize::Bit64, &mut bytes) {
        Ok(length) => OperandText { bytes, length },
        Err(_) => OperandText { bytes, length: 0 },
    }
}

// 64 texts, of 19.5 bytes on the average.
fn some_texts() -> [OperandText; 64] {
    std::array::from_fn(|k| operand_text(k as u64))
}

// Of the displacement 32 bits: with all 64 the sum would soon pick the same few texts again and again.
fn with_operand(sum: u64, operand: InstructionArgument) -> u64 {
    let mut words = wire_records::operand_words(operand);
    words[4] %= 0x1_0000_0000;
    words.iter().fold(sum, |sum, word| mix(sum, *word))
}

// A turn reads one of 64 operand texts back, which the sum picks.
pub(crate) fn read_back(turns: u64) -> u64 {
    let texts = some_texts();
    let mut sum = 1;
    for _ in 0..turns {
        let text = &texts[((sum >> 58) ^ (sum >> 33)) as usize % 64];
        sum = match reading_operands::read_operands(&text.bytes[..text.length]) {
            Ok((first, _)) => with_operand(sum, first),
            Err(NotOperandText { offset }) => mix(sum, offset as u64),
        };
    }
    sum
}

// A turn prints the state of a machine whose rax is the sum.
pub(crate) fn states(turns: u64) -> u64 {
    let mut now = some_machine(turns);
    let mut out = [0; 577];
    let mut sum = 1;
    for _ in 0..turns {
        now.regs[0] = sum;
        let said = text::state_text(now, &mut out);
        let seen = [
            out[17], out[18], out[19], out[20], out[60], out[100], out[200], out[400],
        ];
        sum = mix(mix(sum, length_of(said)), utils::bytes_to_word(seen));
    }
    sum
}
