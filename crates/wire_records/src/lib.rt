// Calls as records of bytes (docs/FORMAT.md): a header of 16 words is decoded into what it asks for, and a reply is encoded as an answer
// of 8 words. What is no record is malformed: none. Below are calls, which the records ask for, and `wire_numbers`; above are
// `wire_session`, which carries a record out, and drive, a program that reads records and writes answers. So the machine can be compared
// with the Rust, call by call (RULES 7.7). No rule rests on this crate: the format is docs/FORMAT.md's.
#![tactic(auto)]

ghost use Rattle.std.specs.Prelude.{◌≡◌, ◌+◌, ◌≤◌, length};
ghost use Rattle.wire_records.specs.Words.{operand_words_at, header_at, header_in};

use byte_runs::word_at;
use machine_state::Given;

mod kinds; // kinds.rt: what a record asks for, by its number
mod blocks; // blocks.rt: how long a record's block must be
mod items; // items.rt: from words to what they ask for
mod answers; // answers.rt: from operands, events and replies to words

pub use answers::{encode, operand_words};
pub use blocks::{block_fits, reset_fits};
pub use items::{decode_arguments, decode_call, decode_event, given_operand};
pub use kinds::{AccessKind, CallKind, Kind, ShowKind, TextKind, kind_at};

// The five words of an operand, as they stand in a record (docs/FORMAT.md), its kind too. Registers and scales are given by their number
// plus 1, and 0 says that they are absent.
#[derive(Clone, Copy, Default)]
pub struct OperandWords {
    pub kind: u64,
    pub base: u64,
    pub index: u64,
    pub scale: u64,
    pub value: u64,
}

// The sixteen words of a header, the first of them decoded. What a, b and c are depends on the kind.
#[derive(Clone, Copy, Default)]
pub struct Header {
    pub kind: Kind,
    pub length: u64,
    pub size: u64,
    pub a: u64,
    pub b: u64,
    pub c: u64,
    pub first: OperandWords,
    pub second: OperandWords,
}

// What a record answers: the number of the refusal, 0 where it is accepted, and what is said, beside a refusal too (6 and 13 say a word).
// It is a word of the answer (docs/FORMAT.md), for the refusals of five crates. The first `given` of the lent bytes belong to the answer.
// What is no record has no reply.
#[derive(Clone, Copy)]
pub struct Reply {
    pub refusal: u64,
    pub said: Given,
    pub given: usize,
}

fn operand_words_at(bytes: &[u8], at: usize) -> OperandWords
    requires { at + 40 ≤ length bytes.now }
    ensures { result ≡ operand_words_at bytes.now at }
{
    OperandWords {
        kind: word_at(bytes, at),
        base: word_at(bytes, at + 8),
        index: word_at(bytes, at + 16),
        scale: word_at(bytes, at + 24),
        value: word_at(bytes, at + 32),
    }
}

fn header_at(bytes: &[u8], at: usize) -> Header
    requires { at + 128 ≤ length bytes.now }
    ensures { result ≡ header_at bytes.now at }
{
    let kind = kind_at(word_at(bytes, at));
    let first = operand_words_at(bytes, at + 48);
    let second = operand_words_at(bytes, at + 88);
    Header {
        kind,
        length: word_at(bytes, at + 8),
        size: word_at(bytes, at + 16),
        a: word_at(bytes, at + 24),
        b: word_at(bytes, at + 32),
        c: word_at(bytes, at + 40),
        first,
        second,
    }
}

// Header k of those that stand end to end in a block. Past the last whole one it is all zeros, which is no record.
#[tactic(auto, unfolding(crate::specs::Words::header_in))]
pub fn header_in(block: &[u8], k: usize) -> Header
    ensures { result ≡ header_in block.now k }
{
    if k < block.len() / 128 {
        return header_at(block, 128 * k);
    }
    Header::default()
}
