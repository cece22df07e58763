// Operand text read back: what text_operands prints of one operand, or of two, is read, and nothing else; any other text is refused
// with the offset of the first byte with which no operand text goes on, or the text's length where it ends too soon. The reader goes byte
// by byte. What it holds determines the bytes that it has read (proofs/Stands.antt), every state can still be completed
// (proofs/GoesOn.antt), and it runs through all that is printed (proofs/Through.antt): so the byte at which it stops is the one to name.
// Below are reading_numbers and reading_names, which read digits and letters, and the printing definitions of text_operands; above are
// promises and the programs.
// It carries RULES 6.10 to 6.12 with refusal 13.
#![tactic(auto)]

ghost use Rattle.std.specs.Prelude.{◌≡◌, MatchOption};
ghost use Rattle.reading_operands.specs.Reads.{Reads, operands_outcome};
ghost use Rattle.reading_operands.specs.Reader.{finished_number, finished_name, finished_operand, first_ended, advanced, ended};
ghost use Rattle.reading_operands.specs.Steps.{wanted, begun, step_lead, numeral_of, step_first_digit, step_digits};
ghost use Rattle.reading_operands.specs.Steps.{plain_address, indexed_address, after_number, after_base, after_name};
ghost use Rattle.reading_operands.specs.Steps.{step_name, step_opened, stepped};

use instruction_set::{InstructionArgument, Register};
use reading_numbers::Numeral;

// Refusal 13: no operand text, and the offset at which none goes on (RULES 6.12).
#[derive(Clone, Copy, Debug, PartialEq, Eq)]
pub struct NotOperandText {
    pub offset: usize,
}

impl NotOperandText {
    // The refusal's number.
    pub fn number(self) -> u64
        ensures { result ≡ (operands_outcome (Err self)).number }
    {
        13
    }
}

// What stands before a `0x` that is not whole yet.
#[derive(Clone, Copy)]
enum Lead {
    Nothing,
    Zero,
    Minus,
    MinusZero,
    Dollar,
    DollarZero,
}

// Where a number stands, with what was read of its operand before it: an immediate, a displacement at or above 0 or below it, or a scale
// after the displacement, the base and the index. A displacement is held as its 32 bits.
// Here and below the displacement and the base are held one by one: with a struct of both a text took 118 ns to read, and not 87.
#[derive(Clone, Copy)]
enum Numbered {
    Immediate,
    Above,
    Below,
    Scale(u32, Option<Register>, Register),
}

// Where a register's name stands, with what was read before it: an operand, a base after the displacement, an index after both.
#[derive(Clone, Copy)]
enum Named {
    Operand,
    Base(u32),
    Index(u32, Option<Register>),
}

// How far an operand is read. A name is held by its node in reading_names; at node 0 no letter is read yet.
#[derive(Clone, Copy)]
enum Phase {
    Lead(Lead),
    FirstDigit(Numbered),
    Digits(Numbered, u64),
    Name(Named, u8),
    Opened(u32),
    IndexWanted(u32, Option<Register>),
    Closed(InstructionArgument),
}

// The one byte that goes on, and where to.
fn wants(b: u8, want: u8, next: Phase) -> Option<Phase>
    ensures { result ≡ wanted b want next }
{
    (b == want).then_some(next)
}

fn begin(b: u8) -> Option<Phase>
    ensures { result ≡ begun b }
{
    match b {
        b'%' => Some(Phase::Name(Named::Operand, 0)),
        b'$' => Some(Phase::Lead(Lead::Dollar)),
        b'-' => Some(Phase::Lead(Lead::Minus)),
        b'0' => Some(Phase::Lead(Lead::Zero)),
        _ => None,
    }
}

fn step_lead(lead: Lead, b: u8) -> Option<Phase>
    ensures { result ≡ step_lead lead b }
{
    match lead {
        Lead::Nothing => begin(b),
        Lead::Zero => wants(b, b'x', Phase::FirstDigit(Numbered::Above)),
        Lead::Minus => wants(b, b'0', Phase::Lead(Lead::MinusZero)),
        Lead::MinusZero => wants(b, b'x', Phase::FirstDigit(Numbered::Below)),
        Lead::Dollar => wants(b, b'0', Phase::Lead(Lead::DollarZero)),
        Lead::DollarZero => wants(b, b'x', Phase::FirstDigit(Numbered::Immediate)),
    }
}

impl Numbered {
    fn numeral(self) -> Numeral
        ensures { result ≡ numeral_of self }
    {
        match self {
            Numbered::Immediate => Numeral::Immediate,
            Numbered::Above => Numeral::Above,
            Numbered::Below => Numeral::Below,
            Numbered::Scale(_, _, _) => Numeral::Scale,
        }
    }
}

fn step_first_digit(role: Numbered, b: u8) -> Option<Phase>
    ensures { result ≡ step_first_digit role b }
{
    let v = reading_numbers::first_digit(role.numeral(), b)?;
    Some(Phase::Digits(role, v))
}

// An address without an index.
fn plain_address(displacement: u32, base: Option<Register>) -> InstructionArgument
    ensures { result ≡ plain_address displacement base }
{
    InstructionArgument::EffectiveAddress {
        base,
        index: None,
        scale: None,
        displacement: reading_numbers::displacement(displacement),
    }
}

fn indexed_address(
    displacement: u32,
    base: Option<Register>,
    index: Register,
    v: u64,
) -> InstructionArgument
    ensures { result ≡ indexed_address displacement base index v }
{
    InstructionArgument::EffectiveAddress {
        base,
        index: Some(index),
        scale: Some(reading_numbers::scale(v)),
        displacement: reading_numbers::displacement(displacement),
    }
}

// What may follow a number where it stands: an address's parenthesis, opened after a displacement, closed after a scale.
fn after_number(role: Numbered, v: u64, b: u8) -> Option<Phase>
    ensures { result ≡ after_number role v b }
{
    match role {
        Numbered::Immediate => None,
        Numbered::Above => wants(b, b'(', Phase::Opened(reading_numbers::positive(v))),
        Numbered::Below => wants(b, b'(', Phase::Opened(reading_numbers::negative(v))),
        Numbered::Scale(displacement, base, index) => {
            wants(
                b,
                b')',
                Phase::Closed(indexed_address(displacement, base, index, v)),
            )
        }
    }
}

fn step_digits(role: Numbered, v: u64, b: u8) -> Option<Phase>
    ensures { result ≡ step_digits role v b }
{
    match reading_numbers::next_digit(role.numeral(), v, b) {
        Some(more) => Some(Phase::Digits(role, more)),
        None => after_number(role, v, b),
    }
}

fn after_base(displacement: u32, r: Register, b: u8) -> Option<Phase>
    ensures { result ≡ after_base displacement r b }
{
    match b {
        b')' => Some(Phase::Closed(plain_address(displacement, Some(r)))),
        b',' => Some(Phase::IndexWanted(displacement, Some(r))),
        _ => None,
    }
}

// What may follow a name where it stands.
fn after_name(role: Named, r: Register, b: u8) -> Option<Phase>
    ensures { result ≡ after_name role r b }
{
    match role {
        Named::Operand => None,
        Named::Base(displacement) => after_base(displacement, r, b),
        Named::Index(displacement, base) => wants(
            b,
            b',',
            Phase::FirstDigit(Numbered::Scale(displacement, base, r)),
        ),
    }
}

fn step_name(role: Named, node: u8, b: u8) -> Option<Phase>
    ensures { result ≡ step_name role node b }
{
    match reading_names::next_node(node, b) {
        Some(next) => Some(Phase::Name(role, next)),
        None => after_name(role, reading_names::register_of(node)?, b),
    }
}

fn step_opened(displacement: u32, b: u8) -> Option<Phase>
    ensures { result ≡ step_opened displacement b }
{
    match b {
        b'%' => Some(Phase::Name(Named::Base(displacement), 0)),
        b',' => Some(Phase::IndexWanted(displacement, None)),
        _ => None,
    }
}

// One byte more of an operand.
fn step_phase(phase: Phase, b: u8) -> Option<Phase>
    ensures { result ≡ stepped phase b }
{
    match phase {
        Phase::Lead(lead) => step_lead(lead, b),
        Phase::FirstDigit(role) => step_first_digit(role, b),
        Phase::Digits(role, v) => step_digits(role, v, b),
        Phase::Name(role, node) => step_name(role, node, b),
        Phase::Opened(displacement) => step_opened(displacement, b),
        Phase::IndexWanted(displacement, base) => wants(
            b,
            b'%',
            Phase::Name(Named::Index(displacement, base), 0),
        ),
        Phase::Closed(_) => None,
    }
}

fn finish_number(role: Numbered, v: u64) -> Option<InstructionArgument>
    ensures { result ≡ finished_number role v }
{
    match role {
        Numbered::Immediate => Some(InstructionArgument::Immediate { immediate: v }),
        Numbered::Above => Some(plain_address(reading_numbers::positive(v), None)),
        Numbered::Below => Some(plain_address(reading_numbers::negative(v), None)),
        Numbered::Scale(_, _, _) => None,
    }
}

fn finish_name(role: Named, node: u8) -> Option<InstructionArgument>
    ensures { result ≡ finished_name role node }
{
    match role {
        Named::Operand => {
            let register = reading_names::register_of(node)?;
            Some(InstructionArgument::Register { register })
        }
        Named::Base(_) | Named::Index(_, _) => None,
    }
}

// The operand, where one is read to its end.
fn finish(phase: Phase) -> Option<InstructionArgument>
    ensures { result ≡ finished_operand phase }
{
    match phase {
        Phase::Digits(role, v) => finish_number(role, v),
        Phase::Name(role, node) => finish_name(role, node),
        Phase::Closed(x) => Some(x),
        Phase::Lead(_) | Phase::FirstDigit(_) | Phase::Opened(_) | Phase::IndexWanted(_, _) => None,
    }
}

// Where a reader is in a text: the first of two operands, once its comma is read, and how far the next is read.
#[derive(Clone, Copy)]
struct ReaderState {
    first: Option<InstructionArgument>,
    phase: Phase,
}

impl ReaderState {
    // The operand that a comma ends, where it is the first: after the second no comma may follow.
    fn first_ended(self, b: u8) -> Option<InstructionArgument>
        ensures { result ≡ first_ended self.first self.phase b }
    {
        if b != b',' || self.first.is_some() {
            return None;
        }
        finish(self.phase)
    }

    // One byte more of the text; none if it cannot follow.
    #[tactic(auto, unfolding(crate::specs::Reader::advanced))]
    fn step(&mut self, b: u8) -> Option<()>
        ensures { MatchOption result (advanced self.old b ≡ None) (λ _. advanced self.old b ≡ Some self.new) }
    {
        match step_phase(self.phase, b) {
            Some(phase) => self.phase = phase,
            None => {
                self.first = Some(self.first_ended(b)?);
                self.phase = Phase::Lead(Lead::Nothing);
            }
        }
        Some(())
    }

    // What a text gives that ends here.
    fn end(
        self,
        offset: usize,
    ) -> Result<(InstructionArgument, Option<InstructionArgument>), NotOperandText>
        ensures { result ≡ ended offset self }
    {
        let last = finish(self.phase).ok_or(NotOperandText { offset })?;
        match self.first {
            None => Ok((last, None)),
            Some(first) => Ok((first, Some(last))),
        }
    }
}

// The operands that print this text, one or two (RULES 6.10, 6.11). Refuses 13, which says an offset (RULES 6.12). No event. It goes byte
// by byte, up to the first that cannot follow.
#[tactic(auto, using(crate::proofs::Turns::turns, crate::proofs::Answers::so_read))]
pub fn read_operands(
    text: &[u8],
) -> Result<(InstructionArgument, Option<InstructionArgument>), NotOperandText>
    ensures { Reads text.now result }
{
    let mut state = ReaderState {
        first: None,
        phase: Phase::Lead(Lead::Nothing),
    };
    for (offset, b) in text.iter().enumerate() {
        state.step(*b).ok_or(NotOperandText { offset })?;
    }
    state.end(text.len())
}
