// The records that no call of the machine answers: they leave the machine and the store as they are, and `wire_session` does not see them.
// What is lent to them is the block, from whose front their answer's bytes go out (docs/FORMAT.md).
use instruction_set::InstructionArgument;
use machine_state::Given;
use wire_records::{Header, Kind, Reply};

// The ten words of the operands, instead of their text; five zeros for a second that is absent.
fn operands(
    first: InstructionArgument,
    second: Option<InstructionArgument>,
    block: &mut [u8],
) -> Option<Reply> {
    let mut ten = [0; 10];
    ten[..5].copy_from_slice(&wire_records::operand_words(first));
    if let Some(operand) = second {
        ten[5..].copy_from_slice(&wire_records::operand_words(operand));
    }
    wire_session::words(&ten, block)
}

// What the operand text in the first n bytes of the block is read as. Refusal 13 says an offset (RULES 6.12).
fn read_back(n: usize, block: &mut [u8]) -> Option<Reply> {
    let text = block.get(..n)?;
    match reading_operands::read_operands(text) {
        Ok((first, second)) => operands(first, second, block),
        Err(why) => Some(Reply {
            refusal: why.number(),
            said: Given::Word(why.offset as u64),
            given: 0,
        }),
    }
}

// Whether the two calls whose headers the block holds are dependent; no reply where it holds anything else.
fn depends(block: &[u8]) -> Option<Reply> {
    let a = wire_records::decode_call(wire_records::header_in(block, 0))?;
    let b = wire_records::decode_call(wire_records::header_in(block, 1))?;
    Some(Reply {
        refusal: 0,
        said: Given::Truth(neighbours::depends(a, b)),
        given: 0,
    })
}

// The reply to a record of one of the two kinds that are answered here.
pub(crate) fn serve(header: Header, block: &mut [u8]) -> Option<Reply> {
    if !wire_records::block_fits(header) {
        return None;
    }
    if matches!(header.kind, Kind::Depends) {
        return depends(block);
    }
    read_back(header.length as usize, block)
}
