// Size selection, one-argument and two-argument access of an arguments record.
ghost use Rattle.std.specs.Prelude.{◌≡◌};
ghost use Rattle.instruction_set.specs.Arguments.{selected_size, one_argument, two_arguments};
ghost use Rattle.wire_session.specs.Replies.{reply_of};
ghost use Rattle.wire_session.specs.Accesses.{Accesses, OperandsGiven, numbered};

use super::replies::{refused, value};
use super::show::words;
use instruction_set::InstructionArguments;
use wire_records::{AccessKind, Header, Reply};

fn size(arguments: InstructionArguments) -> Reply
    ensures { result ≡ reply_of (numbered (selected_size arguments)) 0 }
{
    match arguments.size() {
        Ok(chosen) => value(wire_numbers::size_number(chosen), 0),
        Err(why) => refused(why.number(), 0),
    }
}

fn one(arguments: InstructionArguments, lent: &mut [u8]) -> Option<Reply>
    ensures { OperandsGiven (one_argument arguments) lent.old result lent.new }
{
    match arguments.get_one_argument() {
        Ok(argument) => words(&wire_records::operand_words(argument), lent),
        Err(why) => Some(refused(why.number(), 0)),
    }
}

fn two(arguments: InstructionArguments, lent: &mut [u8]) -> Option<Reply>
    ensures { OperandsGiven (two_arguments arguments) lent.old result lent.new }
{
    match arguments.get_two_arguments() {
        Ok((first, second)) => {
            let mut ten = [0; 10];
            ten[..5].copy_from_slice(&wire_records::operand_words(first));
            ten[5..].copy_from_slice(&wire_records::operand_words(second));
            words(&ten, lent)
        }
        Err(why) => Some(refused(why.number(), 0)),
    }
}

// What is asked of the arguments record of a header.
#[tactic(auto, unfolding(crate::specs::Accesses::Accesses))]
pub(crate) fn access(kind: AccessKind, header: Header, lent: &mut [u8]) -> Option<Reply>
    ensures { Accesses kind header lent.old result lent.new }
{
    let arguments = wire_records::decode_arguments(header, header.b, header.c)?;
    match kind {
        AccessKind::SelectSize => Some(size(arguments)),
        AccessKind::OneArgument => one(arguments, lent),
        AccessKind::TwoArguments => two(arguments, lent),
    }
}
