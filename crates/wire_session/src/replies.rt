// What an answer says (docs/FORMAT.md, "An answer").
ghost use Rattle.std.specs.Prelude.{◌≡◌, [], ◌∷◌, map};
ghost use Rattle.utils.specs.Outcome.{gives, refuses};
ghost use Rattle.machine_state.specs.Answers.{outcome_of, said_by, word};
ghost use Rattle.wire_session.specs.Replies.{said_of, reply_of};

use machine_state::{Answer, Given, Refusal};
use wire_records::Reply;

// No value, with so many of the lent bytes.
pub(crate) fn gave(given: usize) -> Reply
    ensures { result ≡ reply_of (gives []) given }
{
    Reply {
        refusal: 0,
        said: Given::Nothing,
        given,
    }
}

// A value, with so many of the lent bytes.
pub(crate) fn value(value: u64, given: usize) -> Reply
    ensures { result ≡ reply_of (gives (word value ∷ [])) given }
{
    Reply {
        refusal: 0,
        said: Given::Word(value),
        given,
    }
}

// A refusal that says nothing but its number, with so many of the lent bytes.
pub(crate) fn refused(refusal: u64, given: usize) -> Reply
    ensures { result ≡ reply_of (refuses refusal) given }
{
    Reply {
        refusal,
        said: Given::Nothing,
        given,
    }
}

// What a refusal says besides its number: 6 how many slots lack, the others nothing.
fn said_besides(why: Refusal) -> Given
    ensures { result ≡ said_of (map word (said_by why)) }
{
    match why {
        Refusal::Memory(mmu::Refusal::NoRoom { lacking }) => Given::Word(u64::from(lacking)),
        _ => Given::Nothing,
    }
}

// The reply that says what a call answers.
pub(crate) fn reply_of(answer: Answer, given: usize) -> Reply
    ensures { result ≡ reply_of (outcome_of answer) given }
{
    match answer {
        Ok(said) => Reply {
            refusal: 0,
            said,
            given,
        },
        Err(why) => Reply {
            refusal: why.number(),
            said: said_besides(why),
            given,
        },
    }
}
