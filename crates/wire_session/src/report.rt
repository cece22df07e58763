// The exposed places of the calls whose headers stand in a block.
ghost use Rattle.std.specs.Prelude.{◌≡◌, ◌≤◌, length};
ghost use Rattle.machine_state.specs.Memory.{word_outcome};
ghost use Rattle.byte_runs.specs.Runs.{filled};
ghost use Rattle.exposed.specs.Reported.{verdict_outcome};
ghost use Rattle.wire_session.specs.Replies.{reply_of};
ghost use Rattle.wire_session.specs.Reports.{Reports, place_byte};

use super::replies::{gave, refused};
use calls::Call;
use exposed::TooManyCalls;
use wire_records::{Header, Reply};

fn reply(verdict: Result<(), TooManyCalls>) -> Reply
    ensures { result ≡ reply_of (word_outcome (verdict_outcome verdict)) 182 }
{
    match verdict {
        Ok(()) => gave(182),
        Err(why) => refused(why.number(), 182),
    }
}

// One byte for each place, 0 or 1.
fn put_places(lent: &mut [u8], places: [bool; 182])
    requires { 182 ≤ length lent.old }
    ensures { lent.new ≡ filled lent.old 0 (place_byte places) 182 }
{
    for (k, place) in places.iter().enumerate() {
        lent[k] = u8::from(*place);
    }
}

// The report of the calls in the block, at most 64, with the count that the header states: any number, so it stands beside the list.
#[tactic(auto, unfolding(crate::specs::Reports::Reports))]
pub(crate) fn exposed_report(header: Header, lent: &mut [u8]) -> Option<Reply>
    ensures { Reports header lent.old result lent.new }
{
    let n = (header.length / 128) as usize;
    if 64 < n || header.length % 128 != 0 || lent.len() < 182 {
        return None;
    }
    let mut calls = [Call::Push; 64];
    for k in 0..n {
        calls[k] = wire_records::decode_call(wire_records::header_in(lent, k))?;
    }
    let report = exposed::exposed_places(&calls, header.a as usize);
    put_places(lent, report.places);
    Some(reply(report.verdict))
}
