// One record carried out on a machine and a lent store, with the bytes lent beside it. Below are `wire_records`, which decodes records and
// encodes replies, and calls, text, store and exposed, which do the work; above is drive, the program that reads records and writes
// answers. docs/FORMAT.md says what each record does. No rule rests on this crate: what it carries out is compared with the Rust from
// outside (RULES 7.7).
#![tactic(auto)]

ghost use Rattle.std.specs.Prelude.{[], ◌≡◌, Option, Some, None};
ghost use Rattle.store.specs.Store.{store_of};
ghost use Rattle.utils.specs.Outcome.{gives};
ghost use Rattle.wire_session.specs.Replies.{reply_of};
ghost use Rattle.wire_session.specs.CarriesOut.{CarriesOut, Carries, Called, ShowCarried, carried_by, still as stays};

use machine_state::{Answered, Event, MachineState};
use replies::{gave, reply_of};
use wire_records::{Header, Kind, Reply, ShowKind};

mod replies; // replies.rt: what an answer says
mod access; // access.rt: size selection and access of an arguments record
mod show; // show.rt: the records that show and load, and the page view
mod texts; // texts.rt: the texts
mod reset; // reset.rt: a machine and a store from a record
mod report; // report.rt: the exposed places of the calls in a block

pub use reset::reset_to;
pub use show::words;

// What a record leaves, beside the slices; what is no record has no reply.
#[derive(Clone, Copy)]
pub struct Carried {
    pub machine: MachineState,
    pub used: usize,
    pub event: Event,
    pub reply: Option<Reply>,
}

// What a reset leaves: the machine, and how much of the slices is the store.
#[derive(Clone, Copy)]
pub struct Start {
    pub machine: MachineState,
    pub slots: usize,
    pub length: usize,
    pub used: usize,
}

// What a call left, with so many of the lent bytes.
fn answered(res: Answered, given: usize) -> Carried
    ensures { result ≡ carried_by res given }
{
    Carried {
        machine: res.machine,
        used: res.used,
        event: res.event,
        reply: Some(reply_of(res.answer, given)),
    }
}

// A record that leaves the machine and the count.
fn still(machine: MachineState, used: usize, reply: Option<Reply>) -> Carried
    ensures { result ≡ stays machine used reply }
{
    Carried {
        machine,
        used,
        event: Event::Quiet,
        reply,
    }
}

// What is no record: machine and count stay, and there is no answer.
pub fn malformed(machine: MachineState, used: usize) -> Carried
    ensures { result ≡ stays machine used None }
{
    still(machine, used, None)
}

// A record that is done and has nothing to tell: machine and count stay.
pub fn done(machine: MachineState, used: usize) -> Carried
    ensures { result ≡ stays machine used (Some (reply_of (gives []) 0)) }
{
    still(machine, used, Some(gave(0)))
}

// A tabled call.
#[tactic(auto, unfolding(crate::specs::CarriesOut::Called))]
fn tabled(
    header: Header,
    machine: MachineState,
    lent: &mut [u8],
    dir: &mut [u64],
    bytes: &mut [u8],
    used: usize,
) -> Carried
    ensures { Called header machine (store_of dir.old bytes.old used) lent.old
        result (store_of dir.new bytes.new result.used) lent.new }
{
    let n = lent.len();
    match wire_records::decode_call(header) {
        None => malformed(machine, used),
        Some(call) => answered(calls::perform(call, lent, machine, dir, bytes, used), n),
    }
}

// The records that show, load and report.
#[tactic(auto, unfolding(crate::specs::CarriesOut::ShowCarried))]
fn carry_show(
    kind: ShowKind,
    header: Header,
    machine: MachineState,
    lent: &mut [u8],
    dir: &[u64],
    bytes: &mut [u8],
    used: usize,
) -> Option<Reply>
    ensures { ShowCarried kind header machine (store_of dir.now bytes.old used) lent.old
        result (store_of dir.now bytes.new used) lent.new }
{
    match kind {
        ShowKind::PageView => show::view(header, lent, dir, bytes, used),
        ShowKind::Load => show::load(header.a, lent, bytes),
        ShowKind::ShowMachine => show::machine_words(machine, lent),
        ShowKind::ShowDirectory => show::words(dir, lent),
        ShowKind::ShowBytes => show::part(bytes, header.a, header.b, lent),
        ShowKind::Report => report::exposed_report(header, lent),
    }
}

// What a record of a kind does, whatever its block. A reset, and what drive answers itself, is none here.
#[tactic(auto, unfolding(crate::specs::CarriesOut::Carries))]
fn carry_kind(
    kind: Kind,
    header: Header,
    machine: MachineState,
    lent: &mut [u8],
    dir: &mut [u64],
    bytes: &mut [u8],
    used: usize,
) -> Carried
    ensures { Carries kind header machine (store_of dir.old bytes.old used) lent.old
        result (store_of dir.new bytes.new result.used) lent.new }
{
    match kind {
        Kind::Call(_) => tabled(header, machine, lent, dir, bytes, used),
        Kind::ReadByte => answered(machine.mem_read_byte(header.a, dir, bytes, used), 0),
        Kind::Access(asked) => still(machine, used, access::access(asked, header, lent)),
        Kind::Show(asked) => {
            let reply = carry_show(asked, header, machine, lent, dir, bytes, used);
            still(machine, used, reply)
        }
        Kind::Text(asked) => still(machine, used, texts::text(asked, header, machine, lent)),
        Kind::Unknown | Kind::Reset | Kind::ReadBack | Kind::Depends => malformed(machine, used),
    }
}

// Carries out one record, of any kind but a reset. `lent` holds the bytes that follow the header, or the buffer of a call or a text.
// A block that the kind does not have, or of another length than it asks for, makes the record malformed.
// The machine, the store's two slices and its count are lent one by one, here as in calls and machine_state: a host has them so, and what
// is no store is refused where it is reached (RULES 3.5, 4.8).
#[tactic(auto, unfolding(crate::specs::CarriesOut::CarriesOut))]
pub fn carry_out(
    header: Header,
    machine: MachineState,
    lent: &mut [u8],
    dir: &mut [u64],
    bytes: &mut [u8],
    used: usize,
) -> Carried
    ensures { CarriesOut header machine (store_of dir.old bytes.old used) lent.old
        result (store_of dir.new bytes.new result.used) lent.new }
{
    if !wire_records::block_fits(header) {
        return malformed(machine, used);
    }
    carry_kind(header.kind, header, machine, lent, dir, bytes, used)
}
