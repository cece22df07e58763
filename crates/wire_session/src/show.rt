// The records that show the machine, the directory, bytes and a page's view, and the one that loads bytes.
ghost use Rattle.store.specs.Store.{store_of};
ghost use Rattle.wire_session.specs.Replies.{WordsGiven};
ghost use Rattle.wire_session.specs.Shows.{PageGiven, BytesGiven, ViewGiven, MachineGiven, Loaded};

use super::replies::{gave, refused};
use machine_state::MachineState;
use mmu::Refusal;
use wire_records::{Header, Reply};

// Words go to the lent bytes, low byte first; malformed where they have no room.
pub fn words(words: &[u64], lent: &mut [u8]) -> Option<Reply>
    ensures { WordsGiven words.now lent.old result lent.new }
{
    byte_runs::put_words(lent, 0, words).then_some(gave(8 * words.len()))
}

// n bytes from `from` on.
pub(crate) fn part(bytes: &[u8], from: u64, n: u64, lent: &mut [u8]) -> Option<Reply>
    ensures { BytesGiven bytes.now from n lent.old result lent.new }
{
    byte_runs::copy(lent, 0, bytes, from as usize, n as usize).then_some(gave(n as usize))
}

// The machine's 25 words: 22 parents, rflags, gdt, idt.
#[tactic(auto, unfolding(byte_runs::specs::Runs::room))]
pub(crate) fn machine_words(machine: MachineState, lent: &mut [u8]) -> Option<Reply>
    ensures { MachineGiven machine lent.old result lent.new }
{
    if lent.len() < 200 {
        return None;
    }
    let regs = machine.regs;
    let others = [machine.rflags, machine.gdt, machine.idt];
    byte_runs::put_words(lent, 0, &regs);
    byte_runs::put_words(lent, 176, &others);
    Some(gave(200))
}

// The lent bytes go into the store's, from `at` on.
pub(crate) fn load(at: u64, lent: &[u8], bytes: &mut [u8]) -> Option<Reply>
    ensures { Loaded at lent.now bytes.old result bytes.new }
{
    byte_runs::copy(bytes, at as usize, lent, 0, lent.len()).then_some(gave(0))
}

// A view's part; an empty view is refusal 4.
fn shown(view: &[u8], from: u64, n: u64, lent: &mut [u8]) -> Option<Reply>
    ensures { ViewGiven view.now from n lent.old result lent.new }
{
    if view.is_empty() {
        return Some(refused(Refusal::BadStore.number(), 0));
    }
    part(view, from, n, lent)
}

// The part of a page's view that the header asks for. It says how long the lent page of zeros is, and what its last byte is instead.
pub(crate) fn view(
    header: Header,
    lent: &mut [u8],
    dir: &[u64],
    bytes: &[u8],
    used: usize,
) -> Option<Reply>
    ensures { PageGiven header (store_of dir.now bytes.now used) lent.old result lent.new }
{
    let page = header.first;
    let z = page.base as usize;
    if 4097 < z {
        return None;
    }
    let mut room = [0; 4097];
    let zeros = &mut room[..z];
    if let Some(last) = zeros.last_mut() {
        *last = (page.value % 256) as u8;
    }
    let view = store::page_view(header.a, dir, bytes, used, zeros);
    shown(view, header.b, header.c, lent)
}
