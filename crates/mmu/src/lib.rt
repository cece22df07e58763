// Memory: reads and writes at an address (src/mmu.rs of the Rust). The crate knows numbers and lent slices only: machine_state, above it,
// owns CR3 and passes it in; below it, walk goes from an address to a physical one and reads bytes there, writes writes them, and store
// says what the lent slices are. Each public call takes every input, and its contract (specs/Calls.antt) fixes the answer, the count of
// slots in use, what is shown and every lent byte, refused or not (RULES 9.1).
// `dir`, `bytes` and `used` are lent as three: any slices and number may be, and what is no store is refused (RULES 3.5, 4.8), so they
// have no invariant until that is asked.
// It carries RULES 3.14, 4.1, 4.5 and 4.6: a call's order of steps and what the screen shows; and refusals 4, 5 and 6 (7.1, 7.2) with
// what 6 says (7.5).
#![tactic(auto)]

ghost use Rattle.std.specs.Prelude.{◌≡◌, ◌≤◌, length, get_or, true, OnOk};
ghost use Rattle.store.specs.Store.{page_size, store_of, is_store};
ghost use Rattle.store.specs.Facts.{IsStore};
ghost use Rattle.walk.specs.Walk.{physical};
ghost use Rattle.mmu.specs.Private.{RefusedFor};
ghost use Rattle.mmu.specs.Calls.{memory_number, said_by_memory, memory_outcome, read_outcome, read_out, cell, shown_at, Wrote};

use store::is_store;
use walk::{mem_read_phys, translate_virtual_to_physical_address};
use writes::{NotWritten, mem_write_phys};

// The most bytes of one access (RULES 4.1).
const LONGEST: usize = store::PAGE_SIZE;

// 4, 5 and 6 (RULES 7.1); 6 says how many slots lack (RULES 7.5). They are no more than the bytes of an access, so 32 bits hold them, and
// every answer that holds a refusal stays small.
#[derive(Clone, Copy, Debug, PartialEq, Eq)]
pub enum Refusal {
    BadStore,
    TooLong,
    NoRoom { lacking: u32 },
}

impl Refusal {
    // The number of the refusal (RULES 7.1).
    pub fn number(self) -> u64
        ensures { result ≡ memory_number self }
    {
        match self {
            Refusal::BadStore => 4,
            Refusal::TooLong => 5,
            Refusal::NoRoom { .. } => 6,
        }
    }

    // How many slots lack, where it is 6; else 0 (RULES 7.5).
    pub fn lacking(self) -> usize
        ensures { result ≡ get_or (said_by_memory self) 0 0 }
    {
        match self {
            Refusal::BadStore | Refusal::TooLong => 0,
            Refusal::NoRoom { lacking } => lacking as usize,
        }
    }
}

// What a write leaves beside the slices: its answer, the slots in use afterwards, and what the screen shows. All three stand beside a
// refusal too, as `Wrote` promises of them, so they are no part of the answer's `Ok`.
#[derive(Clone, Copy, Debug, PartialEq, Eq)]
pub struct Written {
    pub answer: Result<(), Refusal>,
    pub used: usize,
    pub shown: Option<u8>,
}

// Whether an access of so many bytes begins: refuses 4, then 5 (RULES 7.2).
#[tactic(auto, unfolding(crate::specs::Calls::read_outcome))]
fn admit(length: usize, dir: &[u64], bytes: &[u8], used: usize) -> Result<(), Refusal>
    ensures told { memory_outcome result ≡ read_outcome (store_of dir.now bytes.now used) length }
    ensures sound { OnOk result ((is_store (store_of dir.now bytes.now used) ≡ true) × (length ≤ page_size)) }
{
    if !is_store(dir, bytes, used) {
        return Err(Refusal::BadStore);
    }
    if LONGEST < length {
        return Err(Refusal::TooLong);
    }
    Ok(())
}

// The bytes at an address fill `out` (RULES 4.1). Refuses 4, then 5; then length 0 is done, with no walk (RULES 4.6). Shows nothing.
pub fn mem_read(
    cr3: u64,
    address: u64,
    out: &mut [u8],
    dir: &[u64],
    bytes: &[u8],
    used: usize,
) -> Result<(), Refusal>
    ensures { (memory_outcome result ≡ read_outcome (store_of dir.now bytes.now used) (length out.old))
        × (out.new ≡ read_out (store_of dir.now bytes.now used) cr3 address out.old) }
{
    admit(out.len(), dir, bytes, used)?;
    if !out.is_empty() {
        let p = translate_virtual_to_physical_address(cr3, address, dir, bytes, used);
        mem_read_phys(p, out, dir, bytes, used);
    }
    Ok(())
}

// `data` goes to the bytes at an address (RULES 4.1). Refuses 4, then 5; length 0 is then done (RULES 4.6); then 6. May show a byte.
pub fn mem_write(
    cr3: u64,
    address: u64,
    data: &[u8],
    dir: &mut [u64],
    bytes: &mut [u8],
    used: usize,
) -> Written
    ensures { Wrote (store_of dir.old bytes.old used) (store_of dir.new bytes.new result.used)
        (physical (store_of dir.old bytes.old used) cr3 address) «data».now result.answer result.shown }
{
    if let Err(why) = admit(data.len(), dir, bytes, used) {
        return refused(why, used);
    }
    if data.is_empty() {
        return Written {
            answer: Ok(()),
            used,
            shown: None,
        };
    }
    let p = translate_virtual_to_physical_address(cr3, address, dir, bytes, used);
    write_at(p, data, dir, bytes, used)
}

// `data`, 1 to 4,096 bytes, goes to the bytes from physical p on, or there is no room for it.
fn write_at(p: u64, data: &[u8], dir: &mut [u64], bytes: &mut [u8], used: usize) -> Written
    requires { IsStore (store_of dir.old bytes.old used) × (1 ≤ length «data».now) × (length «data».now ≤ page_size) }
    ensures { Wrote (store_of dir.old bytes.old used) (store_of dir.new bytes.new result.used)
        p «data».now result.answer result.shown }
{
    match mem_write_phys(p, data, dir, bytes, used) {
        Ok(used) => Written {
            answer: Ok(()),
            used,
            shown: shown_at(p, data),
        },
        Err(NotWritten::NoStore) => refused(Refusal::BadStore, used),
        Err(NotWritten::Lacking { slots }) => {
            let lacking = slots as u32;
            refused(Refusal::NoRoom { lacking }, used)
        }
    }
}

// A refused write changes nothing and shows nothing.
fn refused(why: Refusal, used: usize) -> Written
    ensures { RefusedFor result why used }
{
    Written {
        answer: Err(why),
        used,
        shown: None,
    }
}

// Whether a byte at p shows on the screen: the window has both its ends, and only even addresses are cells (RULES 4.5).
#[tactic(auto, unfolding(crate::specs::Calls::cell))]
fn is_cell(p: u64) -> bool
    ensures { result ≡ cell p }
{
    (0xB8000..=0xB8FA0).contains(&p) && p % 2 == 0
}

// What a write shows: its first byte, if it goes to a cell.
#[tactic(auto, using(crate::proofs::Answers::shown_off, crate::proofs::Answers::shown_first))]
fn shown_at(p: u64, data: &[u8]) -> Option<u8>
    ensures { result ≡ shown_at p «data».now }
{
    if is_cell(p) {
        data.first().copied()
    } else {
        None
    }
}
