// Memory as it is written: bytes go to a physical address, page by page, and each absent page takes a slot (src/mmu.rs of the Rust).
// Below are `byte_runs`, which moves bytes, and store, which searches the directory and counts absent pages; above is mmu, whose write
// checks what is lent and translates the address first. Its one public function takes every input, and writes all or nothing.
// specs/Writes.antt says what it leaves.
// `dir`, `bytes` and `used` are lent as three, for any may be lent (RULES 3.5, 4.8): once a write spans pages or wants
// a slot, `Slots` holds them, known as a store.
// It carries RULES 3.9 and 3.10, the test of refusal 6, and how many slots lack, 7.5.
#![tactic(auto)]

ghost use Rattle.std.specs.Result.{result_unwrap_or};
ghost use Rattle.store.specs.Store.{store_of};
ghost use Rattle.store.specs.Facts.{IsStore};
ghost use Rattle.writes.specs.Writes.{Stored};

mod pages; // pages.rt: writes of physical bytes, page by page

use pages::Slots;
use store::{count_absent, is_store, slot_of};

// Why the bytes were not written: the lent slices are no store (RULES 3.5), or so many slots lack for them (RULES 7.5).
#[derive(Clone, Copy, Debug, PartialEq, Eq)]
pub enum NotWritten {
    NoStore,
    Lacking { slots: usize },
}

// data goes to the bytes from physical p on, if the lent slices are a store and have a slot for each absent page (RULES 3.9, 3.10): the
// answer is the slots in use afterwards. Within one page that has a slot it is copied at once, for no slot is needed: the directory is
// searched once.
pub fn mem_write_phys(
    p: u64,
    data: &[u8],
    dir: &mut [u64],
    bytes: &mut [u8],
    used: usize,
) -> Result<usize, NotWritten>
    ensures { Stored (store_of dir.old bytes.old used) (store_of dir.new bytes.new (result_unwrap_or result used))
        p «data».now result }
{
    if !is_store(dir, bytes, used) {
        return Err(NotWritten::NoStore);
    }
    if let Some(slot) = slot_of(p, data.len(), dir, used) {
        let off = (p % store::PAGE_STEP) as usize;
        byte_runs::copy(bytes, store::PAGE_SIZE * slot + off, data, 0, data.len());
        return Ok(used);
    }
    write_counted(p, data, dir, bytes, used)
}

// The same, page by page: the absent pages are counted first, and those that find no unused slot are what lacks (RULES 7.5).
fn write_counted(
    p: u64,
    data: &[u8],
    dir: &mut [u64],
    bytes: &mut [u8],
    used: usize,
) -> Result<usize, NotWritten>
    requires { IsStore (store_of dir.old bytes.old used) }
    ensures { Stored (store_of dir.old bytes.old used) (store_of dir.new bytes.new (result_unwrap_or result used))
        p «data».now result }
{
    let absent = count_absent(p, data.len(), dir, used);
    let unused = dir.len() - used;
    if unused < absent {
        return Err(NotWritten::Lacking {
            slots: absent - unused,
        });
    }
    let mut slots = Slots { dir, bytes, used };
    slots.write(p, data);
    Ok(slots.used)
}
