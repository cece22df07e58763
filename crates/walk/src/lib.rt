// Memory as it is read: the bytes from a physical address on, page by page, and the walk from an address to a physical one (src/mmu.rs of
// the Rust). Below are utils, which knows words, `byte_runs`, for the laws of runs, and store, which searches the directory; above is mmu,
// whose calls check what is lent, translate an access's first byte here and read its bytes here. Both functions take every input: what is
// no store is not read. specs/Walk.antt has the walk as a definition.
// `dir`, `bytes` and `used` are lent as three, for any may be lent (RULES 3.5, 4.8): once they are known as a store, `Pages` holds them.
// It carries the walk, RULES 3.11 to 3.13, and reading by physical address, 3.8 and 3.10.
#![tactic(auto)]

ghost use Rattle.std.specs.Prelude.{◌≡◌};
ghost use Rattle.store.specs.Store.{store_of, is_store};
ghost use Rattle.walk.specs.Walk.{translated, read_into};

mod read; // read.rt: reads of physical bytes, page by page
mod walk; // walk.rt: three levels down, the same step at each

use read::Pages;

// The physical address of an access's first byte (RULES 3.11 to 3.13); 0 where the lent slices are no store, as `translated` promises.
#[tactic(auto, unfolding(crate::specs::Walk::translated, crate::specs::Walk::physical))]
pub fn translate_virtual_to_physical_address(
    cr3: u64,
    address: u64,
    dir: &[u64],
    bytes: &[u8],
    used: usize,
) -> u64
    ensures { result ≡ translated (store_of dir.now bytes.now used) cr3 address }
{
    let Some(pages) = Pages::new(dir, bytes, used) else {
        return 0;
    };
    if cr3 == 0 {
        return address;
    }
    pages.walk(3, cr3, address)
}

// out becomes the bytes from physical p on (RULES 3.8, 3.10). Where the lent slices are no store it stays, and the answer is false: a
// truth with nothing beside it, which is what this function promises (docs/DECISIONS.md).
#[tactic(auto, unfolding(crate::specs::Walk::read_into))]
pub fn mem_read_phys(p: u64, out: &mut [u8], dir: &[u64], bytes: &[u8], used: usize) -> bool
    ensures { (result ≡ is_store (store_of dir.now bytes.now used))
        × (out.new ≡ read_into (store_of dir.now bytes.now used) p out.old) }
{
    let Some(pages) = Pages::new(dir, bytes, used) else {
        return false;
    };
    pages.read(p, out);
    true
}
