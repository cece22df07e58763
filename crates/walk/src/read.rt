// Reads of the bytes from a physical address on, page by page, as the Rust's loop goes, for as many pages as there are.
// The page number only grows: after page 2^52 - 1 comes page 2^52 (RULES 3.10).
ghost use Rattle.std.specs.Prelude.{◌≡◌, ◌+◌, ◌*◌, ◌≤◌, length, false, true, MatchOption};
ghost use Rattle.store.specs.Store.{page_size, is_store, store_of, read_at};
ghost use Rattle.store.specs.Facts.{IsStore};

use store::{PAGE_SIZE, PAGE_STEP, find_page, is_store, part_length};

// The lent slices of a store, once tested: all that reads goes through them. They are borrowed shared, where `Slots` (writes) borrows them
// to write, so these are two types.
#[derive(Clone, Copy)]
pub(crate) struct Pages<'a> {
    pub(crate) dir: &'a [u64],
    pub(crate) bytes: &'a [u8],
    pub(crate) used: usize,
    pub(crate) ghost sound: { IsStore (store_of dir.now bytes.now used) },
}

impl<'a> Pages<'a> {
    ghost use Rattle.walk.specs.Private.{store_in};

    // The slices as a store, if they are one (RULES 3.5).
    pub(crate) fn new(dir: &'a [u64], bytes: &'a [u8], used: usize) -> Option<Pages<'a>>
        ensures { MatchOption result (is_store (store_of dir.now bytes.now used) ≡ false)
            (λ pages. (is_store (store_of dir.now bytes.now used) ≡ true) × (store_in pages ≡ store_of dir.now bytes.now used)) }
    {
        if !is_store(dir, bytes, used) {
            return None;
        }
        Some(Pages { dir, bytes, used })
    }

    // part becomes bytes of one page, from off on; an absent page reads as zeros and takes no slot.
    fn read_part(&self, page: u64, off: usize, part: &mut [u8])
        requires { off + length part.old ≤ page_size }
        ensures { part.new ≡ read_at (store_in self.now) (page_size * page + off) (length part.old) }
    {
        match find_page(self.dir, self.used, page) {
            Some(i) => {
                let from = PAGE_SIZE * i + off;
                part.copy_from_slice(&self.bytes[from..from + part.len()]);
            }
            None => part.fill(0),
        }
    }

    // out becomes the bytes from physical p on. The parts are counted: by `split_at_mut` and `chunks_mut` each would come by itself, but
    // after `chunks_mut` a proof knows how long `out` is, and none of its bytes (the goal `returns` stays open).
    pub(crate) fn read(&self, p: u64, out: &mut [u8])
        ensures { out.new ≡ read_at (store_in self.now) p (length out.old) }
    {
        let mut page = p / PAGE_STEP;
        let mut off = (p % PAGE_STEP) as usize;
        let mut done: usize = 0;
        while done < out.len() {
            let n = part_length(off, out.len() - done);
            self.read_part(page, off, &mut out[done..done + n]);
            page += 1;
            off = 0;
            done += n;
        }
    }
}
