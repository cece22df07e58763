// Writes of the bytes from a physical address on, page by page, as the Rust's loop goes, for as many pages as there are.
// The page number only grows: after page 2^52 - 1 comes page 2^52 (RULES 3.10).
ghost use Rattle.std.specs.Prelude.{◌≡◌, ◌+◌, ◌*◌, ◌≤◌, length};
ghost use Rattle.store.specs.Store.{page_size, store_of, pages_in_use, found_in, with_page, written};
ghost use Rattle.store.specs.Facts.{IsStore, Room};
ghost use Rattle.writes.specs.Writes.{byte_of};
ghost use Rattle.writes.specs.Private.{Fits};

use store::{PAGE_SIZE, PAGE_STEP, find_page, part_length};

// The lent slices of a store while they are written, with the count of slots in use. `Pages` (walk) borrows its slices shared, and is
// copied; these are borrowed to be written, so the two are no one type.
#[derive(Drop)]
pub(crate) struct Slots<'a> {
    pub(crate) dir: &'a mut [u64],
    pub(crate) bytes: &'a mut [u8],
    pub(crate) used: usize,
    pub(crate) ghost sound: { IsStore (store_of dir.now bytes.now used) },
}

impl Slots<'_> {
    ghost use Rattle.writes.specs.Slots.{store_in, SameSlices};

    // The slot of a page, if it has one.
    fn find(&self, page: u64) -> Option<usize>
        ensures { result ≡ found_in (pages_in_use (store_in self.now)) page }
    {
        find_page(self.dir, self.used, page)
    }

    // The slot of a page. An absent page takes the one at the end of those in use, cleared (RULES 3.9): stale bytes must not show.
    fn slot_for(&mut self, page: u64) -> usize
        requires { Room (store_in self.old) page }
        ensures kept { store_in self.new ≡ with_page (store_in self.old) page }
        ensures same { SameSlices self.old self.new }
        ensures found { found_in (pages_in_use (store_in self.new)) page ≡ Some result }
    {
        if let Some(slot) = self.find(page) {
            return slot;
        }
        let slot = self.used;
        self.dir[slot] = page;
        byte_runs::fill(self.bytes, PAGE_SIZE * slot, PAGE_SIZE, 0);
        self.used += 1;
        slot
    }

    // The bytes of part go into one page from off on; an absent page takes a slot.
    fn write_part(&mut self, page: u64, off: usize, part: &[u8])
        requires room { Room (store_in self.old) page }
        requires some { 1 ≤ length part.now }
        requires inside { off + length part.now ≤ page_size }
        ensures same { SameSlices self.old self.new }
        ensures bytes { store_in self.new
            ≡ written (store_in self.old) (page_size * page + off) (byte_of part.now) (length part.now) }
    {
        let slot = self.slot_for(page);
        byte_runs::copy(self.bytes, PAGE_SIZE * slot + off, part, 0, part.len());
    }

    // data goes to the bytes from physical p on, for which there is room. The parts are counted: by `split_at` and `chunks` each comes by
    // itself, but then `mem_write` took 119 instructions for 8 bytes in a page that has a slot, where it takes 113.
    pub(crate) fn write(&mut self, p: u64, data: &[u8])
        requires { Fits (store_in self.old) p (length «data».now) }
        ensures same { SameSlices self.old self.new }
        ensures bytes { store_in self.new ≡ written (store_in self.old) p (byte_of «data».now) (length «data».now) }
    {
        let mut page = p / PAGE_STEP;
        let mut off = (p % PAGE_STEP) as usize;
        let mut done: usize = 0;
        while done < data.len() {
            let n = part_length(off, data.len() - done);
            self.write_part(page, off, &data[done..done + n]);
            page += 1;
            off = 0;
            done += n;
        }
    }
}
