// The store of pages: what it is, the search of its directory, the absent pages that an access touches, the view of one page, and its
// laws. Below are utils and `byte_runs`, which know words and runs of bytes; above are walk and writes, whose reads and writes go page by
// page through what the search finds, mmu, which asks first whether it is a store, and `wire_session`, which shows a page.
// specs/Store.antt has the store as a value: its bytes by physical address, and what writing bytes makes of it; proofs/ has the laws,
// which name no function of the crates above.
// `dir`, `bytes` and `used` are handed on as three: any slices and number may be lent, and what is no store is refused (RULES 3.5, 4.8),
// so they have no invariant until `is_store` has been asked.
// It carries RULES 3.4 to 3.10 and the page view, 3.15 and 7.4, with the tests of refusal 4.
#![tactic(auto)]

ghost use Rattle.std.specs.Prelude.{◌≡◌, ◌+◌, ◌≤◌, ◌<◌, length, take, MatchOption};
ghost use Rattle.store.specs.Store.{store_of, is_store, seek, found_in, slot_of, touched, absent_of, part_length};
ghost use Rattle.store.specs.View.{zero_page, view_of};

// A page has so many bytes (RULES 3.6).
pub const PAGE_SIZE: usize = 4096;

// The same, as a part of an address.
pub const PAGE_STEP: u64 = PAGE_SIZE as u64;

// Whether the lent slices make a store (RULES 3.5): refusal 4 if not. The slots are bounded first, so that the product fits.
#[tactic(auto, unfolding(crate::specs::Store::is_store))]
pub fn is_store(dir: &[u64], bytes: &[u8], used: usize) -> bool
    ensures { result ≡ is_store (store_of dir.now bytes.now used) }
{
    dir.len() <= 65536 && used <= dir.len() && bytes.len() == PAGE_SIZE * dir.len()
}

// How far slot i is from the first slot that holds the number, if less than four. No slot before i holds it.
fn among_four(dir: &[u64], i: usize, page: u64) -> Option<usize>
    requires { (i + 4 ≤ length dir.now) × (i ≤ seek dir.now page) }
    ensures { MatchOption result (i + 4 ≤ seek dir.now page) (λ k. (k < 4) × (i + k ≡ seek dir.now page)) }
{
    dir[i..i + 4].iter().position(|held| *held == page)
}

// The first slot in use that holds the number, or none, by break (RULES 3.7, 9.6): eight slots a turn, and one where fewer are left.
// One `position` over all of them took 3.0 instructions a slot, where this takes 2.7.
#[tactic(auto, using(crate::proofs::Seek::seek_more))]
pub fn find_page(dir: &[u64], used: usize, page: u64) -> Option<usize>
    ensures { result ≡ found_in (take used dir.now) page }
{
    let end = used.min(dir.len());
    let mut i: usize = 0;
    loop {
        if 8 <= end - i {
            if let Some(k) = among_four(dir, i, page) {
                break Some(i + k);
            }
            if let Some(m) = among_four(dir, i + 4, page) {
                break Some(i + 4 + m);
            }
            i += 8;
            continue;
        }
        if end <= i {
            break None;
        }
        if dir[i] == page {
            break Some(i);
        }
        i += 1;
    }
}

// The slot in which n bytes from physical p on lie: none if they go on into a second page, or if theirs is absent.
#[tactic(auto, unfolding(crate::specs::Store::slot_of))]
pub fn slot_of(p: u64, n: usize, dir: &[u64], used: usize) -> Option<usize>
    ensures { result ≡ slot_of (take used dir.now) p n }
{
    let off = (p % PAGE_STEP) as usize;
    if PAGE_SIZE - off < n {
        return None;
    }
    find_page(dir, used, p / PAGE_STEP)
}

// How many of the pages that n bytes from physical p on touch are absent, for any n: no sum here passes the largest number.
#[tactic(auto, using(crate::proofs::Absent::touched_none))]
pub fn count_absent(p: u64, n: usize, dir: &[u64], used: usize) -> usize
    ensures { result ≡ absent_of (take used dir.now) (touched p n) }
{
    if n == 0 {
        return 0;
    }
    let off = (p % PAGE_STEP) as usize;
    let first = p / PAGE_STEP;
    let pages = (n - 1) / PAGE_SIZE + ((n - 1) % PAGE_SIZE + off) / PAGE_SIZE + 1;
    (first..first + pages as u64)
        .filter(|page| find_page(dir, used, *page).is_none())
        .count()
}

// How many of the bytes that are left of an access lie in the page it has reached, from byte `off` of it on: to its end, or all of them.
#[tactic(auto, unfolding(crate::specs::Store::part_length))]
pub fn part_length(off: usize, left: usize) -> usize
    ensures { result ≡ part_length off left }
{
    PAGE_SIZE.saturating_sub(off).min(left)
}

// Whether z is 4,096 zeros. Every byte is looked at, with no way out at the first that is none: so sixteen are taken at a time. By `all`,
// one by one, a view of a page took six times as long.
#[tactic(auto, unfolding(crate::specs::View::zero_page))]
fn is_zero_page(z: &[u8]) -> bool
    ensures { result ≡ zero_page z.now }
{
    z.len() == PAGE_SIZE && z.iter().fold(true, |zero, byte| zero & (*byte == 0))
}

// One page (RULES 3.15): a part of the store's bytes, or the lent page of zeros if it is absent. Refuses 4, by an empty part (RULES 7.4).
#[tactic(auto, unfolding(crate::specs::View::view_of))]
pub fn page_view<'a>(
    page: u64,
    dir: &[u64],
    bytes: &'a [u8],
    used: usize,
    zeros: &'a [u8],
) -> &'a [u8]
    ensures { result.now ≡ view_of (store_of dir.now bytes.now used) zeros.now page }
{
    if !is_store(dir, bytes, used) || !is_zero_page(zeros) {
        return &zeros[..0];
    }
    match find_page(dir, used, page) {
        Some(i) => &bytes[PAGE_SIZE * i..PAGE_SIZE * i + PAGE_SIZE],
        None => zeros,
    }
}
