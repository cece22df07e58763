// Runs of bytes, and words among them, within lent slices: a copy, a fill, words read and written, low byte first. Each function takes
// every offset: past the end it reads 0, or writes nothing and says so. Below is utils, which knows one word's bytes. Above are store,
// whose definitions speak of runs, writes, which moves bytes into pages, and walk, whose proofs speak of what is read; and `wire_records`
// and `wire_session`, which move words. specs/Runs.antt says what a run leaves (`filled`), and proofs/Filled.antt has its laws.
// What writes answers a bool: whether it wrote is a truth with nothing beside it, and the promise of these functions (docs/DECISIONS.md),
// whose offsets and counts stay for the same reason. A read past the end is 0 and no absence: `word_in` says so.
// It carries RULES 1.3, of words among bytes, and serves 3.9, a slot that is cleared, and 4.1, bytes that are read or written.
#![tactic(auto)]

ghost use Rattle.std.specs.Prelude.{◌≡◌, ◌&&◌, ℕ, ◌+◌, ◌*◌, length};
ghost use Rattle.byte_runs.specs.Runs.{room, word_in, lane_in, copied_from, FilledIf};

// The word at an offset; 0 where no whole word stands there. By `has_room`, which take_words has asked before: a word is then one load;
// by `get` and `split_first_chunk` it took ten instructions.
#[tactic(auto, unfolding(crate::specs::Runs::room, crate::specs::Runs::word_in))]
pub fn word_at(bytes: &[u8], at: usize) -> u64
    ensures { result ≡ word_in bytes.now at }
{
    if !has_room(bytes.len(), at, 8) {
        return 0;
    }
    let mut word = [0u8; 8];
    word.copy_from_slice(&bytes[at..at + 8]);
    utils::bytes_to_word(word)
}

// Whether n elements from `at` on lie within so many.
#[tactic(auto, unfolding(crate::specs::Runs::room))]
fn has_room(length: usize, at: usize, n: usize) -> bool
    ensures { result ≡ room length at n }
{
    at <= length && n <= length - at
}

// n bytes of src from `from` on go to dst from `at` on. False, and nothing is written, where one of them has no room for that. It is no
// `copy_from_slice`, which is compiled to a call of `memmove`: who links to host_c would have to bring that name.
#[tactic(auto, unfolding(crate::specs::Runs::room))]
pub fn copy(dst: &mut [u8], at: usize, src: &[u8], from: usize, n: usize) -> bool
    ensures { FilledIf (room (length src.now) from n && room (length dst.old) at n)
        dst.old at (copied_from src.now from) n dst.new result }
{
    if !has_room(src.len(), from, n) || !has_room(dst.len(), at, n) {
        return false;
    }
    for (k, byte) in dst[at..at + n].iter_mut().enumerate() {
        *byte = src[from + k];
    }
    true
}

// n bytes from `at` on become v. False, and nothing is written, where there is no room for them.
#[tactic(auto, unfolding(crate::specs::Runs::room))]
pub fn fill(out: &mut [u8], at: usize, n: usize, v: u8) -> bool
    ensures { FilledIf (room (length out.old) at n) out.old at (λ (k : ℕ). v) n out.new result }
{
    if !has_room(out.len(), at, n) {
        return false;
    }
    out[at..at + n].fill(v);
    true
}

// The words go to the bytes from `at` on, low byte first. False, and nothing is written, where there is no room for them all. The places
// are counted: after `chunks_exact_mut` a proof knows how long `out` is, and none of its bytes (the goal `returns` stays open).
#[tactic(auto, unfolding(crate::specs::Runs::room))]
pub fn put_words(out: &mut [u8], at: usize, words: &[u64]) -> bool
    ensures { FilledIf (room (length out.old) at (8 * length words.now))
        out.old at (lane_in words.now) (8 * length words.now) out.new result }
{
    if out.len() / 8 < words.len() || !has_room(out.len(), at, 8 * words.len()) {
        return false;
    }
    for (k, word) in words.iter().enumerate() {
        copy(out, at + 8 * k, &utils::word_to_bytes(*word), 0, 8);
    }
    true
}

// The first n words become those that stand in the bytes from `at` on. False, and nothing is written, where there are fewer of either.
// The places are counted: `chunks_exact` would be zipped with `iter_mut`, and then a proof knows none of the words (`returns` stays open).
#[tactic(auto, unfolding(crate::specs::Runs::room))]
pub fn take_words(words: &mut [u64], n: usize, bytes: &[u8], at: usize) -> bool
    ensures { FilledIf (room (length words.old) 0 n && room (length bytes.now) at (8 * n))
        words.old 0 (λ (k : ℕ). word_in bytes.now (at + 8 * k)) n words.new result }
{
    if words.len() < n || bytes.len() / 8 < n || !has_room(bytes.len(), at, 8 * n) {
        return false;
    }
    for (k, word) in words[..n].iter_mut().enumerate() {
        *word = word_at(bytes, at + 8 * k);
    }
    true
}
