// The walk (RULES 3.12, 3.13): three levels down from the table that CR3 names, the same step at each.
// That a level is at most 3 is asked in three private contracts: a type of levels would be taken apart in each, for the sum or the step
// down.
ghost use Rattle.std.specs.Prelude.{◌≡◌, ◌≤◌};
ghost use Rattle.walk.specs.Walk.{entry_address, word_at, next_table, walked};
ghost use Rattle.walk.specs.Private.{store_in};

use super::read::Pages;

// The address of the entry in the table: the 9-bit index is at bit 39, 30, 21 for level 3, 2, 1.
#[tactic(auto, unfolding(crate::specs::Walk::entry_address, utils::specs::Word::cut))]
fn entry_address(level: u64, table: u64, address: u64) -> u64
    requires { level ≤ 3 }
    ensures { result ≡ entry_address level table address }
{
    let index = (address >> (12 + 9 * level)) % 512;
    table.wrapping_add(8 * index)
}

impl Pages<'_> {
    // The eight bytes at physical p, as a number. They may lie in two pages.
    #[tactic(auto, unfolding(crate::specs::Walk::word_at))]
    fn word(&self, p: u64) -> u64
        ensures { result ≡ word_at (store_in self.now) p }
    {
        let mut word = [0u8; 8];
        self.read(p, &mut word);
        utils::bytes_to_word(word)
    }

    // The entry for the address, its low 12 bits cleared. No other bit is looked at.
    #[tactic(auto, unfolding(crate::specs::Walk::next_table))]
    fn next_table(&self, level: u64, table: u64, address: u64) -> u64
        requires { level ≤ 3 }
        ensures { result ≡ next_table (store_in self.now) level table address }
    {
        let entry = self.word(entry_address(level, table, address));
        entry - entry % store::PAGE_STEP
    }

    // The walk from a table down to level 0.
    #[tactic(auto, using(crate::proofs::Walked::walked_end, crate::proofs::Walked::walked_step))]
    pub(crate) fn walk(&self, level: u64, table: u64, address: u64) -> u64
        requires { level ≤ 3 }
        ensures { result ≡ walked (store_in self.now) level table address }
    {
        if level == 0 {
            return table.wrapping_add(address % 0x20_0000);
        }
        let next = self.next_table(level, table, address);
        self.walk(level - 1, next, address)
    }
}
