// A machine and a store from a record: what stands before the first call.
ghost use Rattle.wire_session.specs.Starts.{Starts};

use super::Start;
use machine_state::MachineState;
use wire_records::Header;

// Machine and directory from the block, which has just their length; a slots and b bytes are lent, each byte the low byte of c; size is the
// slots in use, any number.
#[tactic(auto, unfolding(byte_runs::specs::Runs::room))]
pub fn reset_to(header: Header, block: &[u8], dir: &mut [u64], bytes: &mut [u8]) -> Option<Start>
    ensures { Starts header block.now dir.old bytes.old result dir.new bytes.new }
{
    let slots = header.a as usize;
    let length = header.b as usize;
    if bytes.len() < length
        || !wire_records::reset_fits(block.len() as u64, header.a)
        || !byte_runs::take_words(dir, slots, block, 200)
    {
        return None;
    }
    byte_runs::fill(bytes, 0, length, (header.c % 256) as u8);
    let mut regs = [0u64; 22];
    byte_runs::take_words(&mut regs, 22, block, 0);
    let machine = MachineState {
        regs,
        rflags: byte_runs::word_at(block, 176),
        gdt: byte_runs::word_at(block, 184),
        idt: byte_runs::word_at(block, 192),
    };
    Some(Start {
        machine,
        slots,
        length,
        used: header.size as usize,
    })
}
