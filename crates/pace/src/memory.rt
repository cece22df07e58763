// Reads, writes, the walk and the stack.
use super::{mix, scatter};
use instruction_set::Register;
use machine_state::{Answer, Given, MachineState};
use std::fmt;

// Where the rows' pages begin: past the screen, which shows what is written to it.
const FIRST: u64 = 0x10_0000;

// How many pages a row touches.
#[derive(Clone, Copy)]
pub(crate) enum Pages {
    One,
    Sixteen,
    Many,
}

impl fmt::Display for Pages {
    fn fmt<W: fmt::Write>(&self, f: &mut fmt::Formatter<W>) -> fmt::Result {
        f.write_str(match self {
            Pages::One => "1 page",
            Pages::Sixteen => "16 pages",
            Pages::Many => "512 pages",
        })
    }
}

impl Pages {
    fn count(self) -> u64 {
        match self {
            Pages::One => 1,
            Pages::Sixteen => 16,
            Pages::Many => 512,
        }
    }

    // The mask of an address over the pages: the page's number and the offset in it. A row touches the first 64 + 8 bytes of each.
    fn mask(self) -> u64 {
        match self {
            Pages::One => 0x3F,
            Pages::Sixteen => 0xF03F,
            Pages::Many => 0x1F_F03F,
        }
    }
}

fn painted(seed: u64) -> [u8; 72] {
    let mut data = [0; 72];
    scatter(&mut data, seed, |x| (x / 0x1000 % 256) as u8);
    data
}

fn with(register: Register, value: u64) -> MachineState {
    MachineState::new()
        .set_register_value(register, value)
        .machine
}

fn value_of(answer: Answer) -> u64 {
    match answer {
        Ok(Given::Word(value)) => value,
        Ok(Given::Nothing) => 1,
        Ok(Given::Truth(_)) => 2,
        Err(_) => 3,
    }
}

// The store that the rows share, and its slots in use.
#[derive(Drop)]
pub(crate) struct Store {
    dir: [u64; 512],
    bytes: [u8; 2097152],
    used: usize,
}

impl Store {
    pub(crate) fn new() -> Store {
        Store {
            dir: [0; 512],
            bytes: [0; 2097152],
            used: 0,
        }
    }

    // Each row has the pages to itself: it starts with no slot in use.
    pub(crate) fn empty(&mut self) {
        self.used = 0;
    }

    // Fills the first bytes of so many pages from an address on.
    fn fill(&mut self, start: u64, pages: u64) {
        let machine = MachineState::new();
        let mut at = start;
        for _ in 0..pages {
            let data = painted(at);
            let done = machine.mem_write(at, &data, &mut self.dir, &mut self.bytes, self.used);
            self.used = done.used;
            at = at.wrapping_add(4096);
        }
    }

    fn reads_from(&self, machine: MachineState, start: u64, mask: u64, turns: u64) -> u64 {
        // Slices taken before the loop: with the arrays borrowed in each turn one took 231 instructions, and not 97.
        let dir = &self.dir[..];
        let bytes = &self.bytes[..];
        let used = self.used;
        let mut now = machine;
        let mut sum = 1;
        for _ in 0..turns {
            let mut out = [0; 8];
            let address = start.wrapping_add((sum >> 20) & mask);
            let done = now.mem_read(address, &mut out, dir, bytes, used);
            now = done.machine;
            sum = mix(sum, utils::bytes_to_word(out));
        }
        sum
    }

    // A turn reads 8 bytes.
    pub(crate) fn reads(&mut self, pages: Pages, turns: u64) -> u64 {
        self.fill(FIRST, pages.count());
        self.reads_from(MachineState::new(), FIRST, pages.mask(), turns)
    }

    // The tables of the example of the walk (RULES 10.9), which take 0x40200000 to 0x600000.
    fn put_tables(&mut self) {
        let m = MachineState::new();
        let one = m.mem_write(
            0x1000,
            &[0x03, 0x20],
            &mut self.dir,
            &mut self.bytes,
            self.used,
        );
        let two = m.mem_write(
            0x2008,
            &[0x03, 0x30],
            &mut self.dir,
            &mut self.bytes,
            one.used,
        );
        let three = m.mem_write(
            0x3008,
            &[0x83, 0x00, 0x60],
            &mut self.dir,
            &mut self.bytes,
            two.used,
        );
        self.used = three.used;
    }

    // A turn reads 8 bytes of 16 pages by a walk through the tables.
    pub(crate) fn walks(&mut self, turns: u64) -> u64 {
        self.put_tables();
        self.fill(0x60_0000, Pages::Sixteen.count());
        let machine = with(Register::CR3, 0x1000);
        self.reads_from(machine, 0x4020_0000, Pages::Sixteen.mask(), turns)
    }

    // A turn writes 8 bytes. The sum ends with reads of what was written.
    pub(crate) fn writes(&mut self, pages: Pages, turns: u64) -> u64 {
        self.fill(FIRST, pages.count());
        let mut now = MachineState::new();
        let mut sum = 1;
        for _ in 0..turns {
            let address = FIRST.wrapping_add((sum >> 20) & pages.mask());
            let data = utils::word_to_bytes(sum);
            let done = now.mem_write(address, &data, &mut self.dir, &mut self.bytes, self.used);
            now = done.machine;
            self.used = done.used;
            sum = mix(sum, done.used as u64);
        }
        mix(sum, self.reads_from(now, FIRST, pages.mask(), 100))
    }

    // A turn is a push of 8 bytes and a pop.
    pub(crate) fn stack(&mut self, turns: u64) -> u64 {
        let mut now = with(Register::RSP, FIRST + 0x800);
        let mut sum = 1;
        for _ in 0..turns {
            let data = utils::word_to_bytes(sum >> 7);
            let pushed = now.stack_push(&data, &mut self.dir, &mut self.bytes, self.used);
            let popped = pushed
                .machine
                .stack_pop(&self.dir, &self.bytes, pushed.used);
            now = popped.machine;
            self.used = popped.used;
            sum = mix(sum, value_of(popped.answer));
        }
        mix(sum, now.get_register_value(Register::RSP))
    }
}
