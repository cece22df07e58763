// The examples but those of exposed places (RULES 10.1 to 10.10, 10.13, 10.14), and a few more, printed one to a line; `rt` compares what
// is written with the file stdout beside this folder. 10.1 to 10.12 are proved too, in one table: promises/proofs/Table.antt. The crate
// stands on the machine and its texts, and nothing stands on it.
#![tactic(auto)]

mod memory; // memory.rt
mod registers; // registers.rt
mod show; // show.rt
mod texts; // texts.rt

use std::io;

fn main(rt: HostRuntime) -> io::Result<()> {
    registers::all(&rt)?;
    memory::all(&rt)?;
    texts::all(&rt)
}
