// Calls in, answers out: reads records from standard input, carries each out and writes its answer to standard output, until the input
// ends (docs/FORMAT.md). The machine goes from record to record by value; the store lies in arrays of main's, lent downwards. Everything
// but reading and writing is in `wire_records` and `wire_session`, below, but for the few records of services.rt. tools/compare feeds
// this program the calls that the Rust was given, and compares the answers (RULES 7.7).
#![tactic(auto)]

use machine_state::MachineState;
use std::io::{BufReader, BufWriter, Read, Stdin, Stdout, Write};
use std::process::ExitCode;
use std::{fmt, io};
use wire_records::{CallKind, Header, Kind, ShowKind};
use wire_session::{Carried, Start};

mod services; // services.rt: the records that leave the machine and the store

// Why a record could not be carried out.
#[derive(Debug, Drop)]
enum Fault {
    Malformed,
    CutShort,
    Block,
    Unwritten,
    Unread(io::Error),
}

impl fmt::Display for Fault {
    fn fmt<W: fmt::Write>(&self, f: &mut fmt::Formatter<W>) -> fmt::Result {
        match self {
            Fault::Malformed => write!(f, " is malformed"),
            Fault::CutShort => write!(f, " is cut short"),
            Fault::Block => write!(f, ": its block is too long or cut short"),
            Fault::Unwritten => write!(f, ": the answer could not be written"),
            Fault::Unread(error) => write!(f, ": {error}"),
        }
    }
}

impl From<io::Error> for Fault {
    fn from(error: io::Error) -> Fault {
        Fault::Unread(error)
    }
}

// Which record that was, counted from 0.
#[derive(Debug, Drop)]
struct Stopped {
    record: u64,
    fault: Fault,
}

// Standard input is read ahead; what a record is answered goes out at once.
#[derive(Drop)]
struct Streams {
    input: BufReader<Stdin>,
    output: BufWriter<Stdout>,
}

// Reads until the buffer is full or the input ends. Returns how many bytes it got, which std's `read_exact` does not say: it is asked here,
// for nothing at all ends the run, and too little is a record cut short.
fn read_full(input: &mut BufReader<Stdin>, buf: &mut [u8]) -> io::Result<usize> {
    let mut done = 0;
    while done < buf.len() {
        let n = input.read(&mut buf[done..])?;
        if n == 0 {
            break;
        }
        done += n;
    }
    Ok(done)
}

// The block of so many bytes that follows a header.
fn read_block(n: usize, block: &mut [u8], streams: &mut Streams) -> Result<(), Fault> {
    let wanted = block.get_mut(..n).ok_or(Fault::Block)?;
    if read_full(&mut streams.input, wanted)? < n {
        return Err(Fault::Block);
    }
    Ok(())
}

fn write_parts(out: &[u8], given: &[u8], output: &mut BufWriter<Stdout>) -> io::Result<()> {
    output.write_all(out)?;
    output.write_all(given)?;
    output.flush()
}

// Writes the answer, and says where the program stands after it.
fn answer(
    carried: Carried,
    state: Start,
    block: &[u8],
    streams: &mut Streams,
) -> Result<Start, Fault> {
    let reply = carried.reply.ok_or(Fault::Malformed)?;
    let given = block.get(..reply.given).ok_or(Fault::Unwritten)?;
    let out = wire_records::encode(reply, carried.event, carried.used);
    if write_parts(&out, given, &mut streams.output).is_err() {
        return Err(Fault::Unwritten);
    }
    Ok(Start {
        machine: carried.machine,
        used: carried.used,
        ..state
    })
}

// Whether a record is lent a buffer of b bytes, each byte of it the low byte of c.
fn fills(kind: Kind) -> bool {
    matches!(kind, Kind::Call(CallKind::ReadMemory) | Kind::Text(_))
}

// How many of the block's bytes are lent to the record: a read and a text have their buffer, a call and a load what follows the
// header, and what shows or reports all of it, for its answer.
fn lent_length(header: Header) -> usize {
    match header.kind {
        Kind::Call(CallKind::ReadMemory) | Kind::Text(_) => header.b as usize,
        Kind::Call(_) | Kind::Show(ShowKind::Load) => header.length as usize,
        _ => 8192,
    }
}

// Carries out a record on the parts of the arrays that are its buffer and the store.
fn carried(
    header: Header,
    state: Start,
    block: &mut [u8],
    dir: &mut [u64],
    bytes: &mut [u8],
) -> Carried {
    let n = lent_length(header);
    if block.len() < n || dir.len() < state.slots || bytes.len() < state.length {
        return wire_session::malformed(state.machine, state.used);
    }
    if fills(header.kind) {
        block[..n].fill((header.c % 256) as u8);
    }
    wire_session::carry_out(
        header,
        state.machine,
        &mut block[..n],
        &mut dir[..state.slots],
        &mut bytes[..state.length],
        state.used,
    )
}

// A reset is lent the bytes that follow its header, and none of an earlier record's.
fn restart(
    header: Header,
    block: &[u8],
    dir: &mut [u64],
    bytes: &mut [u8],
) -> Result<Start, Fault> {
    let lent = block.get(..header.length as usize).ok_or(Fault::Malformed)?;
    wire_session::reset_to(header, lent, dir, bytes).ok_or(Fault::Malformed)
}

fn carry_out(
    header: Header,
    state: Start,
    block: &mut [u8; 8192],
    dir: &mut [u64],
    bytes: &mut [u8],
    streams: &mut Streams,
) -> Result<Start, Fault> {
    match header.kind {
        Kind::Reset => {
            let fresh = restart(header, block, dir, bytes)?;
            let done = wire_session::done(fresh.machine, fresh.used);
            answer(done, fresh, block, streams)
        }
        Kind::ReadBack | Kind::Depends => {
            let reply = services::serve(header, block);
            let left = Carried {
                reply,
                ..wire_session::done(state.machine, state.used)
            };
            answer(left, state, block, streams)
        }
        _ => {
            let left = carried(header, state, block, dir, bytes);
            answer(left, state, block, streams)
        }
    }
}

// One record: where the program stands after it, or nothing where the input ends before it.
fn one(
    state: Start,
    block: &mut [u8; 8192],
    dir: &mut [u64],
    bytes: &mut [u8],
    streams: &mut Streams,
) -> Result<Option<Start>, Fault> {
    let mut record = [0u8; 128];
    let got = read_full(&mut streams.input, &mut record)?;
    if got == 0 {
        return Ok(None);
    }
    if got < record.len() {
        return Err(Fault::CutShort);
    }
    let header = wire_records::header_in(&record, 0);
    read_block(header.length as usize, block, streams)?;
    let next = carry_out(header, state, block, dir, bytes, streams)?;
    Ok(Some(next))
}

// Record by record, to the input's end. Between records stands what a reset leaves: the machine, how much of the arrays is the store, and
// the slots in use. The arrays are main's, and lent one by one: a struct of them would be taken apart again for each record.
// A proved loop has to end, and nothing says that the input does: so many records no run has.
fn all(
    block: &mut [u8; 8192],
    dir: &mut [u64],
    bytes: &mut [u8],
    streams: &mut Streams,
) -> Result<(), Stopped> {
    let mut state = Start {
        machine: MachineState::new(),
        slots: 0,
        length: 0,
        used: 0,
    };
    for record in 0..u64::MAX {
        match one(state, block, dir, bytes, streams) {
            Ok(Some(next)) => state = next,
            Ok(None) => break,
            Err(fault) => return Err(Stopped { record, fault }),
        }
    }
    Ok(())
}

// Takes the arrays as arrays, whose lengths their types say: where they become slices in main itself, as they are written there, the check
// of their half a million elements runs out of stack.
fn lent(
    block: &mut [u8; 8192],
    dir: &mut [u64; 128],
    bytes: &mut [u8; 524288],
    streams: &mut Streams,
) -> Result<(), Stopped> {
    all(block, dir, bytes, streams)
}

// The status is not 0 where a record could not be carried out; where the input can't be read, it ends with that error.
fn main(rt: HostRuntime) -> io::Result<ExitCode> {
    let mut streams = Streams {
        input: BufReader::new(rt.alloc(), rt.stdin())?,
        output: BufWriter::new(rt.alloc(), rt.stdout())?,
    };
    let mut block = [0u8; 8192];
    let mut dir = [0u64; 128];
    let mut bytes = [0u8; 524288];
    match lent(&mut block, &mut dir, &mut bytes, &mut streams) {
        Ok(()) => Ok(ExitCode::SUCCESS),
        Err(
            Stopped {
                fault: Fault::Unread(error),
                ..
            },
        ) => Err(error),
        Err(Stopped { record, fault }) => {
            let _ = eprintln!(rt; "drive: record {record}{fault}");
            Ok(ExitCode::FAILURE)
        }
    }
}
