// The speed program: the calls of the machine (RULES 8.2), the texts (6) and the report (8.5, 8.6) in loops, one row to a kind of call,
// each turn's input made from the answers before it, so that no call can be left out. With no argument every row runs a few turns and its
// name and sum are printed; with a row's number and a count of turns that row is run, its name and sum go to standard output, and the
// microseconds of processor time that it took to standard error. oracle/src/pace.rs does the same over the Rust, and tools/pace runs
// both. The crate stands on the machine, its texts and the report; it carries no rule, and docs/SPEED.md has what it measures.
#![tactic(auto)]

mod memory; // memory.rt
mod registers; // registers.rt
mod report; // report.rt
mod rows; // rows.rt: which rows there are, their names and their numbers
mod texts; // texts.rt

use memory::Store;
use rows::{ROWS, Row};
use std::env::{Env, FillError};
use std::io;
use std::time::CpuClock;

// A row's sum takes in an answer.
pub(crate) fn mix(sum: u64, answer: u64) -> u64 {
    (sum ^ answer).wrapping_add(0x9E37_79B9_7F4A_7C15)
}

// Makes each value from the next of a run of sums, which the seed begins.
pub(crate) fn scatter<T: Copy, F: Fn(u64) -> T>(values: &mut [T], seed: u64, make: F)
    requires { F.IsAlwaysCallable make }
{
    let mut x = seed;
    for value in values.iter_mut() {
        x = mix(x, 0);
        *value = make(x);
    }
}

// The number that the digits spell, up to a billion; other bytes are passed over.
fn decimal(word: &[u8]) -> u64 {
    word.iter().fold(0, |n, byte| match *byte {
        digit @ b'0'..=b'9' if n < 100_000_000 => n * 10 + u64::from(digit - b'0'),
        _ => n,
    })
}

// Runs a row, and says its name and sum.
fn show(rt: &impl Print, row: Row, turns: u64, store: &mut Store) -> io::Result<()> {
    let sum = row.run(turns, store);
    println!(rt; "{row}: {sum:016x}")
}

fn show_all(rt: &impl Print, turns: u64, store: &mut Store) -> io::Result<()> {
    for row in ROWS {
        show(rt, row, turns, store)?;
    }
    Ok(())
}

// The processor's time since the program began, in microseconds.
fn micros(rt: &impl CpuClock) -> io::Result<u128> {
    Ok(rt.process_cpu_time()?.as_micros())
}

fn show_timed(
    rt: &(impl Print + Eprint + CpuClock),
    row: Row,
    turns: u64,
    store: &mut Store,
) -> io::Result<()> {
    let began = micros(rt)?;
    show(rt, row, turns, store)?;
    let ended = micros(rt)?;
    eprintln!(rt; "{}", ended.saturating_sub(began))
}

// The number that an argument spells, 0 where it is longer than the buffer; none where there is no such argument.
fn argument(rt: &impl Env, i: usize) -> Option<u64> {
    let mut word = [0; 4096];
    match rt.arg(i, &mut word) {
        Ok(n) => Some(decimal(&word[..n])),
        Err(FillError::TooLong) => Some(0),
        Err(FillError::NotPresent) => None,
    }
}

fn main(rt: HostRuntime) -> io::Result<()> {
    let mut store = Store::new();
    let (Some(number), Some(turns)) = (argument(&rt, 1), argument(&rt, 2)) else {
        return show_all(&rt, 100, &mut store);
    };
    show_timed(&rt, rows::numbered(number), turns, &mut store)
}
