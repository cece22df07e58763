// Which records have a block, and how long it must be (docs/FORMAT.md).
ghost use Rattle.std.specs.Prelude.{◌≡◌, eqb};
ghost use Rattle.wire_records.specs.Blocks.{call_block, show_block, block_of, fits_for, block_fits, reset_length};

use super::Header;
use super::kinds::{CallKind, Kind, ShowKind};

// What block a record has: none, one of any length, a reset's, or two headers.
#[derive(Clone, Copy)]
pub(crate) enum Block {
    Nothing,
    Bytes,
    Machine,
    TwoHeaders,
}

fn call_block(call: CallKind) -> Block
    ensures { result ≡ call_block call }
{
    match call {
        CallKind::Push | CallKind::WriteMemory => Block::Bytes,
        _ => Block::Nothing,
    }
}

fn show_block(show: ShowKind) -> Block
    ensures { result ≡ show_block show }
{
    match show {
        ShowKind::Load | ShowKind::Report => Block::Bytes,
        _ => Block::Nothing,
    }
}

fn block_of(kind: Kind) -> Block
    ensures { result ≡ block_of kind }
{
    match kind {
        Kind::Call(call) => call_block(call),
        Kind::Show(show) => show_block(show),
        Kind::Reset => Block::Machine,
        Kind::ReadBack => Block::Bytes,
        Kind::Depends => Block::TwoHeaders,
        Kind::Unknown | Kind::ReadByte | Kind::Access(_) | Kind::Text(_) => Block::Nothing,
    }
}

// Whether so many bytes are the machine's 25 words and a directory of so many slots, and no more.
pub fn reset_fits(length: u64, slots: u64) -> bool
    ensures { result ≡ eqb length (reset_length slots) }
{
    u128::from(length) == 200 + 8 * u128::from(slots)
}

fn fits_for(block: Block, length: u64, slots: u64) -> bool
    ensures { result ≡ fits_for block length slots }
{
    match block {
        Block::Nothing => length == 0,
        Block::Bytes => true,
        Block::Machine => reset_fits(length, slots),
        Block::TwoHeaders => length == 256,
    }
}

// Whether the block that a header announces is as long as its kind asks.
#[tactic(auto, unfolding(crate::specs::Blocks::block_fits))]
pub fn block_fits(header: Header) -> bool
    ensures { result ≡ block_fits header }
{
    fits_for(block_of(header.kind), header.length, header.a)
}
