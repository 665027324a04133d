// The set: its card, its names, and what it holds in memory.
ghost use Rattle.std.specs.Prelude.{◌≡◌};
ghost use Rattle.names.specs.Files.{how_many};
ghost use Rattle.sizes.specs.Fitting.{Fitting};
ghost use Rattle.store.specs.Between.{Grown, Live, Rested};

use crate::mode::Mode;
use journal::JOURNAL_LIMIT;
use names::Names;
use pager::Memory;
use sizes::Sizes;
use std::mem::size_of;

mod admit;
mod clear;
mod commits;
mod ends;
mod look;
mod read;
mod recover;
mod savepoint;
mod write;

/// A set of databases over a card. The sizes that are stored are those that the files have; those of
/// the memory are those of the running transaction, and the stored ones while none runs. `begun` counts the
/// transactions: it is the number of the one that runs.
#[derive(Drop)]
pub struct Set<C> {
    card: C,
    names: Names,
    memory: Memory,
    stored: Sizes,
    mode: Mode,
    begun: u32,
    buffer: [u8; JOURNAL_LIMIT],
    ghost tied: { memory.count ≡ how_many names },
    ghost fitting: { Fitting memory.sizes },
    ghost live: { Live mode begun },
    ghost rest: { Rested mode memory stored.rows },
    ghost grown: { Grown memory stored.rows },
}

// With a card of no bytes the set takes at most 64 KiB.
const _: () = prove!(size_of::<Set<()>>() <= 65_536);
