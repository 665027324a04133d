// Writes of one page at the edges of a database, compared with a table.
use anyhow::anyhow;
use pager::Memory;
use refusal::Refusal;
use std::fmt;

/// A database of so many pages: the pages that a transaction may write first, and some that it may not.
struct Edge {
    size: u32,
    written: &'static [u32],
    refused: &'static [u32],
}

/// The edges: 9 sizes, and for each the pages around them.
const EDGES: [Edge; 9] = [
    Edge {
        size: 0,
        written: &[1],
        refused: &[0, 2, 3, 64, 4095, 4096, 4097, 4_294_967_295],
    },
    Edge {
        size: 1,
        written: &[1, 2],
        refused: &[0, 3, 4, 64, 4095, 4096, 4097, 4_294_967_295],
    },
    Edge {
        size: 2,
        written: &[1, 2, 3],
        refused: &[0, 4, 5, 64, 4095, 4096, 4097, 4_294_967_295],
    },
    Edge {
        size: 63,
        written: &[1, 2, 62, 63, 64],
        refused: &[0, 65, 66, 4095, 4096, 4097, 4_294_967_295],
    },
    Edge {
        size: 64,
        written: &[1, 2, 63, 64, 65],
        refused: &[0, 66, 67, 4095, 4096, 4097, 4_294_967_295],
    },
    Edge {
        size: 65,
        written: &[1, 2, 64, 65, 66],
        refused: &[0, 67, 68, 4095, 4096, 4097, 4_294_967_295],
    },
    Edge {
        size: 4094,
        written: &[1, 2, 64, 4093, 4094, 4095],
        refused: &[0, 4096, 4097, 8192, 65_536, 4_294_967_295],
    },
    Edge {
        size: 4095,
        written: &[1, 2, 64, 4094, 4095, 4096],
        refused: &[0, 4097, 4098, 8192, 65_536, 4_294_967_295],
    },
    Edge {
        size: 4096,
        written: &[1, 2, 64, 4094, 4095, 4096],
        refused: &[0, 4097, 4098, 8192, 65_536, 4_294_967_295],
    },
];

/// Page numbers, one after the other.
#[derive(Drop)]
struct Numbers(&'static [u32]);

impl fmt::Display for Numbers {
    fn fmt<W: fmt::Write>(&self, f: &mut fmt::Formatter<W>) -> fmt::Result {
        for number in self.0 {
            write!(f, " {number}")?;
        }
        Ok(())
    }
}

/// Checks that a write of each of the pages, alone, is answered so, and what the size is then.
fn check(size: u32, pages: &[u32], expected: Result<(), Refusal>) -> anyhow::Result<()> {
    for page in pages {
        let mut memory = Memory::new(1, [size, 0, 0, 0]);
        let answer = memory.write(0, *page, &[7; 512]);
        let then = answer.map_or(size, |()| size.max(*page));
        if answer != expected || memory.size(0) != Ok(then) {
            return Err(anyhow!("page {page} of {size}: {answer:?}"));
        }
    }
    Ok(())
}

/// Tells each edge, once its writes were compared.
pub fn compare_each(rt: &HostRuntime) -> anyhow::Result<()> {
    println!(rt; "\nOne write at each edge of a database, as the table says\n")?;
    println!(rt; "{:>5}  {:<32}refused: 9", "pages", "done")?;
    for edge in &EDGES {
        let Edge {
            size,
            written,
            refused,
        } = edge;
        check(*size, written, Ok(()))?;
        check(*size, refused, Err(Refusal::Page))?;
        let written = format!(in rt.alloc(); "{}", Numbers(written))?;
        println!(rt; "{size:>5} {written:<32}{}", Numbers(refused))?;
    }
    Ok(())
}
