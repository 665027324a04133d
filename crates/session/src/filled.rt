// A journal of a database's first pages, filled and printed.
use anyhow::Context;
use journal::{JOURNAL_LIMIT, PAGE, RECORD_LIMIT, SUPER_EXTRA, record_place};
use journal_writer::{put_count, put_header, put_name, put_record};

/// The nonce of the journals that the program writes.
const NONCE: u32 = 7;

/// Fills the buffer with a journal of these pages, from page 1 on, and tells its length.
// ok, here and in this program: the refusals are no errors of the library's kind, and the program says its own words.
pub fn fill(buffer: &mut [u8], pages: &[u8], name: Option<&[u8]>) -> anyhow::Result<usize> {
    let size = u32::try_from(pages.len() / PAGE).unwrap_or(u32::MAX);
    put_header(buffer, NONCE, size)
        .ok()
        .context("a database has 1 to 4,096 pages")?;
    let count = size.min(RECORD_LIMIT);
    for (index, page) in (0..count).zip(pages.chunks_exact(PAGE)) {
        put_record(buffer, index, NONCE, index.saturating_add(1), page)
            .ok()
            .context("a page finds no room in the journal")?;
    }
    put_count(buffer, count)
        .ok()
        .context("a journal has a record")?;
    let length = record_place(count);
    let Some(name) = name else {
        return Ok(length);
    };
    put_name(buffer, count, name)
        .ok()
        .context("a super-journal's name has 1 to 32 bytes")?;
    Ok(length + SUPER_EXTRA + name.len())
}

/// Prints a journal of a database's first pages as hex, 32 bytes to a line, naming a super-journal if
/// one is given.
pub fn print_journal(rt: &HostRuntime, pages: &[u8], name: Option<&[u8]>) -> anyhow::Result<()> {
    let mut buffer = vec![in rt.alloc(); 0u8; JOURNAL_LIMIT]?;
    let length = fill(&mut buffer, pages, name)?;
    let end = length.min(buffer.len());
    // written in both programs, since it asks for heap, and a library has none
    for line in buffer[0..end].chunks(32) {
        let line = hex::encode(rt.alloc(), line)?;
        println!(rt; "{line}")?;
    }
    Ok(())
}
