// A transaction in memory, with nested savepoints, told step by step.
use pager::Memory;
use refusal::Refusal;

/// What the transaction writes into a page.
const PAGE: [u8; 512] = [5; 512];

/// The header of the table of steps.
fn head(rt: &HostRuntime) -> anyhow::Result<()> {
    println!(rt; "\nA transaction in memory, over databases of 3 and 4095 pages\n")?;
    println!(rt;
        "{:<34}{:<14}{:>8}{:>10}{:>12}{:>8}",
        "asked", "answered", "sizes", "changed", "savepoints", "saved"
    )?;
    Ok(())
}

/// A row: what was asked and answered, and what the memory then holds.
// The memory goes to each row, and no struct has it: one would lend what the next call changes.
fn row<T: Drop>(
    rt: &HostRuntime,
    asked: &str,
    answer: Result<T, Refusal>,
    memory: &Memory,
) -> anyhow::Result<()> {
    // a string, since only one fills a column, and in this one place
    let answered = match answer {
        Ok(_) => String::from_str(rt.alloc(), "done")?,
        Err(refusal) => format!(in rt.alloc(); "refused: {}", refusal.number())?,
    };
    let [a, b] = [0, 1].map(|database| memory.size(database).unwrap_or(0));
    let [x, y] = [0, 1].map(|database| memory.changed_count(database).unwrap_or(0));
    let savepoints = memory.savepoints();
    let saved = memory.saved_count();
    println!(rt; "{asked:<34}{answered:<14}{a:>3}{b:>5}{x:>7}{y:>3}{savepoints:>12}{saved:>8}")?;
    Ok(())
}

/// Writes, savepoints and releases, with what the memory holds after each.
pub fn change_pages(rt: &HostRuntime) -> anyhow::Result<()> {
    let mut m = Memory::new(2, [3, 4095, 0, 0]);
    head(rt)?;
    row(rt, "write page 2 of database 0", m.write(0, 2, &PAGE), &m)?;
    row(rt, "savepoint", m.push(), &m)?;
    row(rt, "write page 2 of database 0", m.write(0, 2, &PAGE), &m)?;
    row(rt, "add page 4 to database 0", m.write(0, 4, &PAGE), &m)?;
    row(rt, "savepoint", m.push(), &m)?;
    row(rt, "write page 2 of database 0", m.write(0, 2, &PAGE), &m)?;
    let answer = m.write(1, 4096, &PAGE);
    row(rt, "add page 4096 to database 1", answer, &m)?;
    let answer = m.write(1, 4097, &PAGE);
    row(rt, "add page 4097 to database 1", answer, &m)?;
    row(rt, "release savepoint 2", m.release(2), &m)?;
    row(rt, "release savepoint 2", m.release(2), &m)?;
    row(rt, "release savepoint 1", m.release(1), &m)
}
