// Pages at the edges of a database, row by row.
use pager::Memory;
use refusal::Refusal;

/// Writes of one page: the database's size in pages, the page, and the answer.
const EDGES: [(u32, u32, Result<(), Refusal>); 18] = [
    (0, 0, Err(Refusal::Page)),
    (0, 1, Ok(())),
    (0, 2, Err(Refusal::Page)),
    (1, 0, Err(Refusal::Page)),
    (1, 1, Ok(())),
    (1, 2, Ok(())),
    (1, 3, Err(Refusal::Page)),
    (64, 64, Ok(())),
    (64, 65, Ok(())),
    (64, 66, Err(Refusal::Page)),
    (4094, 4095, Ok(())),
    (4094, 4096, Err(Refusal::Page)),
    (4095, 4096, Ok(())),
    (4095, 4097, Err(Refusal::Page)),
    (4096, 1, Ok(())),
    (4096, 4096, Ok(())),
    (4096, 4097, Err(Refusal::Page)),
    (4096, 4294967295, Err(Refusal::Page)),
];

#[test]
fn each_edge_is_answered_as_the_table_says_and_a_written_page_is_the_one_changed(rt: HostRuntime) {
    for (size, page, answer) in EDGES {
        let mut memory = Memory::new(1, [size, 0, 0, 0]);
        assert_eq!(rt;
            (memory.write(0, page, &[7; 512]), memory.next_changed(0, 0)),
            (answer, Ok(answer.is_ok().then_some(page))),
            "page {page} of {size}"
        );
    }
}
