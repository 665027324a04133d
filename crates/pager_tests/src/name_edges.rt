// Lists of names at their limits.
use names::checked;
use refusal::Refusal::{self, NameByte, NameCount, NameLength, NamesEqual};

/// Lists of names, each with its refusal, none if it is checked.
// An Option, since the names of a good list are not compared.
const LISTS: [(&[&[u8]], Option<Refusal>); 12] = [
    // a list has 1 to 4 names
    (&[], Some(NameCount)),
    (&[b"a", b"b", b"c", b"d"], None),
    (&[b"a", b"b", b"c", b"d", b"e"], Some(NameCount)),
    // names have 1 to 24 printable bytes
    (&[b"aaaaaaaaaaaaaaaaaaaaaaaa"], None),
    (&[b"aaaaaaaaaaaaaaaaaaaaaaaaa"], Some(NameLength(0))),
    (&[b"a\n", b""], Some(NameLength(1))),
    (&[b"a", b"a~ "], None),
    (&[b"a", b"a\n"], Some(NameByte(1))),
    // all file names differ
    (&[b"a", b"a"], Some(NamesEqual)),
    (&[b"a", b"a-journal"], Some(NamesEqual)),
    (&[b"a", b"a-mj"], Some(NamesEqual)),
    (&[b"a", b"b-mj"], None),
];

#[test]
fn each_list_is_checked_or_refused_as_the_table_says(rt: HostRuntime) {
    for (list, refusal) in LISTS {
        assert_eq!(rt; checked(list).err(), refusal, "{list:?}");
    }
}

#[test]
fn each_file_of_a_list_is_found_by_its_name(rt: HostRuntime) {
    let names = checked(&[b"a", b"b"]).expect(&rt, "two names");
    let numbers: [(&[u8], Option<usize>); 9] = [
        (b"a", Some(0)),
        (b"b", Some(1)),
        (b"a-journal", Some(4)),
        (b"b-journal", Some(5)),
        (b"a-mj", Some(8)),
        (b"b-mj", None),
        (b"c", None),
        (b"c-journal", None),
        (b"", None),
    ];
    for (name, number) in numbers {
        assert_eq!(rt; names.number_of(name), number, "{name:?}");
    }
}
