// The numbers of a set's refusals, row by row.
use card::{CardCall, CardFault, Cause};
use journal::JournalFault;
use refusal::{Refusal, SetFault};

/// A fault of the card, as the set tells it.
const FAULT: SetFault = SetFault {
    journal: JournalFault {
        card: CardFault {
            cause: Cause::Device,
            call: CardCall::Sync,
            origin: 3,
        },
        record: 0,
    },
    step: None,
    file: 4,
};

/// The refusals, each with its number; what goes beside a refusal does not count.
const NUMBERS: [(Refusal, u8); 17] = [
    (Refusal::NameCount, 1),
    (Refusal::NameLength(3), 2),
    (Refusal::NameByte(3), 3),
    (Refusal::NamesEqual, 4),
    (Refusal::Cold, 5),
    (Refusal::Transaction, 6),
    (Refusal::NoDatabase, 7),
    (Refusal::BufferLength, 8),
    (Refusal::Page, 9),
    (Refusal::ChangedFull, 10),
    (Refusal::SavedFull, 11),
    (Refusal::SavepointsFull, 12),
    (Refusal::NoSavepoint, 13),
    (Refusal::Damaged { file: 4, record: 1 }, 14),
    (Refusal::Foreign(4), 15),
    (Refusal::Database(1), 16),
    (Refusal::Card(FAULT), 17),
];

#[test]
fn each_refusal_of_a_set_has_its_number(rt: HostRuntime) {
    for (refusal, number) in NUMBERS {
        assert_eq!(rt; refusal.number(), number, "{refusal:?}");
    }
}
