// The databases of the tests: their files, the transaction that changes them, and what they show.
use card::{Card, CardFault};
use direct_card::DirectCard;
use journal::PAGE;
use refusal::{Refusal, SetFault};
use std::array;
use std::process::Abort;
use store::Set;
use store::checked_names::{Names, checked};
use trouble_layer::TroubleLayer;

/// 16 slots, with 2,048 bytes for each file; a delayed card has two halves of that.
pub const IMAGE: usize = 33360;

/// What the databases hold: two pages each; or, after the transaction, the second one changed and a
/// third one more.
#[derive(Clone, Copy, PartialEq, Eq, Debug)]
pub enum Version {
    Old,
    New,
}

impl Version {
    /// How many pages a database has.
    fn size(self) -> u8 {
        match self {
            Version::Old => 2,
            Version::New => 3,
        }
    }
}

/// A page of a database, as a version has it; pages go by number from 1.
#[derive(Clone, Copy, Debug)]
pub struct Page {
    database: u8,
    number: u8,
    version: Version,
}

impl Page {
    /// The page of that number.
    pub fn new(database: u8, number: u8, version: Version) -> Page {
        Page {
            database,
            number,
            version,
        }
    }

    /// Its bytes; two pages differ in every byte, and so do two versions of one that changes.
    pub fn bytes(self) -> [u8; PAGE] {
        let Page {
            database,
            number,
            version,
        } = self;
        let changed = version == Version::New && number != 1;
        let mark = database.wrapping_mul(16) ^ number.wrapping_mul(2) ^ u8::from(changed);
        // the lowest byte of a place, cut off on purpose
        array::from_fn(|place| mark ^ (place & 0xff) as u8)
    }

    /// Checks that a set shows the page.
    pub fn check<C: Card>(self, rt: &impl Abort, set: &mut Set<C>) {
        let mut bytes = [0u8; PAGE];
        let answer = set.read(
            usize::from(self.database),
            u32::from(self.number),
            &mut bytes,
        );
        assert_eq!(rt; (answer, bytes == self.bytes()), (Ok(()), true), "{self:?}");
    }
}

/// The names of the first databases: a, b, c, d.
pub fn names(rt: &impl Abort, count: u8) -> Names {
    let all: [&[u8]; 4] = [b"a", b"b", b"c", b"d"];
    checked(&all[0..usize::from(count).min(4)]).expect(rt, "one to four databases")
}

/// Makes the files of the first databases, with their old pages.
pub fn make_databases<C: Card>(card: &mut C, count: u8) -> Result<(), CardFault> {
    // databases go by number in a call
    for database in 0..count {
        let name = [b'a'.saturating_add(database)];
        card.create(&name)?;
        card.write(&name, 0, &Page::new(database, 1, Version::Old).bytes())?;
        // as, since no From narrows a number: that a page's length fits is seen
        card.write(
            &name,
            PAGE as u32,
            &Page::new(database, 2, Version::Old).bytes(),
        )?;
        card.sync(&name)?;
    }
    Ok(())
}

/// A direct card with the files of the first databases.
pub fn direct<'a>(rt: &impl Abort, image: &'a mut [u8; IMAGE], count: u8) -> DirectCard<'a> {
    let mut card = DirectCard::new(image, 3);
    make_databases(&mut card, count).expect(rt, "room for the databases");
    card
}

/// A layer over a card that refuses the calls of those numbers, at most eight.
pub fn layer<'a>(
    rt: &impl Abort,
    card: DirectCard<'a>,
    calls: &[u32],
) -> TroubleLayer<DirectCard<'a>> {
    // no ok: the check does not cover a call that takes an answer with a card in its error
    match TroubleLayer::new(card, calls, 4) {
        Ok(layer) => layer,
        Err(_) => panic!(rt; "over eight numbers"),
    }
}

/// A set of the first databases over a card, ready.
pub fn ready<C: Card>(rt: &impl Abort, card: C, count: u8) -> Set<C> {
    let mut set = Set::new(names(rt, count), card);
    assert!(rt; set.recover().is_ok());
    set
}

/// Commits the transaction that takes each database from its old pages to its new ones.
pub fn commit_new<C: Card>(set: &mut Set<C>, count: u8) -> Result<usize, Refusal> {
    let t = set.begin(7);
    // databases go by number in a call
    for database in 0..count {
        for number in [2, 3] {
            let page = Page::new(database, number, Version::New);
            let _ = set.write(&t, usize::from(database), u32::from(number), &page.bytes());
        }
    }
    set.commit(t)
}

/// The fault that stopped a commit, none if it came through. No other refusal stops it.
// By cases: of the refusals one is an answer here, and every other fails the test.
pub fn stopped_by(rt: &impl Abort, answer: Result<usize, Refusal>) -> Option<SetFault> {
    match answer {
        Ok(_) => None,
        Err(Refusal::Card(fault)) => Some(fault),
        Err(refusal) => panic!(rt; "a commit was refused: {refusal:?}"),
    }
}

/// Checks that all databases have the size and the pages of one version.
pub fn check_all<C: Card>(rt: &impl Abort, set: &mut Set<C>, count: u8, version: Version) {
    // databases and pages go by number in a call
    for database in 0..count {
        assert_eq!(rt;
            set.size(usize::from(database)),
            Ok(u32::from(version.size())),
            "database {database}, to show {version:?}"
        );
        for number in 1..=version.size() {
            Page::new(database, number, version).check(rt, set);
        }
    }
}
