// Two databases with files beside them, and what a recovery makes of that.
use crate::contents::{IMAGE, Page, Version, check_all, direct, names};
use card::Card;
use direct_card::DirectCard;
use recovery::Found;
use refusal::Refusal;
use std::process::Abort;
use store::Set;

/// A file beside the databases.
#[derive(Clone, Copy)]
pub struct Beside<'a> {
    name: &'a [u8],
    bytes: &'a [u8],
}

impl<'a> Beside<'a> {
    /// The file of that name and those bytes.
    pub fn new(name: &'a [u8], bytes: &'a [u8]) -> Beside<'a> {
        Beside { name, bytes }
    }
}

/// A card with the databases, and the files beside them.
pub fn scene<'a>(
    rt: &impl Abort,
    image: &'a mut [u8; IMAGE],
    files: &[Beside<'_>],
) -> DirectCard<'a> {
    let mut card = direct(rt, image, 2);
    for file in files {
        let made = [
            card.create(file.name),
            card.write(file.name, 0, file.bytes),
            card.sync(file.name),
        ];
        assert_eq!(rt; made, [Ok(()); 3]);
    }
    card
}

/// Checks that a recovery of the scene, which a word names, is refused so, and changes no byte of the card.
pub fn check_refused(rt: &impl Abort, word: &str, files: &[Beside<'_>], refusal: Refusal) {
    let mut before = [0u8; IMAGE];
    let mut after = [0u8; IMAGE];
    let _ = scene(rt, &mut before, files);
    let told = Set::new(names(rt, 2), scene(rt, &mut after, files))
        .recover()
        .err();
    assert_eq!(rt; (told, before == after), (Some(refusal), true), "{word}");
}

/// Checks what a recovery of the scene, which a word names, finds of b's journal: a hot one has the second
/// page as it is to be. What it does not write is as it was, and no journal and no super-journal is left.
pub fn check_found(rt: &impl Abort, word: &str, files: &[Beside<'_>], found: Found) {
    let mut image = [0u8; IMAGE];
    let mut set = Set::new(names(rt, 2), scene(rt, &mut image, files));
    let recovery = set.recover().expect(rt, word);
    let (told, sizes) = (recovery.found, recovery.sizes);
    assert_eq!(rt;
        (told, sizes, set.size(1)),
        (
            [Found::None, found, Found::None, Found::None],
            [2, 2, 1, 1],
            Ok(2)
        ),
        "{word}"
    );
    check_all(rt, &mut set, 1, Version::Old);
    Page::new(1, 1, Version::Old).check(rt, &mut set);
    let second = match found {
        Found::Hot { .. } => Version::New,
        _ => Version::Old,
    };
    Page::new(1, 2, second).check(rt, &mut set);
    let mut card = set.into_card();
    let gone = [
        card.length(b"a-journal"),
        card.length(b"b-journal"),
        card.length(b"a-mj"),
    ];
    assert_eq!(rt; gone, [Ok(None); 3], "{word}");
}
