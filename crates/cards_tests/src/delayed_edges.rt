// The delayed card and the trouble layer at their limits.
use crate::answers::refused;
use card::CardCall::{Create, Length, Sync};
use card::Cause::{Device, Power, Present};
use card::{Card, CardFault};
use cards::{DelayedCard, TroubleLayer, Untold};
use halves::Kept;
use std::test::Fail;

/// Two halves of 16 slots, with 8 bytes for each file.
const IMAGE: usize = 1440;

// The calls that the card is cut at, on a file that holds "abcd", of which "ab" is synced.

fn write(card: &mut DelayedCard<'_>) -> Result<(), CardFault> {
    card.write(b"f", 1, b"XYZW")
}

fn lengthen(card: &mut DelayedCard<'_>) -> Result<(), CardFault> {
    card.set_length(b"f", 6)
}

fn shorten(card: &mut DelayedCard<'_>) -> Result<(), CardFault> {
    card.set_length(b"f", 1)
}

fn create(card: &mut DelayedCard<'_>) -> Result<(), CardFault> {
    card.create(b"g")
}

fn delete(card: &mut DelayedCard<'_>) -> Result<(), CardFault> {
    card.delete(b"f")
}

fn sync(card: &mut DelayedCard<'_>) -> Result<(), CardFault> {
    card.sync(b"f")
}

/// What is left of the files f and g after the call was cut: their lengths and the bytes of f.
fn left<F: FnOnce(&mut DelayedCard<'_>) -> Result<(), CardFault>>(
    last: F,
    kept: Kept,
) -> Result<(Option<u32>, Option<u32>, [u8; 8]), Fail>
    requires { F.IsAlwaysCallable last }
{
    let mut bytes = [b'-'; 8];
    let mut image = [0xffu8; IMAGE];
    let mut card = DelayedCard::new(&mut image, 3);
    card.create(b"f")?;
    card.write(b"f", 0, b"ab")?;
    card.sync(b"f")?;
    card.write(b"f", 2, b"cd")?;
    // what is kept goes to the card by its number, by a rule of the project (docs/CARD.md): as, since the
    // variants stand in the order of the numbers
    card.lose_power_at(1, kept as u8)?;
    let _ = last(&mut card);
    card.power();
    let f = card.length(b"f")?;
    let g = card.length(b"g")?;
    // as, since no From goes from u32 to usize
    let n = f.map_or(8, |length| length as usize).min(8);
    let _ = card.read(b"f", 0, &mut bytes[0..n]);
    Ok((f, g, bytes))
}

#[test]
fn what_was_synced_is_kept(rt: HostRuntime) -> Result<(), Fail> {
    let synced = (Some(2), None, *b"ab------");
    assert_eq!(rt; left(write, Kept::Synced)?, synced);
    assert_eq!(rt; left(lengthen, Kept::Synced)?, synced);
    assert_eq!(rt; left(shorten, Kept::Synced)?, synced);
    assert_eq!(rt; left(create, Kept::Synced)?, synced);
    assert_eq!(rt; left(delete, Kept::Synced)?, synced);
    assert_eq!(rt; left(sync, Kept::Synced)?, synced);
    Ok(())
}

#[test]
fn all_is_kept(rt: HostRuntime) -> Result<(), Fail> {
    assert_eq!(rt; left(write, Kept::Current)?, (Some(5), None, *b"aXYZW---"));
    assert_eq!(rt;
        left(lengthen, Kept::Current)?,
        (Some(6), None, *b"abcd\0\0--")
    );
    assert_eq!(rt;
        left(shorten, Kept::Current)?,
        (Some(1), None, *b"a-------")
    );
    assert_eq!(rt;
        left(create, Kept::Current)?,
        (Some(4), Some(0), *b"abcd----")
    );
    assert_eq!(rt; left(delete, Kept::Current)?, (None, None, *b"--------"));
    assert_eq!(rt; left(sync, Kept::Current)?, (Some(4), None, *b"abcd----"));
    Ok(())
}

#[test]
fn a_mix_is_kept(rt: HostRuntime) -> Result<(), Fail> {
    assert_eq!(rt; left(write, Kept::Mixed)?, (Some(5), None, *b"abY\0W---"));
    assert_eq!(rt;
        left(lengthen, Kept::Mixed)?,
        (Some(6), None, *b"abc\0\0\0--")
    );
    assert_eq!(rt; left(shorten, Kept::Mixed)?, (Some(2), None, *b"ab------"));
    assert_eq!(rt;
        left(create, Kept::Mixed)?,
        (Some(4), Some(0), *b"abc\0----")
    );
    assert_eq!(rt; left(delete, Kept::Mixed)?, (None, None, *b"--------"));
    assert_eq!(rt; left(sync, Kept::Mixed)?, (Some(4), None, *b"abcd----"));
    Ok(())
}

#[test]
fn tellings_count_every_call(rt: HostRuntime) {
    // What is kept goes by number here, as the card is told it: 3 is the number of no choice.
    let mut image = [0u8; IMAGE];
    let mut card = DelayedCard::new(&mut image, 3);
    assert_eq!(rt; card.lose_power_at(0, 1), Err(Untold::NoCall));
    assert_eq!(rt; card.lose_power_at(1, 3), Err(Untold::NoKept));
    assert_eq!(rt; card.create(b"f"), Ok(()));
    assert_eq!(rt; card.lose_power_at(5, 0), Ok(()));
    assert_eq!(rt; card.lose_power_at(1, 1), Ok(()));
    assert_eq!(rt; card.sync(b"f"), refused(Sync, Power, 3));
    assert!(rt; !card.powered());
    assert_eq!(rt; card.lose_power_at(1, 0), Ok(()));
    assert_eq!(rt; card.sync(b"f"), refused(Sync, Power, 3));
    card.power();
    assert_eq!(rt; card.sync(b"f"), Ok(()));
}

#[test]
fn layers_refuse_what_they_were_given(rt: HostRuntime) -> Result<(), Fail> {
    let mut image = [0u8; IMAGE];
    let card = DelayedCard::new(&mut image, 3);
    // no ok_or: the check does not cover a call that takes an answer with a card in its error
    let Ok(inner) = TroubleLayer::new(card, &[2, 5], 4) else {
        return Err(Fail::new("two numbers"));
    };
    let Ok(mut outer) = TroubleLayer::new(inner, &[3], 5) else {
        return Err(Fail::new("one number"));
    };
    assert_eq!(rt; outer.create(b"f"), Ok(()));
    assert_eq!(rt; outer.create(b"g"), refused(Create, Device, 4));
    assert_eq!(rt; outer.create(b"g"), refused(Create, Device, 5));
    assert_eq!(rt; outer.create(b"f"), refused(Create, Present, 3));
    assert_eq!(rt; outer.length(b"g"), Ok(None));
    assert_eq!(rt; outer.length(b"g"), refused(Length, Device, 4));
    Ok(())
}

#[test]
fn nine_troubles_are_too_many(rt: HostRuntime) {
    let mut image = [0u8; IMAGE];
    let card = DelayedCard::new(&mut image, 3);
    assert!(rt; TroubleLayer::new(card, &[1, 2, 3, 4, 5, 6, 7, 8, 9], 4).is_err());
}
