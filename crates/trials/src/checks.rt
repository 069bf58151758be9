//! Each call and each refusal: one text for every make.
use crate::differs::check;
use chains::chains::Chains;
use slots::parts::Slots;
use std::test::Fail;
use store::cause::Cause;
use store::keys::Key;
use store::restart::{Past, Restart};
use store::store::Store;

// A blob comes, grows to its last byte, is cut, and goes. At first it has so much room.
fn blobs<S: Store>(s: &mut S, room: usize) -> Result<(), Fail> {
    let bytes = [5u8; 60];
    check(4 < room && room <= 60)?;
    check(s.append(7, &[1]) == Err(Cause::Missing))?;
    check(s.open(7) == Ok(()))?;
    check(s.append(7, &[1, 2, 3, 4]) == Ok(()))?;
    check(s.room(7) == Ok((room - 4) as u64))?;
    check(s.append(7, &bytes[0..room - 3]) == Err(Cause::NoRoom))?;
    check(s.append(7, &bytes[0..room - 4]) == Ok(()))?;
    check(s.room(7) == Ok(0))?;
    check(s.append(7, &[9]) == Err(Cause::NoRoom))?;
    check(s.truncate(7, room as u64 + 1) == Err(Cause::Range))?;
    check(s.truncate(7, 4) == Ok(()))?;
    check(s.len(7) == Ok(4))?;
    check(s.open(7) == Ok(()))?;
    check(s.len(7) == Ok(4))?;
    check(s.remove(7) == Ok(()))?;
    check(s.remove(7) == Err(Cause::Missing))?;
    check(s.sync(7) == Err(Cause::Missing))
}

// Numbers are listed from below and from above.
fn listing<S: Store>(s: &mut S) -> Result<(), Fail> {
    check(s.at_or_above(0) == Ok(None))?;
    check(s.open(9) == Ok(()))?;
    check(s.open(4) == Ok(()))?;
    check(s.at_or_above(0) == Ok(Some(4)))?;
    check(s.at_or_above(5) == Ok(Some(9)))?;
    check(s.at_or_above(10) == Ok(None))?;
    check(s.at_or_below(8) == Ok(Some(4)))?;
    check(s.at_or_below(9) == Ok(Some(9)))?;
    check(s.at_or_below(3) == Ok(None))
}

// What is read lies within the sound bytes.
fn reading<S: Store>(s: &mut S) -> Result<(), Fail> {
    check(s.open(2) == Ok(()))?;
    check(s.append(2, &[1, 2, 3]) == Ok(()))?;
    check(s.sync(2) == Ok(()))?;
    check(s.append(2, &[4, 5]) == Ok(()))?;
    s.restart(Restart {
        keep: 1,
        past: Past::Fill(7),
        calls: 100,
    });
    check(s.len(2) == Ok(5))?;
    check(s.scan(2, 100) == Ok(4))?;
    check(s.scan(2, 3) == Ok(3))?;
    let mut out = [0u8; 2];
    check(s.read(2, 2, &mut out) == Ok(()))?;
    check(out[0] == 3 && out[1] == 4)?;
    check(s.read(2, 3, &mut out) == Err(Cause::Torn))?;
    check(s.read(2, 4, &mut out) == Err(Cause::Range))?;
    check(s.read(3, 0, &mut out) == Err(Cause::Missing))?;
    check(out[0] == 3 && out[1] == 4)?;
    check(s.append(2, &[9]) == Ok(()))?;
    check(s.scan(2, 100) == Ok(4))
}

// A key is saved by the key sync alone, and a down store answers Power to everything.
fn keys<S: Store>(s: &mut S) -> Result<(), Fail> {
    check(s.put(Key::Hint, 6) == Ok(()))?;
    check(s.sync_keys() == Ok(()))?;
    check(s.put(Key::Hint, 8) == Ok(()))?;
    check(s.put(Key::Watermark, 5) == Ok(()))?;
    check(s.key(Key::Hint) == Ok(Some(8)))?;
    check(s.drop_key(Key::Watermark) == Ok(()))?;
    check(s.open(1) == Err(Cause::Power))?;
    check(s.key(Key::Hint) == Err(Cause::Power))?;
    check(s.at_or_above(0) == Err(Cause::Power))?;
    check(s.sync_keys() == Err(Cause::Power))?;
    s.restart(Restart {
        keep: 0,
        past: Past::Cut,
        calls: 0,
    });
    check(s.key(Key::Hint) == Ok(Some(6)))?;
    check(s.key(Key::Watermark) == Ok(None))?;
    check(s.drop_key(Key::Hint) == Err(Cause::Power))
}

#[test]
fn chains_blobs(rt: HostRuntime) -> Result<(), Fail> {
    let mut s = Chains::new(vec![in rt.alloc(); 0u8; 128]?, 100);
    blobs(&mut s, 60)
}

#[test]
fn slots_blobs(rt: HostRuntime) -> Result<(), Fail> {
    let mut s = Slots::new(vec![in rt.alloc(); 0u8; 640]?, 100);
    blobs(&mut s, 10)
}

#[test]
fn chains_listing(rt: HostRuntime) -> Result<(), Fail> {
    let mut s = Chains::new(vec![in rt.alloc(); 0u8; 256]?, 100);
    listing(&mut s)
}

#[test]
fn slots_listing(rt: HostRuntime) -> Result<(), Fail> {
    let mut s = Slots::new(vec![in rt.alloc(); 0u8; 640]?, 100);
    listing(&mut s)
}

#[test]
fn chains_reading(rt: HostRuntime) -> Result<(), Fail> {
    let mut s = Chains::new(vec![in rt.alloc(); 0u8; 256]?, 100);
    reading(&mut s)
}

#[test]
fn slots_reading(rt: HostRuntime) -> Result<(), Fail> {
    let mut s = Slots::new(vec![in rt.alloc(); 0u8; 640]?, 100);
    reading(&mut s)
}

#[test]
fn chains_keys(rt: HostRuntime) -> Result<(), Fail> {
    let mut s = Chains::new(vec![in rt.alloc(); 0u8; 256]?, 5);
    keys(&mut s)
}

#[test]
fn slots_keys(rt: HostRuntime) -> Result<(), Fail> {
    let mut s = Slots::new(vec![in rt.alloc(); 0u8; 640]?, 5);
    keys(&mut s)
}

// Memory under 64 bytes is refused; on it all the same, no blob has room.
#[test]
fn slots_unfit(rt: HostRuntime) -> Result<(), Fail> {
    let memory = vec![in rt.alloc(); 0u8; 63]?;
    assert!(rt; Slots::check(&memory).is_err());
    let mut s = Slots::new(memory, 100);
    assert!(rt; s.open(0) == Ok(()));
    assert!(rt; s.room(0) == Ok(0));
    assert!(rt; s.append(0, &[1]) == Err(Cause::NoRoom));
    assert!(rt; s.into_memory().len() == 63);
    Ok(())
}

// A store set up as it was found.
#[test]
fn slots_set_up(rt: HostRuntime) -> Result<(), Fail> {
    let mut s = Slots::new(vec![in rt.alloc(); 0u8; 640]?, 1);
    assert!(rt; s.set_blob(3, &[1, 2, 3, 4], 3, 2) == Ok(()));
    assert!(rt; s.set_blob(3, &[5, 6, 7], 2, 1) == Ok(()));
    assert!(rt; s.set_blob(4, &[1], 0, 1) == Err(Cause::Range));
    assert!(rt; s.set_blob(4, &[1], 2, 1) == Err(Cause::Range));
    assert!(rt; s.set_blob(4, &[1; 11], 2, 1) == Err(Cause::NoRoom));
    s.set_key(Key::Target, Some(9), None);
    assert!(rt; s.len(3) == Ok(3));
    assert!(rt; s.scan(3, 10) == Ok(2));
    assert!(rt; s.at_or_above(4) == Ok(None));
    assert!(rt; s.key(Key::Target) == Ok(Some(9)));
    assert!(rt; s.sync(3) == Ok(()));
    assert!(rt; s.sync(3) == Err(Cause::Power));
    Ok(())
}
