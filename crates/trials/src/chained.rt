//! The chain store, on examples of its own.
use chains::chains::Chains;
use std::test::Fail;
use store::restart::{Past, Restart};
use store::store::Store;

// Five sectors, so 240 bytes: two blobs fill them in turn, one gives a sector back, and the other takes it.
#[test]
fn fills_to_the_last_byte(rt: HostRuntime) -> Result<(), Fail> {
    let memory = vec![in rt.alloc(); 0u8; 320]?;
    assert!(rt; Chains::check(&memory).is_ok());
    let mut s = Chains::new(memory, 100);
    s.open(1)?;
    s.open(2)?;
    assert_eq!(rt; s.room(1)?, 240);
    s.append(1, &[11; 50])?;
    assert_eq!(rt; s.room(1)?, 190);
    assert_eq!(rt; s.room(2)?, 180);
    s.append(2, &[22; 70])?;
    s.append(1, &[33; 70])?;
    assert_eq!(rt; s.room(1)?, 0);
    assert_eq!(rt; s.room(2)?, 50);
    assert!(rt; s.append(1, &[1]).is_err());
    assert!(rt; s.append(2, &[44; 51]).is_err());
    s.append(2, &[44; 50])?;
    assert!(rt; s.append(2, &[1]).is_err());
    s.truncate(1, 60)?;
    assert_eq!(rt; s.room(1)?, 60);
    assert!(rt; s.append(2, &[55; 61]).is_err());
    s.append(2, &[55; 60])?;
    assert_eq!(rt; s.room(1)?, 0);
    let mut out = [0u8; 60];
    s.read(1, 0, &mut out)?;
    assert!(rt; out[49] == 11 && out[50] == 33 && out[59] == 33);
    s.read(2, 69, &mut out)?;
    assert!(rt; out[0] == 22 && out[1] == 44 && out[50] == 44 && out[51] == 55);
    Ok(())
}

// The power goes, a restart cuts a blob inside its first sector, and the sectors past it are free again.
#[test]
fn restarts_with_fewer_sectors(rt: HostRuntime) -> Result<(), Fail> {
    let memory = vec![in rt.alloc(); 0u8; 320]?;
    let mut s = Chains::new(memory, 4);
    s.open(7)?;
    s.append(7, &[1; 30])?;
    s.sync(7)?;
    s.append(7, &[2; 130])?;
    assert!(rt; s.remove(7).is_err());
    assert!(rt; s.room(7).is_err());
    s.restart(Restart {
        keep: 10,
        past: Past::Cut,
        calls: 1,
    });
    assert_eq!(rt; s.len(7)?, 40);
    assert_eq!(rt; s.room(7)?, 200);
    s.remove(7)?;
    assert_eq!(rt; s.at_or_above(0)?, None);
    let memory = s.into_memory();
    assert_eq!(rt; memory.len(), 320);
    Ok(())
}

// One sector is too few: the store has no room.
#[test]
fn has_no_room_on_too_little_memory(rt: HostRuntime) -> Result<(), Fail> {
    let memory = vec![in rt.alloc(); 0u8; 127]?;
    assert!(rt; Chains::check(&memory).is_err());
    let mut s = Chains::new(memory, 9);
    s.open(1)?;
    assert_eq!(rt; s.room(1)?, 0);
    assert!(rt; s.append(1, &[1]).is_err());
    Ok(())
}
