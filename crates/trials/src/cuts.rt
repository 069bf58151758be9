//! The power goes at every writing call of a script.
use crate::differs::check;
use chains::chains::Chains;
use slots::parts::Slots;
use std::test::Fail;
use store::cause::Cause;
use store::keys::Key;
use store::restart::{Past, Restart};
use store::store::Store;

fn script<S: Store>(s: &mut S) -> Result<(), Cause> {
    s.open(0)?;
    s.append(0, &[1, 2, 3])?;
    s.sync(0)?;
    s.append(0, &[4, 5])?;
    s.put(Key::Watermark, 3)?;
    s.sync_keys()?;
    s.truncate(0, 4)?;
    s.remove(0)
}

// What stands after a cut at the call after `calls` ones, with keep 0: the length, and the saved watermark.
fn expected(calls: u64) -> (Result<u64, Cause>, Option<u64>) {
    match calls {
        0 => (Err(Cause::Missing), None),
        1 | 2 => (Ok(0), None),
        3 | 4 | 5 => (Ok(3), None),
        6 => (Ok(3), Some(3)),
        7 => (Ok(4), Some(3)),
        _ => (Err(Cause::Missing), Some(3)),
    }
}

fn cut_at<S: Store>(s: &mut S, calls: u64) -> Result<(), Fail> {
    check((script(s) == Err(Cause::Power)) == (calls < 8))?;
    check((s.len(0) == Err(Cause::Power)) == (calls < 8))?;
    s.restart(Restart {
        keep: 0,
        past: Past::Cut,
        calls: 10,
    });
    let (length, mark) = expected(calls);
    check(s.len(0) == length)?;
    check(s.key(Key::Watermark) == Ok(mark))
}

#[test]
fn slots_cuts(rt: HostRuntime) -> Result<(), Fail> {
    for calls in 0..9u64 {
        let mut s = Slots::new(vec![in rt.alloc(); 0u8; 640]?, calls);
        cut_at(&mut s, calls)?;
    }
    Ok(())
}

#[test]
fn chains_cuts(rt: HostRuntime) -> Result<(), Fail> {
    for calls in 0..9u64 {
        let mut s = Chains::new(vec![in rt.alloc(); 0u8; 256]?, calls);
        cut_at(&mut s, calls)?;
    }
    Ok(())
}
