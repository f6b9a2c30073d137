ghost use Rattle.std.specs.Prelude.{◌<◌};

use record_locks::{LockErr, Locks};
use std::test::Fail;
use vms_base::{Id, Key, KeyText, NodeName, Serial};

// The serial A.1.n.
fn serial(n: u32) -> Option<Serial> {
    let node = NodeName::new(b"A")?;
    Some(Serial(Id {
        node,
        boot: 1,
        seq: n,
    }))
}

// The key of these bytes.
fn text(bytes: &[u8]) -> Key {
    match KeyText::new(bytes) {
        Some(text) => Key::Text(text),
        None => Key::End,
    }
}

// What a branch is answered: 0 where it gets the key, the other branch's number where that holds it, and 1,000 where none is left.
fn answer(locks: &mut Locks, file: u8, key: &Key, by: u32) -> Option<u32> {
    let by = serial(by)?;
    Some(match locks.lock(file, key, by) {
        Ok(()) => 0,
        Err(LockErr::HeldBy(other)) => other.0.seq,
        Err(LockErr::Quota) => 1_000,
    })
}

// The number of the branch that holds a key.
fn holder(locks: &Locks, file: u8, key: &Key) -> Option<u32> {
    let by = locks.holder(file, key)?;
    Some(by.0.seq)
}

#[test]
fn keys_are_locked_and_released(rt: HostRuntime) -> Result<(), Fail> {
    let mut locks = Locks::reserve(rt.alloc(), 5)?;
    for (file, key, by, want, count) in [
        (0, Key::Number(1), 7, 0, 1),
        (0, Key::Number(1), 7, 0, 1),
        (0, Key::Number(1), 8, 7, 1),
        (1, Key::Number(1), 8, 0, 2),
        (0, Key::End, 7, 0, 3),
        (0, text(b"a"), 8, 0, 4),
        (0, text(b"ab"), 7, 0, 5),
        (0, text(b"ab"), 8, 7, 5),
        (0, Key::Number(2), 8, 1_000, 5),
        (0, text(b"ab"), 7, 0, 5),
    ] {
        assert!(rt;
            answer(&mut locks, file, &key, by) == Some(want),
            "{file} {by} {want} {count}"
        );
        assert!(rt; locks.count() == count, "{file} {by} {want} {count}");
    }
    assert!(rt; locks.count_free(0, &[Key::Number(2), Key::End, Key::Number(2)]) == 2);
    if let Some(by) = serial(7) {
        locks.release_all(by);
    }
    assert!(rt; locks.count() == 2);
    assert!(rt; holder(&locks, 0, &Key::Number(1)).is_none());
    assert!(rt; holder(&locks, 1, &Key::Number(1)) == Some(8));
    assert!(rt; holder(&locks, 0, &text(b"a")) == Some(8));
    Ok(())
}

#[test]
fn a_release_leaves_room(rt: HostRuntime) -> Result<(), Fail> {
    let mut locks = Locks::reserve(rt.alloc(), 2)?;
    for by in 1..4 {
        assert!(rt;
            answer(&mut locks, 0, &Key::Number(by), by) == Some(0),
            "{by}"
        );
        assert!(rt; answer(&mut locks, 0, &Key::End, by) == Some(0), "{by}");
        assert!(rt;
            answer(&mut locks, 0, &Key::Number(9), by) == Some(1_000),
            "{by}"
        );
        if let Some(by) = serial(by) {
            locks.release_all(by);
        }
        assert!(rt; locks.count() == 0, "{by}");
    }
    Ok(())
}

// Numbers drawn one after the other, the same in each run.
#[derive(Drop)]
struct Draws {
    state: u64,
}

impl Draws {
    fn below(&mut self, n: u32) -> u32
        requires { 0 < n }
        ensures { result < n }
    {
        self.state = self
            .state
            .wrapping_mul(6_364_136_223_846_793_005)
            .wrapping_add(1_442_695_040_888_963_407);
        ((self.state >> 33) % u64::from(n)) as u32
    }
}

// A number that is locked in file 0 or 1, and the branch that holds it.
#[derive(Clone, Copy, Drop)]
struct PlainLock {
    file: u8,
    key: u32,
    by: u32,
}

// The branch that holds a number in a plain list.
fn plain_holder(held: &[PlainLock], file: u8, key: u32) -> Option<u32> {
    for lock in held {
        if lock.file == file && lock.key == key {
            return Some(lock.by);
        }
    }
    None
}

// What the branch is to be answered by this list, of at most six locks.
fn plain_answer(held: &[PlainLock], file: u8, key: u32, by: u32) -> u32 {
    match plain_holder(held, file, key) {
        Some(holder) if holder == by => 0,
        Some(holder) => holder,
        None if held.len() >= 6 => 1_000,
        None => 0,
    }
}

// Whether each key of the test is held as the list has it.
fn all_alike(locks: &Locks, held: &[PlainLock]) -> bool {
    for file in 0..2 {
        for key in 0..5 {
            if holder(locks, file, &Key::Number(key)) != plain_holder(held, file, key) {
                return false;
            }
        }
    }
    locks.count() == held.len()
}

#[test]
fn many_locks_and_releases_beside_a_list(rt: HostRuntime) -> Result<(), Fail> {
    let mut draws = Draws { state: 7 };
    let mut locks = Locks::reserve(rt.alloc(), 6)?;
    let mut held: Vec<PlainLock> = Vec::new(rt.alloc());
    for turn in 0..20_000 {
        let by = 1 + draws.below(4);
        if draws.below(6) == 0 {
            if let Some(by) = serial(by) {
                locks.release_all(by);
            }
            held.retain(|lock| lock.by != by);
        } else {
            let file = if draws.below(2) == 0 { 0 } else { 1 };
            let key = draws.below(5);
            let want = plain_answer(&held, file, key, by);
            assert!(rt;
                answer(&mut locks, file, &Key::Number(key), by) == Some(want),
                "{turn} {file} {key} {by} {want}"
            );
            if want == 0 && plain_holder(&held, file, key).is_none() {
                held.push(PlainLock { file, key, by })?;
            }
        }
        if turn % 5_000 == 4_999 {
            locks.clear();
            held.clear();
        }
        assert!(rt; all_alike(&locks, &held), "{turn} {by}");
    }
    Ok(())
}
