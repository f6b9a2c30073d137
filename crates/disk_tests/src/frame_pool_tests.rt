//! Two frames that are out at once.
ghost use Rattle.std.specs.Prelude.{◌≡◌, Some, replicate, slice_set};
ghost use Rattle.frame_pool.specs.Pool.{IsOut};

use frame_pool::{Frame, Pool};
use std::test::Fail;

fn fill(pool: &mut Pool, frame: &Frame, byte: u8)
    requires { IsOut pool.old frame.now }
    ensures { pool.new ≡ slice_set pool.old frame.now (Some (replicate 8192 byte)) }
{
    *pool.bytes_mut(frame) = [byte; 8192];
}

// The first bytes of two frames, each filled with its own; None where fewer are free.
fn first_bytes(pool: &mut Pool) -> Option<(u8, u8)> {
    let first = pool.take()?;
    fill(pool, &first, 1);
    let Some(second) = pool.take() else {
        pool.give(first);
        return None;
    };
    fill(pool, &second, 2);
    let bytes = (pool.bytes(&first)[0], pool.bytes(&second)[0]);
    pool.give(first);
    pool.give(second);
    Some(bytes)
}

#[test]
fn keeps_frames_apart(rt: HostRuntime) -> Result<(), Fail> {
    let mut pool = Pool::new(rt.alloc(), 2)?;
    assert_eq!(rt; first_bytes(&mut pool), Some((1, 2)));
    assert_eq!(rt;
        first_bytes(&mut pool),
        Some((1, 2)),
        "both were given back"
    );
    let mut small = Pool::new(rt.alloc(), 1)?;
    assert_eq!(rt; first_bytes(&mut small), None);
    Ok(())
}
