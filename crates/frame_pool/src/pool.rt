//! A pool of frames.
ghost use Rattle.std.specs.Prelude.{◌≡◌, ◌≢◌, ◌<◌, ℕ, None, Some, true, false, IfOk, IfNone, IfSome, IsSome, length, replicate, slice_index_or, slice_set, List};
ghost use Rattle.std.specs.Borrow.{sem};
ghost use Rattle.frame_pool.specs.Pool.{IsOut};
ghost use Rattle.frame_pool.specs.Lending.{LendsFrame};

use std::alloc::{AllocError, Global};
use std::marker::Model;

/// How many bytes a frame has.
pub const FRAME_BYTES: usize = 8192;

/// A frame that is out, by its number. It has to be given back to its pool.
pub struct Frame {
    number: usize,
}

impl Model for Frame {
    ghost use Rattle.std.specs.Prelude.{ℕ};

    ghost Value = { ℕ };

    ghost view = { λ f. f.number };
}

/// Frames of 8,192 bytes, which are reserved once. Contracts see each frame by its number, as its bytes where it is
/// out.
#[derive(Drop)]
pub struct Pool {
    frames: Vec<[u8; FRAME_BYTES]>,
    out: Vec<bool>,
}

impl Model for Pool {
    ghost use Rattle.std.specs.Prelude.{◌≡◌, List, Option, ℕ, length};
    ghost use Rattle.frame_pool.specs.Pool.{out_frames};

    ghost Value = { List (Option (List ℕ)) };

    ghost view = { λ p. out_frames p.out.items p.frames.items };

    ghost invariant = { λ p. length p.out.items ≡ length p.frames.items };
}

impl Pool {
    /// So many frames, none of them out.
    pub fn new(alloc: Global, frames: u32) -> Result<Pool, AllocError>
        ensures { IfOk result (λ pool. pool ≡ replicate frames None) }
    {
        Ok(Pool {
            frames: vec![in alloc; [0; FRAME_BYTES]; frames as usize]?,
            out: vec![in alloc; false; frames as usize]?,
        })
    }

    /// A frame that was free, with any bytes. None where no frame is free.
    pub fn take(&mut self) -> Option<Frame>
        ensures free { IfSome result (λ f. slice_index_or self.old f None ≡ None) }
        // Frames that are out are distinct.
        ensures distinct { IfSome result (λ f. (other : ℕ) → IsOut self.old other → other ≢ f) }
        ensures within { IfSome result (λ f. f < length self.old) }
        ensures taken { IfSome result (λ f. (bytes : List ℕ) × (self.new ≡ slice_set self.old f (Some bytes))) }
        ensures none { IfNone result ((f : ℕ) → f < length self.old → IsOut self.old f) }
        ensures same { IfNone result (self.new ≡ self.old) }
    {
        let number = first_free(&self.out)?;
        self.out[number] = true;
        Some(Frame { number })
    }

    /// The bytes last written to the frame, all 8,192.
    pub fn bytes(&self, frame: &Frame) -> &[u8]
        requires { IsOut self.now frame.now }
        ensures value { slice_index_or self.now frame.now None ≡ Some result.now }
        ensures size { length result.now ≡ 8192 }
    {
        let number = frame.number;
        &self.frames[number]
    }

    /// The frame's bytes to be written. No other frame changes.
    pub fn bytes_mut(&mut self, frame: &Frame) -> &mut [u8; FRAME_BYTES]
        requires { IsOut self.old frame.now }
        ensures* writes { sem 𝓛 (LendsFrame self.entry frame.now result) }
        ensures value { slice_index_or self.old frame.now None ≡ Some result.now }
    {
        let number = frame.number;
        &mut self.frames[number]
    }

    /// Takes a frame back.
    pub fn give(&mut self, frame: Frame)
        requires { IsOut self.old frame }
        ensures { self.new ≡ slice_set self.old frame None }
    {
        let Frame { number } = frame;
        self.out[number] = false;
    }
}

// The number of the lowest frame that is not out.
fn first_free(out: &[bool]) -> Option<usize>
    ensures found { IfSome result (λ i. (i < length out.now) × (slice_index_or out.now i false ≡ false)) }
    ensures none { IfNone result ((i : ℕ) → i < length out.now → slice_index_or out.now i false ≡ true) }
{
    for (i, taken) in out.iter().enumerate() {
        if !*taken {
            return Some(i);
        }
    }
    None
}
