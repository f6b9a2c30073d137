//! Pieces of bytes written into others.
ghost use Rattle.std.specs.Prelude.{◌≡◌, ◌≤◌, ◌+◌, ℕ, length, replicate};
ghost use Rattle.file_base.specs.Bytes.{spliced};

/// Writes a piece over the bytes at a place.
pub fn splice(bytes: &mut [u8], at: usize, piece: &[u8])
    requires { at + length piece.now ≤ length bytes.old }
    ensures { bytes.new ≡ spliced bytes.old at piece.now }
{
    bytes[at..at + piece.len()].copy_from_slice(piece);
}

/// Writes so many zeros at a place.
pub fn splice_zeros(bytes: &mut [u8], at: usize, count: usize)
    requires { at + count ≤ length bytes.old }
    ensures { bytes.new ≡ spliced bytes.old at (replicate count 0) }
{
    bytes[at..at + count].fill(0);
}
