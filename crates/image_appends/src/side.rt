//! The two journals of images that a file may keep.

/// Which of a file's journals.
#[derive(Clone, Copy, Debug, PartialEq, Eq, Drop)]
pub enum Side {
    /// What records are after changes.
    After,
    /// What they were before them.
    Before,
}
