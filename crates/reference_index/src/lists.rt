// Elements in front of lists.
ghost use Rattle.std.specs.Prelude.{◌≡◌, ℕ, List, [], ◌∷◌, ◌++◌, OnOk, IfOk, Some, None};
ghost use Rattle.reference_index.specs.Lists.{joined};

use std::alloc::AllocError;

/// Puts an element in front.
pub fn push_front<T: Drop>(items: &mut Vec<T>, item: T) -> Result<(), AllocError>
    ensures { OnOk result (items.new.items ≡ item ∷ items.old.items) }
{
    match items.insert(0, item) {
        Ok(()) => Ok(()),
        Err(_) => Err(AllocError),
    }
}

/// Puts an element behind all others.
pub fn push_back<T: Drop>(items: &mut Vec<T>, item: T) -> Result<(), AllocError>
    ensures { OnOk result (items.new.items ≡ items.old.items ++ item ∷ []) }
{
    match items.push(item) {
        Ok(()) => Ok(()),
        Err(_) => Err(AllocError),
    }
}

/// Elements, and others behind them.
pub fn append<T: Drop>(front: Vec<T>, behind: Vec<T>) -> Result<Vec<T>, AllocError>
    ensures { IfOk result (λ v. v.items ≡ front.items ++ behind.items) }
{
    let mut all = front;
    let mut more = behind;
    match all.append(&mut more) {
        Ok(()) => Ok(all),
        Err(_) => Err(AllocError),
    }
}

/// Takes the first element.
pub fn take_first<T: Drop>(items: &mut Vec<T>) -> Option<T>
    ensures { items.old.items ≡ joined result items.new.items }
{
    if items.is_empty() {
        None
    } else {
        Some(items.remove(0))
    }
}
