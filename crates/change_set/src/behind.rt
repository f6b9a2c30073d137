//! Keys behind which a number comes.
ghost use Rattle.std.specs.Prelude.{◌≡◌, IfSome, IfNone, option_map};
ghost use Rattle.std.specs.Option.{option_copied};
ghost use Rattle.file_base.specs.vms_base.Keys.{key_of};
ghost use Rattle.change_set.specs.Maps.{StartsAt, StartsNowhere};

use file_base::Key;

/// The number that the next number comes behind, where keys begin with 1; None where no number comes behind the key.
pub fn number_behind(after: Option<&Key>) -> Option<u32>
    ensures some { IfSome result (λ n. StartsAt n (option_map key_of (option_copied after.entry))) }
    ensures none { IfNone result (StartsNowhere (option_map key_of (option_copied after.entry))) }
{
    match after {
        None => Some(0),
        Some(Key::Number(n)) => Some(*n),
        Some(_) => None,
    }
}
