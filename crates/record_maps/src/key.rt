// Keys in their order.
ghost use Rattle.std.specs.Prelude.{Some, refl};
ghost use Rattle.std.specs.Cmp.{eq_by_cmp_equiv, on_equiv, on_total, partial_equiv_from_equiv, partial_order_from_agreeing_total};
ghost use Rattle.std.specs.Ordering.{eq_by_cmp};
ghost use Rattle.records_model.specs.Records.{key_cmp};
ghost use Rattle.vms_base.specs.Keys.{key_of};
ghost use Rattle.record_maps.specs.Orders.{key_total};

use std::cmp::Ordering;
use vms_base::Key;

// A key that is compared: numbers by size, bytes as in a dictionary, and the end of a file comes last.
#[derive(Clone, Copy, Debug, Drop)]
pub(crate) struct OrderedKey {
    pub(crate) key: Key,
}

impl PartialEq for OrderedKey {
    ghost eq = { λ a b. eq_by_cmp key_cmp (key_of a.key) (key_of b.key) };

    ghost laws = { partial_equiv_from_equiv (on_equiv (λ k. key_of k.key) (eq_by_cmp_equiv key_total)) };

    fn eq(&self, other: &OrderedKey) -> bool {
        self.cmp(other).is_eq()
    }
}

impl Eq for OrderedKey {
    ghost laws = { on_equiv (λ k. key_of k.key) (eq_by_cmp_equiv key_total) };
}

impl PartialOrd for OrderedKey {
    ghost partial_cmp = { λ a b. Some (key_cmp (key_of a.key) (key_of b.key)) };

    ghost laws = { partial_order_from_agreeing_total (λ a b. key_cmp (key_of a.key) (key_of b.key)) (on_total (λ k. key_of k.key) key_total) (λ a b. refl) (λ a b. refl) };

    fn partial_cmp(&self, other: &OrderedKey) -> Option<Ordering> {
        Some(self.cmp(other))
    }
}

impl Ord for OrderedKey {
    ghost cmp = { λ a b. key_cmp (key_of a.key) (key_of b.key) };

    ghost total = { on_total (λ k. key_of k.key) key_total };

    ghost matches_partial_cmp = { λ a b. refl };

    ghost matches_eq = { λ a b. refl };

    fn cmp(&self, other: &OrderedKey) -> Ordering {
        match (&self.key, &other.key) {
            (Key::Number(a), Key::Number(b)) => a.cmp(b),
            (Key::Number(_), _) => Ordering::Less,
            (Key::Text(_), Key::Number(_)) => Ordering::Greater,
            (Key::Text(a), Key::Text(b)) => a.bytes().cmp(b.bytes()),
            (Key::Text(_), Key::End) => Ordering::Less,
            (Key::End, Key::End) => Ordering::Equal,
            (Key::End, _) => Ordering::Greater,
        }
    }
}
