// A key of a file, by which a table finds what it has of it.
ghost use Rattle.std.specs.Prelude.{◌≡◌, ◌&&◌, ◌==◌, ◌++◌, fold};
ghost use Rattle.std.specs.Hash as fed;
ghost use Rattle.std.specs.Ordering.{eq_by_cmp};
ghost use Rattle.records_model.specs.Records.{key_cmp};
ghost use Rattle.vms_base.specs.Keys.{key_of};
ghost use Rattle.table_keys.specs.Spots.{key_fed, spot_equivalence, spot_partial, spot_alike};

use std::hash::{Hash, Hasher};
use vms_base::Key;

/// A key of a file.
#[derive(Clone, Copy, Debug, Drop)]
pub struct Place {
    pub file: u8,
    pub key: Key,
}

// Whether two keys are one.
fn is_same_key(a: &Key, b: &Key) -> bool
    ensures { result ≡ eq_by_cmp key_cmp (key_of a.now) (key_of b.now) }
{
    match (a, b) {
        (Key::Number(m), Key::Number(n)) => m == n,
        (Key::Text(s), Key::Text(t)) => s.bytes() == t.bytes(),
        (Key::End, Key::End) => true,
        _ => false,
    }
}

fn hash_key<H: Hasher>(key: &Key, state: &mut H)
    ensures { state.new ≡ fold H.write state.old (key_fed (key_of key.now)) }
{
    match key {
        Key::Number(n) => n.hash(state),
        Key::Text(text) => text.bytes().hash(state),
        Key::End => {}
    }
}

impl PartialEq for Place {
    ghost eq = { λ a b. (a.file == b.file) && eq_by_cmp key_cmp (key_of a.key) (key_of b.key) };

    ghost laws = { spot_partial (λ p. p.file) (λ p. key_of p.key) };

    fn eq(&self, other: &Place) -> bool {
        self.file == other.file && is_same_key(&self.key, &other.key)
    }
}

impl Eq for Place {
    ghost laws = { spot_equivalence (λ p. p.file) (λ p. key_of p.key) };
}

impl Hash for Place {
    ghost hash_input = { λ p. fed.u8 p.file ++ key_fed (key_of p.key) };

    ghost respects_eq = { spot_alike (λ p. p.file) (λ p. key_of p.key) };

    fn hash<H: Hasher>(&self, state: &mut H) {
        self.file.hash(state);
        hash_key(&self.key, state);
    }
}
