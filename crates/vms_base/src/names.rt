// Names, in upper case.
ghost use Rattle.std.specs.Prelude.{◌≡◌, ◌<◌, ◌≤◌, ◌^◌, Some, ℕ, List, [], ◌∷◌, length};
ghost use Rattle.std.specs.List.{list_all};
ghost use Rattle.vms_model.specs.Names.{named, in_name, begins_with_letter as begins_with_letter_of, is_name as is_name_of, node_named, label_named, file_named};
ghost use Rattle.vms_model.specs.Ids.{padded};

use crate::short::Short;
use std::marker::Model;

fn is_in_name(marks: &[u8], b: u8) -> bool
    ensures { result ≡ in_name marks.now b }
{
    b.is_ascii_alphabetic() || b.is_ascii_digit() || marks.contains(&b)
}

fn begins_with_letter(text: &[u8]) -> bool
    ensures { result ≡ begins_with_letter_of text.now }
{
    match text {
        [first, ..] => first.is_ascii_alphabetic(),
        [] => false,
    }
}

fn all_in_name(marks: &[u8], text: &[u8]) -> bool
    ensures { result ≡ list_all (in_name marks.now) text.now }
{
    text.iter().all(|b| is_in_name(marks, *b))
}

fn is_name(most: usize, marks: &[u8], text: &[u8]) -> bool
    ensures { result ≡ is_name_of most marks.now text.now }
{
    begins_with_letter(text) && all_in_name(marks, text) && text.len() <= most
}

fn read_name<const N: usize>(most: usize, marks: &[u8], text: &[u8]) -> Option<Short<N>>
    requires { most ≤ N }
    ensures { result ≡ named most marks.now text.now }
{
    if !is_name(most, marks, text) {
        return None;
    }
    let mut name = Short::new();
    for b in text {
        name.push(b.to_ascii_uppercase());
    }
    Some(name)
}

/// The name of a node: a letter, then letters and digits, at most 6 in all.
#[derive(Clone, Copy, Debug, PartialEq, Eq, Hash, Drop)]
pub struct NodeName {
    name: Short<8>,
}

impl Model for NodeName {
    ghost Value = { List ℕ };

    ghost view = { λ n. n.name };

    // A name that is kept is its own name.
    ghost invariant = { λ n. node_named n.name ≡ Some n.name };

    ghost inverse = { λ bytes. record { name = bytes } };
}

impl Default for NodeName {
    /// The name `A`, for places that hold nothing.
    fn default() -> Self {
        NodeName {
            name: Short::from_slice(b"A"),
        }
    }
}

impl NodeName {
    /// The node that a text names in either case of letters. None exactly where it names none.
    pub fn new(text: &[u8]) -> Option<Self>
        ensures { result ≡ node_named text.now }
    {
        match read_name(6, b"", text) {
            Some(name) => Some(NodeName { name }),
            None => None,
        }
    }

    /// The name as it is kept, in upper case.
    pub fn bytes(&self) -> &[u8]
        ensures value { result.now ≡ self.now }
        ensures name { node_named self.now ≡ Some self.now }
    {
        self.name.bytes()
    }

    /// The name in 8 bytes, with zeros behind it.
    pub fn padded(&self) -> [u8; 8]
        ensures value { result ≡ padded 8 self.now }
        ensures name { node_named self.now ≡ Some self.now }
    {
        self.name.padded()
    }
}

/// The label of a transaction or branch: a letter, then letters, digits and underscores, at most 15 in all.
#[derive(Clone, Copy, Debug, PartialEq, Eq, Hash, Drop)]
pub struct Label {
    name: Short<15>,
}

impl Model for Label {
    ghost Value = { List ℕ };

    ghost view = { λ n. n.name };

    // A name that is kept is its own name.
    ghost invariant = { λ n. label_named n.name ≡ Some n.name };

    ghost inverse = { λ bytes. record { name = bytes } };
}

impl Label {
    /// The label that a text names in either case of letters. None exactly where it names none.
    pub fn new(text: &[u8]) -> Option<Self>
        ensures { result ≡ label_named text.now }
    {
        match read_name(15, b"_", text) {
            Some(name) => Some(Label { name }),
            None => None,
        }
    }

    /// The name as it is kept, in upper case.
    pub fn bytes(&self) -> &[u8]
        ensures value { result.now ≡ self.now }
        ensures name { label_named self.now ≡ Some self.now }
    {
        self.name.bytes()
    }
}

/// The name of a resource manager: a letter, then letters, digits and underscores, at most 15 in all.
#[derive(Clone, Copy, Debug, PartialEq, Eq, Hash, Drop)]
pub struct RmName {
    name: Short<15>,
}

impl Model for RmName {
    ghost Value = { List ℕ };

    ghost view = { λ n. n.name };

    // A name that is kept is its own name.
    ghost invariant = { λ n. label_named n.name ≡ Some n.name };

    ghost inverse = { λ bytes. record { name = bytes } };
}

impl Default for RmName {
    /// The name `A`, for places that hold nothing.
    fn default() -> Self {
        RmName {
            name: Short::from_slice(b"A"),
        }
    }
}

impl RmName {
    /// The resource manager that a text names in either case of letters. None exactly where it names none.
    pub fn new(text: &[u8]) -> Option<Self>
        ensures { result ≡ label_named text.now }
    {
        match read_name(15, b"_", text) {
            Some(name) => Some(RmName { name }),
            None => None,
        }
    }

    /// The name as it is kept, in upper case.
    pub fn bytes(&self) -> &[u8]
        ensures value { result.now ≡ self.now }
        ensures name { label_named self.now ≡ Some self.now }
    {
        self.name.bytes()
    }
}

/// The name of a file: a letter, then letters, digits, underscores, dollar signs and dots, at most 39 in all.
#[derive(Clone, Copy, Debug, PartialEq, Eq, Hash, Drop)]
pub struct FileName {
    name: Short<39>,
}

impl Model for FileName {
    ghost Value = { List ℕ };

    ghost view = { λ n. n.name };

    // A name that is kept is its own name.
    ghost invariant = { λ n. file_named n.name ≡ Some n.name };

    ghost inverse = { λ bytes. record { name = bytes } };
}

impl FileName {
    /// The file that a text names in either case of letters. None exactly where it names none.
    pub fn new(text: &[u8]) -> Option<Self>
        ensures { result ≡ file_named text.now }
    {
        match read_name(39, b"_$.", text) {
            Some(name) => Some(FileName { name }),
            None => None,
        }
    }

    /// The name as it is kept, in upper case.
    pub fn bytes(&self) -> &[u8]
        ensures value { result.now ≡ self.now }
        ensures name { file_named self.now ≡ Some self.now }
    {
        self.name.bytes()
    }
}
