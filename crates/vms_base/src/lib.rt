//! Names, ids, keys, records and moments: the values that every layer speaks of.
#![tactic(auto)]

mod ids;
mod keys;
mod moments;
mod names;
mod outcomes;
mod protocol;
mod records;
mod short;
mod text;

pub use ids::{Bid, Id, Serial, Tid, get_id, put_id, read_id};
pub use keys::{Key, KeyText};
pub use moments::Moment;
pub use names::{FileName, Label, NodeName, RmName};
pub use outcomes::{Outcome, Reason};
pub use protocol::{Kind, LogKind, LogRec, Reply, RmEvent, RmList, SerialList};
pub use records::Record;
pub use short::Short;
pub use text::{find, is_word, part_at, read_digits};
