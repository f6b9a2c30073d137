//! What is asked of the records of a file. The bytes of a record that is written go beside it.
ghost use Rattle.std.specs.Prelude.{◌≡◌};
ghost use Rattle.record_operations.specs.Asking.{file_in, read_file_in, written};

use vms_base::Key;

/// A change of a file's records, by the file's number.
#[derive(Clone, Copy, Debug, Drop)]
pub enum RecordOp {
    /// A record is put at a number, in a relative file, or where its file puts it.
    Put { file: u8, key: Option<Key> },
    /// A record takes the place of another.
    Update { file: u8, key: Key },
    /// A record goes.
    Delete { file: u8, key: Key },
    /// The records from a position on go.
    Truncate { file: u8, from: u32 },
}

/// A read: the record of a key, or the first one behind a key, or the first of the file.
#[derive(Clone, Copy, Debug, Drop)]
pub enum ReadOp {
    Get { file: u8, key: Key },
    Next { file: u8, after: Option<Key> },
}

impl RecordOp {
    /// The number of its file.
    pub fn file(&self) -> u8
        ensures { result ≡ file_in self.now }
    {
        match self {
            RecordOp::Put { file, .. }
            | RecordOp::Update { file, .. }
            | RecordOp::Delete { file, .. }
            | RecordOp::Truncate { file, .. } => *file,
        }
    }

    /// The record that it writes of the bytes that go beside it; none, where it writes no record.
    pub fn written<'a>(&self, bytes: &'a [u8]) -> &'a [u8]
        ensures { result.now ≡ written self.now bytes.now }
    {
        match self {
            RecordOp::Put { .. } | RecordOp::Update { .. } => bytes,
            RecordOp::Delete { .. } | RecordOp::Truncate { .. } => &[],
        }
    }
}

impl ReadOp {
    /// The number of its file.
    pub fn file(&self) -> u8
        ensures { result ≡ read_file_in self.now }
    {
        match self {
            ReadOp::Get { file, .. } | ReadOp::Next { file, .. } => *file,
        }
    }
}
