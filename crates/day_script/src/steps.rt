//! The lines of a day by what they do, and the order in which they come.
ghost use Rattle.std.specs.Prelude.{◌≡◌, ℕ, ◌∷◌, [], map};
ghost use Rattle.day_model.specs.Pieces.{opening as opening_of, transaction as transaction_of, dumps as dumps_of, Settle as ToSettle};
ghost use Rattle.day_script.specs.Steps.{piece_of, side_of, file_of};

/// One of the two nodes of a day.
#[derive(Clone, Copy, Debug, PartialEq, Eq)]
pub enum Side {
    A,
    B,
}

/// A file of each node: the sequential one, the relative one, and the indexed one.
#[derive(Clone, Copy, Debug, PartialEq, Eq)]
pub enum File {
    S,
    R,
    I,
}

/// What a line of a day does, where the transaction and its key are known.
#[derive(Clone, Copy, Debug, PartialEq, Eq)]
pub enum Step {
    Init(Side),
    Boot(Side),
    Create(Side, File),
    Mark(Side, File),
    StartTrans,
    AddBranch,
    StartBranch,
    /// The last message that was sent is delivered.
    Deliver,
    /// The transaction's number is put into the file of this name, at A; into the indexed file at B.
    Put(File),
    AbortTrans,
    Crash(Side),
    EndBranch,
    EndTrans,
    Settle,
    Dump(Side, File),
}

impl Side {
    /// The name of the node.
    pub fn name(self) -> &'static [u8]
        ensures { result.now ≡ side_of self }
    {
        match self {
            Side::A => b"A",
            Side::B => b"B",
        }
    }
}

impl File {
    /// The name of the file.
    pub fn name(self) -> &'static [u8]
        ensures { result.now ≡ file_of self }
    {
        match self {
            File::S => b"S",
            File::R => b"R",
            File::I => b"I",
        }
    }
}

static OPENING: [Step; 16] = [
    Step::Init(Side::A),
    Step::Init(Side::B),
    Step::Boot(Side::A),
    Step::Boot(Side::B),
    Step::Create(Side::A, File::S),
    Step::Create(Side::A, File::R),
    Step::Create(Side::A, File::I),
    Step::Mark(Side::A, File::S),
    Step::Mark(Side::A, File::R),
    Step::Mark(Side::A, File::I),
    Step::Create(Side::B, File::S),
    Step::Create(Side::B, File::R),
    Step::Create(Side::B, File::I),
    Step::Mark(Side::B, File::S),
    Step::Mark(Side::B, File::R),
    Step::Mark(Side::B, File::I),
];

static ABORTED: [Step; 10] = [
    Step::StartTrans,
    Step::AddBranch,
    Step::StartBranch,
    Step::Deliver,
    Step::Deliver,
    Step::Put(File::S),
    Step::Put(File::R),
    Step::Put(File::I),
    Step::AbortTrans,
    Step::Settle,
];

static WITH_CRASH_OF_A: [Step; 10] = [
    Step::StartTrans,
    Step::AddBranch,
    Step::StartBranch,
    Step::Deliver,
    Step::Deliver,
    Step::Put(File::S),
    Step::Put(File::R),
    Step::Put(File::I),
    Step::Crash(Side::A),
    Step::Settle,
];

static WITH_CRASH_OF_B: [Step; 12] = [
    Step::StartTrans,
    Step::AddBranch,
    Step::StartBranch,
    Step::Deliver,
    Step::Deliver,
    Step::Put(File::S),
    Step::Put(File::R),
    Step::Put(File::I),
    Step::EndBranch,
    Step::EndTrans,
    Step::Crash(Side::B),
    Step::Settle,
];

static COMMITTED: [Step; 14] = [
    Step::StartTrans,
    Step::AddBranch,
    Step::StartBranch,
    Step::Deliver,
    Step::Deliver,
    Step::Put(File::S),
    Step::Put(File::R),
    Step::Put(File::I),
    Step::EndBranch,
    Step::EndTrans,
    Step::Deliver,
    Step::Deliver,
    Step::Deliver,
    Step::Deliver,
];

static CLOSING: [Step; 7] = [
    Step::Settle,
    Step::Dump(Side::A, File::S),
    Step::Dump(Side::A, File::R),
    Step::Dump(Side::A, File::I),
    Step::Dump(Side::B, File::S),
    Step::Dump(Side::B, File::R),
    Step::Dump(Side::B, File::I),
];

// What comes before the first transaction.
pub fn opening() -> &'static [Step]
    ensures { (number key : ℕ) → map (piece_of number key) result.now ≡ opening_of }
{
    &OPENING
}

// A transaction that ends so, by a number below 10.
pub fn transaction(choice: u32) -> &'static [Step]
    ensures { (number key : ℕ) → map (piece_of number key) result.now ≡ transaction_of number key choice }
{
    match choice {
        0 => &ABORTED,
        1 => &WITH_CRASH_OF_A,
        2 => &WITH_CRASH_OF_B,
        _ => &COMMITTED,
    }
}

// What comes behind the last transaction.
pub fn closing() -> &'static [Step]
    ensures { (number key : ℕ) → map (piece_of number key) result.now ≡ ToSettle ∷ dumps_of }
{
    &CLOSING
}

/// The dumps of all files, which come last.
pub fn dumps() -> &'static [Step]
    ensures { (number key : ℕ) → map (piece_of number key) result.now ≡ dumps_of }
{
    &CLOSING[1..]
}
