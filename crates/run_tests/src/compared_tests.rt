//! Random scripts of several transactions: where no disk fails, the run shows for them what the plain program shows, byte for byte.
use std::alloc::Global;
use std::test::Fail;
use test_scripts::racks::same_by_one;

// A small journal and small files, so that a script comes to their ends.
const OPENING: &[u8] =
    b"A: INIT 64 64\nA: BOOT\nA: CREATE R REL 2 460 40\nA: CREATE S SEQ 2 460 7\nA: CREATE I IDX 2 460 14 0 2\nA: SET_FILE R RU\nA: SET_FILE S RU\nA: SET_FILE I RU\n";

const STATEMENTS: u32 = 450;

const VERBS: [&[u8]; 16] = [
    b"A: PUT ",
    b"A: PUT ",
    b"A: PUT ",
    b"A: PUT ",
    b"A: PUT ",
    b"A: PUT ",
    b"A: UPDATE ",
    b"A: UPDATE ",
    b"A: UPDATE ",
    b"A: UPDATE ",
    b"A: DELETE ",
    b"A: TRUNCATE ",
    b"A: GET ",
    b"A: GET ",
    b"A: NEXT ",
    b"A: NEXT ",
];

// A script that is being written: numbers that follow from the first one, the last label, and the labels of the transactions that go on.
#[derive(Drop)]
struct Script {
    text: Vec<u8>,
    state: u64,
    begun: u8,
    open: [u8; 3],
}

impl Script {
    fn begin(alloc: Global, first: u64) -> Result<Script, Fail> {
        let mut script = Script {
            text: OPENING.to_vec(alloc)?,
            state: first,
            begun: 0,
            open: [0; 3],
        };
        script.start_all()?;
        Ok(script)
    }

    // A number below 256.
    fn draw(&mut self) -> u8 {
        self.state = self
            .state
            .wrapping_mul(6_364_136_223_846_793_005)
            .wrapping_add(1_442_695_040_888_963_407);
        (self.state >> 56) as u8
    }

    fn put(&mut self, words: &[u8]) -> Result<(), Fail> {
        self.text.extend_from_slice(words)?;
        Ok(())
    }

    fn put_number(&mut self, n: u8) -> Result<(), Fail> {
        if n >= 100 {
            self.text.push(b'0' + n / 100)?;
        }
        if n >= 10 {
            self.text.push(b'0' + n / 10 % 10)?;
        }
        self.text.push(b'0' + n % 10)?;
        Ok(())
    }

    fn put_label(&mut self, label: u8) -> Result<(), Fail> {
        self.put(b"T")?;
        self.put_number(label)
    }

    // A transaction begins in this place.
    fn start(&mut self, place: usize) -> Result<(), Fail> {
        self.begun = self.begun.saturating_add(1);
        self.open[place % 3] = self.begun;
        self.put(b"A: START_TRANS ")?;
        self.put_label(self.begun)?;
        self.put(b"\n")
    }

    fn start_all(&mut self) -> Result<(), Fail> {
        self.start(0)?;
        self.start(1)?;
        self.start(2)
    }

    // A record in quotes that begins with these letters.
    fn put_record(&mut self, key: &[u8]) -> Result<(), Fail> {
        self.put(b" \"")?;
        self.put(key)?;
        let size = u16::from(self.draw() % 4) * 110 + u16::from(self.draw() % 120);
        for _ in 0..size {
            let letter = b'a' + self.draw() % 26;
            self.text.push(letter)?;
        }
        self.put(b"\"")
    }

    // What an operation of this verb takes behind its label.
    fn put_numbered(&mut self, verb: u8, file: &[u8], is_placed: bool) -> Result<(), Fail> {
        self.put(file)?;
        if is_placed || verb >= 6 {
            let n = 1 + self.draw() % 41;
            self.put(b" ")?;
            self.put_number(n)?;
        }
        if verb < 10 {
            self.put_record(b"r")?;
        }
        Ok(())
    }

    fn put_keyed(&mut self, verb: u8) -> Result<(), Fail> {
        let key = [b'a' + self.draw() % 6, b'a' + self.draw() % 5];
        self.put(b" I")?;
        if verb >= 6 {
            self.put(b" \"")?;
            self.put(&key)?;
            self.put(b"\"")?;
        }
        if verb < 10 {
            self.put_record(&key)?;
        }
        Ok(())
    }

    // An operation: of a transaction that goes on, of an older one, or of none.
    fn operate(&mut self) -> Result<(), Fail> {
        let verb = self.draw() % 16;
        self.put(VERBS[verb as usize])?;
        match self.draw() % 16 {
            0 => self.put(b"-")?,
            1 => self.put_label(self.begun.saturating_sub(4))?,
            n => self.put_label(self.open[(n % 3) as usize])?,
        }
        match self.draw() % 3 {
            _ if verb == 11 => self.put_numbered(verb, b" S", false)?,
            0 => self.put_numbered(verb, b" R", true)?,
            1 => self.put_numbered(verb, b" S", false)?,
            _ => self.put_keyed(verb)?,
        }
        self.put(b"\n")
    }

    // A transaction ends, and another one begins in its place. That of the first place goes on for long.
    fn end(&mut self) -> Result<(), Fail> {
        let place = match self.draw() % 64 {
            0 => 0,
            n => 1 + (n % 2) as usize,
        };
        if self.draw() % 3 == 0 {
            self.put(b"A: ABORT_TRANS ")?;
        } else {
            self.put(b"A: END_TRANS ")?;
        }
        self.put_label(self.open[place % 3])?;
        self.put(b"\n")?;
        self.start(place)
    }

    // A node that goes down is booted again.
    fn restart(&mut self) -> Result<(), Fail> {
        self.put(
            b"CRASH A\nA: DUMP R\nA: BOOT\nA: DUMP R\nA: DUMP S\nA: DUMP I\nA: DUMP_JOURNAL RU\n",
        )?;
        self.start_all()
    }

    // A file without marks is changed at once.
    fn unmark(&mut self) -> Result<(), Fail> {
        self.put(
            b"A: SET_FILE R NORU\nA: PUT - R 9 \"at once\"\nA: UPDATE - R 9 \"again\"\nA: DELETE - R 9\nA: SET_FILE R RU\n",
        )?;
        self.put(
            b"A: SET_FILE S NORU\nA: PUT - S \"at once\"\nA: NEXT - S 0\nA: TRUNCATE - S 3\nA: SET_FILE S RU\n",
        )?;
        self.put(
            b"A: SET_FILE I NORU\nA: PUT - I \"mm at once\"\nA: GET - I \"mm\"\nA: DELETE - I \"mm\"\nA: SET_FILE I RU\n",
        )
    }

    // Moments count settlements here, for no clock is set.
    fn put_moment(&mut self) -> Result<(), Fail> {
        let n = self.draw() % 60;
        self.put(b" UNTIL \"17-NOV-1858 00:00:00.")?;
        self.text.push(b'0' + n / 10)?;
        self.text.push(b'0' + n % 10)?;
        self.put(b"\"")
    }

    // A journal of a file begins or ends, the file is saved or recovered, or a journal is shown.
    fn keep(&mut self) -> Result<(), Fail> {
        let file: &[u8] = match self.draw() % 3 {
            0 => b" R",
            1 => b" S",
            _ => b" I",
        };
        let drawn = self.draw() % 16;
        let verb: &[u8] = match drawn {
            0..=4 => b"A: SET_FILE",
            5..=7 => b"A: BACKUP",
            8..=12 => b"A: RECOVER",
            _ => b"A: DUMP_JOURNAL",
        };
        self.put(verb)?;
        self.put(file)?;
        match drawn {
            0 | 1 => self.put(b" AI 16")?,
            2 | 3 => self.put(b" BI 16")?,
            4 => self.put(b" NOAI")?,
            5..=7 => {}
            8 | 9 => self.put(b" FORWARD")?,
            10 => {
                self.put(b" FORWARD")?;
                self.put_moment()?;
            }
            11 | 12 => {
                self.put(b" BACKWARD")?;
                self.put_moment()?;
            }
            13 | 14 => self.put(b" AI")?,
            _ => self.put(b" BI")?,
        }
        self.put(b"\n")
    }

    // All transactions end, and files are saved and recovered before others begin.
    fn recover(&mut self) -> Result<(), Fail> {
        for place in 0..3usize {
            self.put(b"A: END_TRANS ")?;
            self.put_label(self.open[place % 3])?;
            self.put(b"\n")?;
        }
        for _ in 0..6 {
            self.keep()?;
        }
        self.put(b"A: DUMP R\nA: DUMP S\nA: DUMP I\n")?;
        self.start_all()
    }

    fn look(&mut self) -> Result<(), Fail> {
        match self.draw() % 4 {
            0 => self.put(b"A: DUMP R\n"),
            1 => self.put(b"A: DUMP S\n"),
            2 => self.put(b"A: DUMP I\n"),
            _ => self.put(b"A: DUMP_JOURNAL RU\n"),
        }
    }

    // One step more.
    fn go_on(&mut self) -> Result<(), Fail> {
        match self.draw() {
            0 if self.draw() < 128 => self.restart(),
            1 => self.unmark(),
            2..=9 => self.look(),
            10..=19 => self.end(),
            20..=23 => self.recover(),
            24 | 25 => self.keep(),
            _ => self.operate(),
        }
    }
}

// Both show the same for the script that follows from this number.
fn agree(alloc: Global, first: u64) -> Result<(), Fail> {
    let mut script = Script::begin(alloc, first)?;
    for _ in 0..STATEMENTS {
        script.go_on()?;
    }
    same_by_one(alloc, script.text.as_slice(), 1_000_000)?;
    Ok(())
}

#[test]
fn random_scripts_show_what_the_plain_program_shows(rt: HostRuntime) -> Result<(), Fail> {
    agree(rt.alloc(), 1)?;
    agree(rt.alloc(), 2)
}

#[test]
fn more_random_scripts_show_what_the_plain_program_shows(rt: HostRuntime) -> Result<(), Fail> {
    agree(rt.alloc(), 3)?;
    agree(rt.alloc(), 4)
}
