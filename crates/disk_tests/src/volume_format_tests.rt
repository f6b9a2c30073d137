// Homes and files byte by byte, and blocks that have none.
use file_base::{FileHead, Marks, Organization, Save, Span};
use vms_base::{FileName, Id, Moment, NodeName, Reason, Serial, Tid};
use volume_format::*;

fn id(node: NodeName) -> Id {
    Id {
        node,
        boot: 1,
        seq: 1,
    }
}

fn home(node: NodeName) -> Home {
    Home {
        version: 1,
        blocks: 4096,
        slots: 128,
        ru_blocks: 1024,
        node,
        boot: 3,
        greatest_moment: Moment(445_343_760_000),
        last: Some(Settled {
            tid: Tid(id(node)),
            serial: Serial(id(node)),
            ending: Ending::Abort(Reason::Timeout),
        }),
    }
}

#[test]
fn a_home_has_its_fields_at_their_places(rt: HostRuntime) {
    let Some(node) = NodeName::new(b"a") else {
        return assert!(rt; false);
    };
    let mut block = [0; 512];
    write_home(&home(node), &mut block);
    let mut front = [0; 82];
    for i in 0..82 {
        front[i] = block[i];
    }
    assert_eq!(rt;
        front.as_slice(),
        b"DTMVOL01\x01\0\0\0\0\x10\0\0\x80\0\0\0\0\x04\0\0A\0\0\0\0\0\0\0\x03\0\0\0\0\0\0\0\x80\x7e\x8e\xb0\x67\0\0\0A\0\0\0\0\0\0\0\x01\0\0\0\x01\0\0\0A\0\0\0\0\0\0\0\x01\0\0\0\x01\0\0\0\x02\x04".as_slice()
    );
    assert_eq!(rt; read_home(&block), Some(home(node)));
    // Between and behind the fields any byte may stand.
    block[36] = 7;
    block[511] = 9;
    assert_eq!(rt; read_home(&block), Some(home(node)));
    // The front alone is read where the fields behind it are no home's.
    let sizes = Sizes {
        blocks: 4096,
        slots: 128,
        ru_blocks: 1024,
    };
    let fronts: [(usize, u8, Option<Sizes>); 4] = [
        (80, 3, Some(sizes)),
        (7, 50, None),
        (8, 2, None),
        (16, 64, Some(Sizes { slots: 64, ..sizes })),
    ];
    for (at, byte, told) in fronts {
        assert!(rt; at < 512);
        let mut other = block;
        other[at] = byte;
        assert_eq!(rt; read_sizes(&other), told, "at {at}");
    }
    // A tag, a name, a kind, a reason and a zero behind a name that no home has.
    let table: [(usize, u8); 5] = [(0, 0), (24, 97), (80, 3), (81, 7), (31, 1)];
    for (at, byte) in table {
        assert!(rt; at < 512);
        let mut other = block;
        other[at] = byte;
        assert_eq!(rt; read_home(&other), None, "at {at}");
    }
}

#[test]
fn a_directory_block_is_free_or_a_file(rt: HostRuntime) {
    let Some(name) = FileName::new(b"LEDGER.DAT") else {
        return assert!(rt; false);
    };
    let file = DirectoryEntry::File(FileHead {
        name,
        organization: Organization::Indexed,
        marks: Marks {
            ru: true,
            ai: false,
            bi: true,
            save: false,
        },
        bucket: 4,
        mrs: 200,
        mrn: 0,
        key_pos: 0,
        key_size: 6,
        start: 2000,
        alloc: 200,
        used: 1,
        root: 0,
        levels: 1,
        count: 0,
        ai: Span {
            start: 0,
            blocks: 0,
            first: 53,
            end: 106,
        },
        bi: Span {
            start: 3000,
            blocks: 8,
            first: 0,
            end: 96,
        },
        bi_since: Moment(5),
        save: Save {
            start: 0,
            alloc: 0,
            position: 0,
            moment: Moment(0),
            used: 0,
            root: 0,
            levels: 0,
            count: 0,
        },
    });
    let mut block = [1; 512];
    write_directory(&file, &mut block);
    assert_eq!(rt; read_directory(&block), Some(file));
    let places: [(usize, u8); 8] = [
        (0, 1),
        (1, 3),
        (2, 5),
        (3, 10),
        (4, 76),
        (54, 6),
        (112, 0),
        (120, 96),
    ];
    for (at, byte) in places {
        assert!(rt; at < 512);
        assert_eq!(rt; block[at], byte, "at {at}");
        let mut other = block;
        other[at] = 0xFF;
        if at < 5 {
            assert_eq!(rt; read_directory(&other), None, "at {at}");
        }
    }
    block[511] = 1;
    assert_eq!(rt; read_directory(&block), None);
    assert_eq!(rt; read_directory(&[0; 512]), Some(DirectoryEntry::Free));
}

#[test]
fn a_journal_tells_its_positions(rt: HostRuntime) {
    let span = Span {
        start: 712,
        blocks: 1024,
        first: 53,
        end: 65_792,
    };
    let mut block = [7; 512];
    write_ru(&span, &mut block);
    assert_eq!(rt; read_ru(&block, 712, 1024), span);
    let places: [(usize, u8); 5] = [(0, 53), (1, 0), (9, 1), (10, 1), (16, 7)];
    for (at, byte) in places {
        assert!(rt; at < 512);
        assert_eq!(rt; block[at], byte, "at {at}");
    }
}
