// Free runs worked out by hand.
use extents::*;
use file_base::{FileHead, Marks, NO_SPAN, Organization, Save, Span};
use vms_base::{FileName, Moment};

// A file with buckets of two blocks, a journal of after images of five, and a saved copy.
fn file(name: FileName, start: u32, alloc: u32, ai: u32, save: u32) -> FileHead {
    FileHead {
        name,
        organization: Organization::Sequential,
        marks: Marks {
            ru: false,
            ai: true,
            bi: false,
            save: true,
        },
        bucket: 2,
        mrs: 100,
        mrn: 0,
        key_pos: 0,
        key_size: 0,
        start,
        alloc,
        used: 1,
        root: 0,
        levels: 0,
        count: 0,
        ai: Span {
            start: ai,
            blocks: 5,
            first: 0,
            end: 0,
        },
        bi: NO_SPAN,
        bi_since: Moment(0),
        save: Save {
            start: save,
            alloc: 3,
            position: 0,
            moment: Moment(0),
            used: 1,
            root: 0,
            levels: 0,
            count: 0,
        },
    }
}

// Free of it are 990 to 999, 1032 to 1033, 1040 to 1051 and 1058 to 1061.
const AREA: Extent = Extent {
    start: 990,
    end: 1062,
};

const LATER: Extent = Extent {
    start: 1000,
    end: 1050,
};

// So many blocks, and where they are free in the area, and in the later one.
const RUNS: [(u32, Option<u64>); 7] = [
    (0, Some(990)),
    (1, Some(990)),
    (10, Some(990)),
    (11, Some(1040)),
    (12, Some(1040)),
    (13, None),
    (72, None),
];

const LATER_RUNS: [(u32, Option<u64>); 5] = [
    (0, Some(1032)),
    (2, Some(1032)),
    (3, Some(1040)),
    (10, Some(1040)),
    (11, None),
];

// Two files, 3 and 60: where the second lies with its journal and its copy, and the copy of the first.
fn heads(start: u32, ai: u32, save: u32, other: u32) -> Option<[Option<FileHead>; 64]> {
    let name = FileName::new(b"F")?;
    let mut heads = [None; 64];
    heads[3] = Some(file(name, 1000, 10, 1022, other));
    heads[60] = Some(file(name, start, 1, ai, save));
    Some(heads)
}

#[test]
fn free_runs_lie_between_the_files(rt: HostRuntime) {
    // Buckets 1000 to 1019, journal 1022 to 1026, copy 1034 to 1039; and 1020 to 1021, 1027 to 1031, 1052 to 1057.
    let Some(heads) = heads(1020, 1027, 1052, 1034) else {
        return assert!(rt; false);
    };
    let extents = all_extents(&heads);
    for (blocks, start) in RUNS {
        assert_eq!(rt; free_run(&extents, AREA, blocks), start, "{blocks} blocks");
    }
    for (blocks, start) in LATER_RUNS {
        assert_eq!(rt;
            free_run(&extents, LATER, blocks),
            start,
            "{blocks} blocks behind 999"
        );
    }
    assert_eq!(rt; longest_free(&extents, AREA), 12);
    assert_eq!(rt; longest_free(&extents, LATER), 10);
    assert_eq!(rt; first_misfit(&AREA, &extents), None);
    assert_eq!(rt; first_misfit(&LATER, &extents), Some(243));
}

// Where the second file lies, and the place of the first misfit: 4 extents for each file number.
const MISFITS: [(u32, u32, u32, Option<usize>); 7] = [
    (1032, 1027, 1050, None),
    (1031, 1027, 1050, Some(241)),
    (1019, 1027, 1050, Some(240)),
    (1060, 1027, 1050, None),
    (1061, 1027, 1050, Some(240)),
    (1032, 985, 1050, Some(241)),
    (1032, 1027, 1041, Some(243)),
];

#[test]
fn a_misfit_is_the_later_of_two_that_overlap(rt: HostRuntime) {
    for (start, ai, save, place) in MISFITS {
        let Some(heads) = heads(start, ai, save, 1040) else {
            return assert!(rt; false);
        };
        assert_eq!(rt;
            first_misfit(&AREA, &all_extents(&heads)),
            place,
            "{start} {ai} {save}"
        );
    }
}
