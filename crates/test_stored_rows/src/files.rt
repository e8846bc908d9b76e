//! A file of ten changes: cut off at each of its bytes and continued, and with a wrong bit in each.
use roam_row_files::{Change, Checkpoint, front, last_checkpoint, push_change, replay};
use roam_stored_rows::{StoreFault, StoredRows, Wrap};
use std::alloc::Global;

const POINT: Checkpoint<'static> = Checkpoint {
    count: 99,
    rows: 24,
    cols: 80,
    text: b"x",
};

const CHANGES: [Change<'static>; 10] = [
    Change::Begin(7),
    Change::Append(Wrap::Full, b"one "),
    Change::Append(Wrap::Ends, b"line"),
    Change::Append(Wrap::Early, b""),
    Change::Check(POINT),
    Change::Withdraw(9),
    Change::Forget(8),
    Change::Clear,
    Change::Begin(9),
    Change::Begin(20),
];

// The first number and the number behind the last, after so many of the changes.
const AFTER: [(u64, u64); 11] = [
    (0, 0),
    (7, 7),
    (7, 8),
    (7, 9),
    (7, 10),
    (7, 10),
    (7, 9),
    (8, 9),
    (9, 9),
    (9, 9),
    (20, 20),
];

// Where the record behind so many changes begins.
const ENDS: [usize; 11] = [0, 17, 30, 43, 52, 74, 91, 108, 117, 134, 151];

fn written(alloc: Global, changes: &[Change<'static>]) -> Result<Vec<u8>, StoreFault> {
    let mut file = Vec::new(alloc);
    for change in changes {
        push_change(alloc, &mut file, *change)?;
    }
    Ok(file)
}

// How many changes are whole in so many bytes.
fn whole_in(size: usize) -> usize {
    let mut count = 0;
    for (at, end) in ENDS.iter().enumerate() {
        if *end <= size {
            count = at;
        }
    }
    count
}

fn are_read(alloc: Global, file: &[u8], count: usize) -> Result<bool, StoreFault> {
    let mut rows = StoredRows::new(alloc, 0);
    let end = replay(&mut rows, file)?;
    Ok(count < 11 && end == ENDS[count] && (rows.first(), rows.end()) == AFTER[count])
}

fn beginnings_are_read(alloc: Global) -> Result<bool, StoreFault> {
    let file = written(alloc, &CHANGES)?;
    let mut all = file.len() == 151;
    for size in 0..file.len() {
        let (front, _) = file.split_at(size);
        all = are_read(alloc, front, whole_in(size))? && all;
    }
    Ok(are_read(alloc, &file, 10)? && all)
}

// A writer that cuts the file to its whole records, and adds a row.
fn goes_on(alloc: Global, size: usize) -> Result<bool, StoreFault> {
    let mut file = written(alloc, &CHANGES)?;
    file.truncate(size);
    let mut rows = StoredRows::new(alloc, 0);
    let end = replay(&mut rows, &file)?;
    file.truncate(end);
    push_change(alloc, &mut file, Change::Append(Wrap::Ends, b"more"))?;
    let mut again = StoredRows::new(alloc, 0);
    let all = replay(&mut again, &file)?;
    Ok(
        all == file.len()
            && again.first() == rows.first()
            && again.end() == rows.end().saturating_add(1),
    )
}

fn cut_files_are_continued(alloc: Global) -> Result<bool, StoreFault> {
    let mut all = true;
    for size in 0..152 {
        all = goes_on(alloc, size)? && all;
    }
    Ok(all)
}

fn spoiled_ends_are_left(alloc: Global) -> Result<bool, StoreFault> {
    let mut file = written(alloc, &CHANGES)?;
    let mut all = true;
    for at in 0..file.len() {
        if at < file.len() {
            file[at] ^= 4;
            all = are_read(alloc, &file, whole_in(at))? && all;
        }
        if at < file.len() {
            file[at] ^= 4;
        }
    }
    Ok(all)
}

// The newer segment alone: a withdrawal may reach below its first number.
const NEWER: [Change<'static>; 4] = [
    Change::Begin(100),
    Change::Append(Wrap::Ends, b"gone"),
    Change::Withdraw(95),
    Change::Append(Wrap::Ends, b"again"),
];

fn segments_are_read_alone(alloc: Global) -> Result<bool, StoreFault> {
    let newer = written(alloc, &NEWER)?;
    let mut rows = StoredRows::new(alloc, 0);
    let end = replay(&mut rows, &newer)?;
    Ok(end == newer.len() && rows.first() == 95 && rows.end() == 96)
}

// The checkpoint is the fifth change; without its last byte there is none.
fn checkpoints_are_found(alloc: Global) -> Result<bool, StoreFault> {
    let mut file = written(alloc, &CHANGES)?;
    let found = match last_checkpoint(&file) {
        Some((point, end)) => point.count == 99 && end == ENDS[5],
        None => false,
    };
    file.truncate(ENDS[5] - 1);
    Ok(found && last_checkpoint(&file).is_none())
}

// The records of a row and of a checkpoint, with the checksums that zlib gives.
fn has_the_bytes_of_zlib(alloc: Global) -> Result<bool, StoreFault> {
    let mut file = Vec::new(alloc);
    push_change(alloc, &mut file, Change::Append(Wrap::Full, b"Wikipedia"))?;
    let row = file.as_slice() == b"\0\0\0\x0a\x13\x95\x03\xc3+Wikipedia".as_slice();
    file.clear();
    push_change(alloc, &mut file, Change::Check(POINT))?;
    let point = file.as_slice()
        == b"\0\0\0\x0e\x07\xf2\x01\x8fK\0\0\0\0\0\0\0\x63\0\x18\0\x50x".as_slice();
    let read = match front(&file) {
        Some((Change::Check(found), 22)) => {
            found.count == 99
                && found.rows == 24
                && found.cols == 80
                && found.text == b"x".as_slice()
        }
        _ => false,
    };
    Ok(row && point && read)
}

#[test]
fn changes_are_kept(rt: HostRuntime) {
    assert!(rt; matches!(beginnings_are_read(rt.alloc()), Ok(true)));
    assert!(rt; matches!(cut_files_are_continued(rt.alloc()), Ok(true)));
    assert!(rt; matches!(spoiled_ends_are_left(rt.alloc()), Ok(true)));
    assert!(rt; matches!(segments_are_read_alone(rt.alloc()), Ok(true)));
    assert!(rt; matches!(checkpoints_are_found(rt.alloc()), Ok(true)));
    assert!(rt; matches!(has_the_bytes_of_zlib(rt.alloc()), Ok(true)));
}
