//! Records cut short by every length, unknown kinds, and measures past the last that is admitted.
use crate::checks::check_at;
use encoding::write_record;
use feed::{Measures, Reading, Record, read_record};
use report::Refusal;
use std::process::Abort;

const EDGES: Measures = Measures {
    delay: 2147483647,
    price: 2147483648,
    class: 4294967295,
};

// A record of each kind, and where it ends if it begins at place 2.
const RECORDS: [(Record, usize); 7] = [
    (
        Record::Offer {
            link: 4095,
            start: 255,
            end: 65535,
            measures: EDGES,
        },
        21,
    ),
    (
        Record::Change {
            link: 65535,
            measures: EDGES,
        },
        17,
    ),
    (Record::Withdraw { link: 0 }, 5),
    (
        Record::Quote {
            card: 255,
            source: 256,
            destination: 1,
            limits: EDGES,
        },
        21,
    ),
    (Record::Recheck { card: 65535 }, 5),
    (Record::Discard { card: 1 }, 5),
    (Record::Read { card: 256 }, 5),
];

// What a record answers that is written at place 2, as all of them are here.
fn write_at_2(record: Record, buffer: &mut [u8]) -> Result<usize, Refusal> {
    write_record(record, buffer, 2)
}

// What is read at the place, and how many bytes are left.
fn read_at(bytes: &[u8], place: usize) -> (Reading, usize) {
    let (reading, rest) = read_record(bytes, place);
    (reading, rest.len())
}

#[test]
fn every_record_comes_back(rt: HostRuntime) {
    for (record, end) in RECORDS {
        let mut buffer = [9; 24];
        check_at(&rt, end, write_at_2(record, &mut buffer), Ok(end));
        check_at(&rt, end, read_at(&buffer, 2), (Ok(Some(record)), 24 - end));
    }
}

// The record that ends there is cut short at every length.
fn check_cut_short(rt: &impl Abort, record: Record, end: usize) {
    let mut buffer = [9; 24];
    check_at(rt, end, write_at_2(record, &mut buffer), Ok(end));
    for length in 3..end {
        let cut_short = Refusal::CutShort {
            place: 2,
            missing: end.saturating_sub(length),
        };
        let came = read_at(&buffer[0..length.min(24)], 2);
        check_at(rt, length, came, (Err(cut_short), 0));
    }
}

#[test]
fn every_record_is_cut_short_at_every_length(rt: HostRuntime) {
    for (record, end) in RECORDS {
        check_cut_short(&rt, record, end);
    }
}

// The record that would end there is not written into less room.
fn check_too_short(rt: &impl Abort, record: Record, end: usize) {
    for length in 0..end {
        let mut buffer = [9; 24];
        let came = write_at_2(record, &mut buffer[0..length.min(24)]);
        check_at(rt, length, came, Err(Refusal::BufferTooShort));
        check_at(rt, length, buffer, [9; 24]);
    }
}

#[test]
fn too_short_a_buffer_is_left_as_it_was(rt: HostRuntime) {
    for (record, end) in RECORDS {
        check_too_short(&rt, record, end);
    }
}

#[test]
fn other_kinds_are_unknown(rt: HostRuntime) {
    for kind in 0..=255u8 {
        let (reading, left) = read_at(&[3, kind, 0, 0], 1);
        let unknown = reading == Err(Refusal::UnknownKind { place: 1 });
        let place = usize::from(kind);
        check_at(&rt, place, (unknown, left), (kind < 1 || 7 < kind, 0));
    }
}

#[test]
fn nothing_stands_past_the_end(rt: HostRuntime) {
    for start in [3, 4, usize::MAX] {
        check_at(&rt, start, read_at(&[3, 0, 0], start), (Ok(None), 0));
    }
}
