//! Each sort of line, byte for byte, and buffers that just hold one.
use crate::checks::{check_at, check_same};
use line::{Reply, write_line};
use measure::Ratio;
use measure::pair::trunk_value;
use report::{Mark, Refusal};
use std::process::Abort;
use std::test::Fail;

// A line with its number, what it says and of which legs, and its bytes.
type Case<'a> = (usize, Reply, &'a [u16], &'a [u8]);

// Each line is written as its bytes, at place 3 of a buffer, and nothing before it.
fn check_lines(rt: &impl Abort, cases: &[Case<'_>]) -> Result<(), Fail> {
    for &(number, reply, legs, bytes) in cases {
        let mut buffer = [0u8; 80];
        let end = write_line(number, reply, legs, &mut buffer, 3)?;
        check_at(rt, number, buffer.get(3..end), Some(bytes));
        check_at(rt, number, (buffer[0], buffer[2]), (0, 0));
    }
    Ok(())
}

fn none(mark: Mark) -> Reply {
    Reply::NoRoute { mark }
}

#[test]
fn every_sort_of_line(rt: HostRuntime) -> Result<(), Fail> {
    let route = Reply::Route {
        mark: Mark::Standing,
        ratio: Ratio { top: 8, bottom: 10 },
        value: trunk_value(7, 8, 2),
    };
    let empty = Reply::Route {
        mark: Mark::Doubtful,
        ratio: Ratio {
            top: 0,
            bottom: 2147483647,
        },
        value: trunk_value(0, 0, 0),
    };
    let cases: [Case<'_>; 6] = [
        (1, Reply::Counted(0), &[], b"1 ok 0\n"),
        (10, Reply::Counted(256), &[], b"10 ok 256\n"),
        (5, route, &[0, 2], b"5 route standing 8/10 7 8 2 2 0 2\n"),
        (2, empty, &[], b"2 route doubtful 0/2147483647 0 0 0 0\n"),
        (4, none(Mark::Standing), &[], b"4 none standing\n"),
        (4, none(Mark::Doubtful), &[], b"4 none doubtful\n"),
    ];
    check_lines(&rt, &cases)
}

#[test]
fn lines_of_refusals(rt: HostRuntime) -> Result<(), Fail> {
    let full = Refusal::LabelsFull { site: 255 };
    let unknown = Refusal::UnknownKind { place: 65535 };
    let cut_short = Refusal::CutShort {
        place: 40,
        missing: 5,
    };
    let cases: [(usize, Refusal, &[u8]); 5] = [
        (11, Refusal::CardFilled, b"11 refused 12\n"),
        (12, full, b"12 refused 16 255\n"),
        (13, unknown, b"13 refused 17 65535\n"),
        (3, cut_short, b"3 refused 18 40 5\n"),
        (65536, Refusal::BufferTooShort, b"65536 refused 19\n"),
    ];
    for (number, why, bytes) in cases {
        check_lines(&rt, &[(number, Reply::Refused(why), &[], bytes)])?;
    }
    Ok(())
}

// A line of seven bytes.
fn write_counted(buffer: &mut [u8], place: usize) -> Result<usize, Refusal> {
    write_line(1, Reply::Counted(0), &[], buffer, place)
}

#[test]
fn a_line_needs_all_its_room(rt: HostRuntime) {
    let mut buffer = [7u8; 9];
    for place in [3, 10, usize::MAX] {
        let end = write_counted(&mut buffer, place);
        check_at(&rt, place, end, Err(Refusal::BufferTooShort));
    }
    check_same(&rt, buffer, [7; 9]);
    check_same(&rt, write_counted(&mut buffer, 2), Ok(9));
    check_same(&rt, buffer, *b"\x07\x071 ok 0\n");
}
