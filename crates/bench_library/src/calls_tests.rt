//! Each measured call once, with the number that it has to return.

use crate::answers::rows_heard;
use crate::batches::{Pipeline, sessions};
use crate::codec::{bench_append, bench_decode, bench_encode};
use crate::growth::{pieces_taken, records_read, records_written};
use crate::workload::{Workload, run};

/// A list of the integers 1 and 2, in 3 bytes.
const LIST: [u8; 3] = [0x92, 1, 2];

#[test]
fn the_codec_reads_and_writes_each_turn(rt: HostRuntime) {
    let alloc = rt.alloc();
    assert_eq!(rt; bench_decode(alloc, &LIST, 5), 5);
    assert_eq!(rt; bench_encode(alloc, &LIST, 5), 15);
    assert_eq!(rt; bench_append(alloc, &LIST, 5), 15);
    assert_eq!(rt; bench_decode(alloc, &[0x92, 1], 5), 0);
}

#[test]
fn each_row_is_heard(rt: HostRuntime) {
    let alloc = rt.alloc();
    assert!(rt; matches!(rows_heard(alloc, 3, 2), Ok(6)));
}

#[test]
fn each_workload_ends(rt: HostRuntime) {
    let alloc = rt.alloc();
    for kind in 0..5u8 {
        assert!(rt; run(alloc, Workload::Pipelines(Pipeline::of(kind, 3), 2)).is_ok());
    }
    assert!(rt; run(alloc, Workload::Gets(2, 2)).is_ok());
    assert!(rt; sessions(alloc, 2, 2).is_ok());
    assert!(rt; records_read(alloc, 3, 2).is_ok());
    assert!(rt; records_written(alloc, 3, 2).is_ok());
    assert!(rt; pieces_taken(alloc, 100, 2).is_ok());
}
