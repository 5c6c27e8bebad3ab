//! Tests of `io_edge`: files, a sink and input in memory. The built program shows that words stand in their order.

use io_edge::{FileEnd, Files, MemFiles, MemSink, MemSource, Sink, Source, SourceEnd};
use std::alloc::Global;
use std::test::Fail;
use text_core::NoMemory;

/// Reads, one after another: the name, the most bytes that are let pass, the answer that is wanted, and the count of
/// faults after it.
static READS: [(&str, usize, Result<&[u8], FileEnd>, u64); 9] = [
    ("a", 3, Ok(&[1, 2, 3]), 0),
    ("a", 2, Err(FileEnd::TooLong), 0),
    ("a", 3, Err(FileEnd::Failed), 1),
    ("b", 3, Err(FileEnd::Failed), 2),
    ("e", 0, Ok(&[]), 2),
    ("a", 0, Err(FileEnd::TooLong), 2),
    ("a", usize::MAX, Ok(&[1, 2, 3]), 2),
    ("a", 9, Err(FileEnd::Failed), 3),
    ("a", 9, Ok(&[1, 2, 3]), 3),
];

/// Two files of the name `a`, and an empty one. The reads 2 and 7 fail.
fn three_files(alloc: Global) -> Result<MemFiles, NoMemory> {
    let mut files = Vec::new(alloc);
    files.push((String::from_str(alloc, "a")?, vec![in alloc; 1, 2, 3]?))?;
    files.push((String::from_str(alloc, "a")?, vec![in alloc; 9]?))?;
    files.push((String::from_str(alloc, "e")?, Vec::new(alloc)))?;
    MemFiles::new(alloc, files, vec![in alloc; 2, 7]?)
}

/// Whether a file is read with the answer that is wanted.
fn reads(
    alloc: Global,
    files: &mut MemFiles,
    name: &str,
    most: usize,
    wanted: &Result<&[u8], FileEnd>,
) -> bool {
    match (files.read_all(alloc, name, most), wanted) {
        (Ok(bytes), Ok(wanted)) => bytes.as_slice() == *wanted,
        (Err(end), Err(wanted)) => end == *wanted,
        _ => false,
    }
}

/// Whether the names that were asked for are those of the reads up to one.
fn were_asked(asked: &[String], last: usize) -> bool {
    for (i, (name, ..)) in READS.iter().enumerate() {
        if i <= last && (i >= asked.len() || asked[i].as_str() != *name) {
            return false;
        }
    }
    true
}

#[test]
fn a_read_answers_by_its_name_its_most_and_its_number(rt: HostRuntime) -> Result<(), Fail> {
    let Ok(mut files) = three_files(rt.alloc()) else {
        return Err("memory lasts".into());
    };
    for (i, (name, most, wanted, faults)) in READS.iter().enumerate() {
        let read = reads(rt.alloc(), &mut files, name, *most, wanted);
        assert!(rt; read && files.faults() == *faults, "read {i}");
        assert!(rt; were_asked(files.asked(), i), "names {i}");
    }
    assert!(rt; files.asked().len() == READS.len());
    Ok(())
}

/// Puts, one after another: the piece, whether it is taken as a whole, and how many bytes were taken and how many faults
/// there were after it.
static PUTS: [(&str, bool, usize, u64); 7] = [
    ("abc", true, 3, 0),
    ("defgh", false, 5, 1),
    ("ijkl", false, 5, 2),
    ("ijk", true, 8, 2),
    ("", true, 8, 2),
    ("xyz", false, 8, 3),
    ("x", false, 8, 4),
];

/// Whether a piece is put with the answer, the count of bytes and the count of faults that are wanted.
fn puts(sink: &mut MemSink, piece: &str, whole: bool, taken: usize, faults: u64) -> bool {
    let answer = sink.put(piece.as_bytes());
    answer.is_ok() == whole && sink.bytes().len() == taken && sink.faults() == faults
}

#[test]
fn a_put_takes_what_has_room_and_half_where_it_fails(rt: HostRuntime) -> Result<(), Fail> {
    let failing = vec![in rt.alloc(); 1, 5]?;
    let Ok(mut sink) = MemSink::new(rt.alloc(), 8, failing) else {
        return Err("memory lasts".into());
    };
    for (i, (piece, whole, taken, faults)) in PUTS.iter().enumerate() {
        assert!(rt; puts(&mut sink, piece, *whole, *taken, *faults), "put {i}");
    }
    assert_eq!(rt; sink.bytes(), b"abcdeijk".as_slice());
    Ok(())
}

/// Calls for more input, one after another: the answer that is wanted, and the count of faults after it.
static CALLS: [(Result<&[u8], SourceEnd>, u64); 6] = [
    (Ok(&[97, 98]), 0),
    (Err(SourceEnd::Failed), 1),
    (Ok(&[99]), 1),
    (Ok(&[]), 1),
    (Err(SourceEnd::Failed), 2),
    (Ok(&[]), 2),
];

/// Whether input comes with the answer that is wanted.
fn comes(alloc: Global, input: &mut MemSource, wanted: &Result<&[u8], SourceEnd>) -> bool {
    match (input.more(alloc), wanted) {
        (Ok(bytes), Ok(wanted)) => bytes.as_slice() == *wanted,
        (Err(end), Err(wanted)) => end == *wanted,
        _ => false,
    }
}

#[test]
fn input_comes_piece_by_piece_until_its_end(rt: HostRuntime) -> Result<(), Fail> {
    let alloc = rt.alloc();
    let pieces = vec![in alloc; vec![in alloc; 97, 98]?, vec![in alloc; 99]?]?;
    let Ok(mut input) = MemSource::new(pieces, vec![in alloc; 1, 4]?) else {
        return Err("memory lasts".into());
    };
    for (i, (wanted, faults)) in CALLS.iter().enumerate() {
        let came = comes(alloc, &mut input, wanted);
        assert!(rt; came && input.faults() == *faults, "call {i}");
    }
    Ok(())
}
