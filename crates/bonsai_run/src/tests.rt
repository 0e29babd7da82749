//! Orders over texts in memory, and calls that fail.

use crate::run_alone;
use shelf_io::{MemShelf, MemSink};
use std::alloc::{AllocError, Global};
use std::test::Fail;

/// The only demand is that `g` equals `r` at every step.
const COPY: &[u8] =
    b"INFO{SEMANTICS:Mealy TARGET:Mealy}MAIN{INPUTS{r;}OUTPUTS{g;}ASSERT{g <-> r;}}";

const COPY_ANSWER: &[u8] =
    b"REALIZABLE\nbound 0\nmachine system second\ninputs r\noutputs g\nstates 1\n0 0 -> 0 0\n0 1 -> 1 0\n";

fn words_of(alloc: Global, words: &[&str]) -> Result<Vec<String>, AllocError> {
    let mut all = Vec::new(alloc);
    for word in words {
        all.push(String::from_str(alloc, word)?)?;
    }
    Ok(all)
}

/// A shelf with the one text `t1`.
fn one_text(alloc: Global, text: &[u8], failing: Vec<u64>) -> Result<MemShelf, AllocError> {
    let name = String::from_str(alloc, "t1")?;
    let text = Vec::from_slice(alloc, text)?;
    Ok(MemShelf::open(vec![in alloc; (name, text)]?, failing))
}

/// A sink with room for an answer, whose call of this number fails after so many bytes.
fn sink_failing(alloc: Global, call: u64, bytes: usize) -> Result<MemSink, AllocError> {
    MemSink::open(alloc, 2000, vec![in alloc; (call, bytes)]?)
}

fn sink(alloc: Global) -> Result<MemSink, AllocError> {
    MemSink::open(alloc, 2000, Vec::new(alloc))
}

#[test]
fn copies(rt: HostRuntime) -> Result<(), Fail> {
    let alloc = rt.alloc();
    let words = words_of(alloc, &["synth", "t1"])?;
    let mut shelf = one_text(alloc, COPY, Vec::new(alloc))?;
    let (mut out, mut err) = (sink(alloc)?, sink(alloc)?);
    assert_eq!(rt;
        run_alone(alloc, &words, &mut shelf, &mut out, &mut err),
        10
    );
    assert_eq!(rt; out.bytes(), COPY_ANSWER);
    assert_eq!(rt; err.bytes(), b"".as_slice());
    Ok(())
}

#[test]
fn fails_to_write(rt: HostRuntime) -> Result<(), Fail> {
    let alloc = rt.alloc();
    let words = words_of(alloc, &["synth", "t1"])?;
    let mut shelf = one_text(alloc, COPY, Vec::new(alloc))?;
    let (mut out, mut err) = (sink_failing(alloc, 3, 1)?, sink(alloc)?);
    assert_eq!(rt; run_alone(alloc, &words, &mut shelf, &mut out, &mut err), 1);
    assert_eq!(rt; out.bytes(), b"REALIZABLE\nbound 0\nm".as_slice());
    assert_eq!(rt; err.bytes(), b"bonsai: cannot write\n".as_slice());
    Ok(())
}

#[test]
fn fails_to_read(rt: HostRuntime) -> Result<(), Fail> {
    let alloc = rt.alloc();
    let words = words_of(alloc, &["eval", "t1", "w1"])?;
    let mut shelf = one_text(alloc, COPY, Vec::new(alloc))?;
    let (mut out, mut err) = (sink(alloc)?, sink(alloc)?);
    assert_eq!(rt; run_alone(alloc, &words, &mut shelf, &mut out, &mut err), 3);
    assert_eq!(rt; out.bytes(), b"".as_slice());
    assert_eq!(rt; err.bytes(), b"bonsai: cannot read w1\n".as_slice());
    Ok(())
}

#[test]
fn fails_by_plan(rt: HostRuntime) -> Result<(), Fail> {
    let alloc = rt.alloc();
    let words = words_of(
        alloc,
        &["downset", "t1", "--player", "system", "--bound", "0"],
    )?;
    let mut shelf = one_text(alloc, COPY, vec![in alloc; 1]?)?;
    let (mut out, mut err) = (sink(alloc)?, MemSink::open(alloc, 0, Vec::new(alloc))?);
    assert_eq!(rt; run_alone(alloc, &words, &mut shelf, &mut out, &mut err), 3);
    assert_eq!(rt; err.bytes(), b"".as_slice());
    let mut err = sink(alloc)?;
    assert_eq!(rt; run_alone(alloc, &words, &mut shelf, &mut out, &mut err), 0);
    assert_eq!(rt;
        out.bytes(),
        b"downset system bound 0 lanes 2 entries 1\n0 -1\n".as_slice()
    );
    Ok(())
}
