//! Files and streams in memory, of which chosen calls fail.

use ror_io::{
    Fetched, MemoryShelf, MemorySink, Shelf, ShelfFault, Sink, SinkFault, SteadyShelf, SteadySink,
    write_all, write_pieces,
};
use std::alloc::Global;
use std::test::Fail;

/// What a fetch of `a`, which is to have three bytes at most, comes to: its bytes, where they are `two`.
fn is_two<S: Shelf>(shelf: &mut S, alloc: Global) -> Result<bool, ShelfFault> {
    match shelf.fetch(alloc, "a", 3)? {
        Fetched::Whole(bytes) => Ok(bytes.as_slice() == b"two".as_slice()),
        Fetched::Longer => Ok(false),
    }
}

fn written<S: Sink>(sink: &mut S, piece: &[u8]) -> Result<usize, SinkFault> {
    sink.write(piece)
}

#[test]
fn a_shelf_fetches_what_was_put(rt: HostRuntime) -> Result<(), Fail> {
    let mut shelf = MemoryShelf::new(rt.alloc());
    shelf.put("a", b"first")?;
    shelf.put("a", b"two")?;
    assert!(rt; is_two(&mut shelf, rt.alloc()) == Ok(true));
    Ok(())
}

#[test]
fn the_chosen_fetch_fails(rt: HostRuntime) -> Result<(), Fail> {
    let mut shelf = MemoryShelf::new(rt.alloc());
    shelf.put("a", b"two")?;
    shelf.fail_at(1)?;
    assert!(rt; is_two(&mut shelf, rt.alloc()) == Err(ShelfFault::Failed));
    assert!(rt; is_two(&mut shelf, rt.alloc()) == Ok(true));
    Ok(())
}

#[test]
fn a_steady_shelf_fetches_what_was_put(rt: HostRuntime) -> Result<(), Fail> {
    let mut shelf = SteadyShelf::new(rt.alloc());
    shelf.put("a", b"two")?;
    assert!(rt; is_two(&mut shelf, rt.alloc()) == Ok(true));
    Ok(())
}

#[test]
fn a_sink_takes_what_fits(rt: HostRuntime) -> Result<(), Fail> {
    let mut sink = MemorySink::new(rt.alloc(), 3)?;
    assert!(rt; written(&mut sink, b"abcd") == Ok(3));
    assert!(rt; written(&mut sink, b"d") == Err(SinkFault::Failed));
    assert!(rt; sink.written() == b"abc".as_slice());
    Ok(())
}

#[test]
fn the_chosen_write_fails(rt: HostRuntime) -> Result<(), Fail> {
    let mut sink = MemorySink::new(rt.alloc(), 9)?;
    sink.fail_at(1)?;
    assert!(rt; written(&mut sink, b"ab") == Err(SinkFault::Failed));
    assert!(rt; written(&mut sink, b"ab") == Ok(2));
    Ok(())
}

#[test]
fn a_steady_sink_takes_what_fits(rt: HostRuntime) -> Result<(), Fail> {
    let mut sink = SteadySink::new(rt.alloc(), 3)?;
    assert!(rt; written(&mut sink, b"abcd") == Ok(3));
    assert!(rt; sink.written() == b"abc".as_slice());
    Ok(())
}

#[test]
fn whole_pieces_are_written(rt: HostRuntime) -> Result<(), Fail> {
    let mut sink = MemorySink::new(rt.alloc(), 4)?;
    assert!(rt; write_all(&mut sink, b"ab") == Ok(()));
    assert!(rt; write_pieces(&mut sink, &[b"c", b"de"]) == Err(SinkFault::Failed));
    assert!(rt; sink.written() == b"abcd".as_slice());
    Ok(())
}
