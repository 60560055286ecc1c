//! A sink in memory that fails.
#![tactic(auto)]

use dc_fs::{Sink, SinkFault};
use dc_memfs::MemSink;
use std::test::Fail;

#[test]
fn a_sink_keeps_what_it_took_before_it_failed(rt: HostRuntime) -> Result<(), Fail> {
    let mut sink = MemSink::new(rt.alloc(), Some(2))?;
    assert_eq!(rt; sink.write(b"a"), Ok(()));
    assert_eq!(rt; sink.write(b"b"), Err(SinkFault));
    assert_eq!(rt; sink.bytes(), b"a".as_slice());
    Ok(())
}
