//! Lines go to a sink as one piece each.

use crate::WriteFault;
use crate::pieces::put_with_end;
use mb_io::MemSink;
use std::test::Fail;

#[test]
fn a_line_is_one_piece(rt: HostRuntime) -> Result<(), Fail> {
    let alloc = rt.alloc();
    let mut failing = Vec::new(alloc);
    failing.push(2)?;
    let mut sink = MemSink::new(alloc, 100, failing)?;
    put_with_end(Vec::from_slice(alloc, b"seal")?, &mut sink)?;
    let second = put_with_end(Vec::from_slice(alloc, b"done")?, &mut sink);
    assert!(rt; second == Err(WriteFault::Failed));
    assert_eq!(rt; sink.taken(), b"seal\n".as_slice());
    Ok(())
}
