//! The presentation of a seed, and how its session begins and ends.

use crate::large;
use std::test::Fail;

#[test]
fn texts_of_seed_zero(rt: HostRuntime) -> Result<(), Fail> {
    let (presentation, session) = large(rt.alloc(), 0)?;
    assert!(rt; presentation.as_slice() == b"<a, b, c | [a,b]^13, [a,c]^2, [b,c]^3>\n".as_slice());
    assert!(rt; session.starts_with(b"trivial [b^12,"));
    assert!(rt; session.ends_with(b"\n"));
    Ok(())
}
