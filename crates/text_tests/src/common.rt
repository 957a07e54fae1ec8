use script_names::{Bytes, Common, Memory};
use std::alloc::Global;
use std::test::Fail;

fn is(text: &Common<Bytes>, bytes: &[u8]) -> bool {
    text.get().as_slice() == bytes
}

// A fork of `ab` whose other owner is gone.
fn fork_alone(alloc: Global) -> Result<Common<Bytes>, Memory> {
    let first = Common::new(alloc, Bytes::from_slice(alloc, b"ab")?)?;
    first.fork()
}

#[test]
fn a_fork_outlives_what_it_was_taken_of(rt: HostRuntime) -> Result<(), Fail> {
    let fork = fork_alone(rt.alloc())?;
    assert!(rt; is(&fork, b"ab"));
    Ok(())
}
