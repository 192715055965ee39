// Both kinds, filled and emptied.
use crate::{Counter, Guard, Pointers};
use records::Fault;
use std::process::Abort;
use std::test::Fail;

// The number of the refusal, or 0.
fn number(answer: Result<(), Fault>) -> u8 {
    answer.err().map_or(0, |fault| fault.refusal.number())
}

fn fill_and_empty<G: Guard>(rt: &impl Abort) -> Result<(), Fail> {
    let mut guard = G::fresh(0, 1).ok().ok_or("refused")?;
    assert_eq!(rt; number(guard.send()), 0);
    assert_eq!(rt; number(guard.send()), 23);
    assert_eq!(rt; number(guard.take()), 0);
    assert_eq!(rt; number(guard.take()), 22);
    Ok(())
}

#[test]
fn pointers(rt: HostRuntime) -> Result<(), Fail> {
    fill_and_empty::<Pointers>(&rt)
}

#[test]
fn counter(rt: HostRuntime) -> Result<(), Fail> {
    fill_and_empty::<Counter>(&rt)
}
