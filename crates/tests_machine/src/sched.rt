//! The scheduler by itself: a wait for a word that holds another value, one for what it holds, and a wake twice.

use ct_sched::Sched;
use def_refusals::NoMemory;
use def_sched::Status;

const WORD: u32 = 0x8000_0050;

#[test]
fn waits_and_wakes(rt: HostRuntime) -> Result<(), NoMemory> {
    let mut sched = Sched::new(rt.alloc(), &[1])?;
    assert!(rt; !sched.wait(0, WORD, 5, 6));
    assert!(rt; sched.status(0) == Status::Ready);
    assert!(rt; sched.wait(0, WORD, 5, 5));
    assert!(rt; sched.status(0) == Status::Waiting(WORD));
    assert!(rt; sched.wake(WORD, 1) == 1);
    assert!(rt; sched.status(0) == Status::Ready);
    assert!(rt; sched.wake(WORD, 1) == 0);
    assert!(rt; sched.status(0) == Status::Ready);
    Ok(())
}
