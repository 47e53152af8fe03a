//! What a world answers, by clocks that don't advance or can't be read.

use ir_record::{World, WorldErr};
use ir_runs::EnvKind;
use ir_world::{ProgramWorld, Time};
use std::io;
use std::test::Fail;
use std::time::{Clock, Duration, Instant};

// Always reads the same, or can't be read.
#[derive(Clone, Copy)]
struct Still(Option<Duration>);

impl Clock for Still {
    fn monotonic(&self) -> io::Result<Duration> {
        match self.0 {
            Some(time) => Ok(time),
            None => Err(io::Error::from(io::ErrorKind::Unsupported)),
        }
    }

    fn since_1970(&self) -> io::Result<Duration> {
        self.monotonic()
    }
}

// The clock reads 5 seconds as the recording starts.
fn start() -> io::Result<Instant> {
    Instant::now(&Still(Some(Duration::from_millis(5_000))))
}

#[test]
fn whole_milliseconds_are_answered(rt: HostRuntime) -> Result<(), Fail> {
    let start = start()?;
    for (now, wanted) in [
        (Duration::from_millis(5_000), 0),
        (Duration::from_micros(5_001_999), 1),
        (Duration::from_millis(6_234), 1_234),
        // 2^32 milliseconds later, and 7.
        (Duration::from_millis(4_294_972_303), 7),
        // A clock that went back.
        (Duration::from_millis(4_000), 0),
    ] {
        let clock = Still(Some(now));
        let mut world = ProgramWorld::new(rt.alloc(), &clock, Time::Since(start), 0, &[])?;
        assert_eq!(rt; world.answer(EnvKind::Clock), Ok(wanted));
        assert_eq!(rt; world.answer(EnvKind::Input), Ok(u32::MAX));
        assert!(rt; !world.failed());
    }
    Ok(())
}

#[test]
fn without_its_clock_a_world_fails(rt: HostRuntime) -> Result<(), Fail> {
    let start = start()?;
    let clock = Still(None);
    let mut world = ProgramWorld::new(rt.alloc(), &clock, Time::Since(start), 0, b"A")?;
    assert_eq!(rt; world.answer(EnvKind::Input), Ok(65));
    assert_eq!(rt; world.answer(EnvKind::Clock), Err(WorldErr));
    assert!(rt; world.failed());
    Ok(())
}

#[test]
fn who_counts_reads_no_clock(rt: HostRuntime) -> Result<(), Fail> {
    let clock = Still(None);
    let mut world = ProgramWorld::new(rt.alloc(), &clock, Time::Counted, 0, &[])?;
    assert_eq!(rt; world.answer(EnvKind::Clock), Ok(0));
    assert_eq!(rt; world.answer(EnvKind::Clock), Ok(1));
    assert_eq!(rt; world.answer(EnvKind::Clock), Ok(2));
    Ok(())
}
