//! Sessions over fakes: each answer, and each device that fails in its turn.

ghost use Rattle.std.specs.Prelude.{◌≡◌, false};

use ir_debug::{DeviceErr, Sink, Source};
use ir_files::WholeSink;
use ir_object::{Given, OpenGate};
use ir_program::{ProgramErr, bundle, bundled};
use ir_stream::write_all;
use std::test::Fail;
use std::thread::Threads;
use std::time::Clock;

// Gives its bytes; the call of this number fails, and each after it.
#[derive(Drop)]
pub struct Bytes<'a> {
    pub left: &'a [u8],
    pub calls_left: u64,
    pub failed: bool,
}

impl Source for Bytes<'_> {
    ghost use Rattle.std.specs.Prelude.{Some};

    ghost left = { λ b. Some b.left.now };

    ghost broken = { λ b. b.failed };

    fn read(&mut self, buffer: &mut [u8]) -> Result<usize, DeviceErr> {
        if self.calls_left == 0 {
            self.failed = true;
            return Err(DeviceErr);
        }
        self.calls_left -= 1;
        let count = self.left.len().min(buffer.len());
        let (prefix, rest) = self.left.split_at(count);
        buffer[..count].copy_from_slice(prefix);
        self.left = rest;
        Ok(count)
    }

    fn failed(&self) -> bool {
        self.failed
    }
}

// Takes at most `most` bytes a call; after `calls_left` calls each fails.
#[derive(Drop)]
pub struct Page {
    pub bytes: Vec<u8>,
    most: usize,
    calls_left: u64,
    pub failed: bool,
    pub whole: bool,
}

impl Sink for Page {
    ghost use Rattle.std.specs.Prelude.{Some};

    ghost written = { λ p. Some p.bytes.items };

    ghost broken = { λ p. p.failed };

    fn write(&mut self, bytes: &[u8]) -> Result<usize, DeviceErr> {
        let count = bytes.len().min(self.most.max(1));
        if self.calls_left == 0 || self.bytes.extend_from_slice(&bytes[..count]).is_err() {
            self.failed = true;
            return Err(DeviceErr);
        }
        self.calls_left -= 1;
        Ok(count)
    }

    fn failed(&self) -> bool {
        self.failed
    }
}

// Putting the page in its place is a call too.
impl WholeSink for Page {
    ghost use Rattle.std.specs.Prelude.{ℕ, codes};

    ghost Home = { ℕ };

    ghost home = { λ _. 0 };

    ghost whole = { λ p. p.whole };

    ghost called = { λ _. codes "page" };

    ghost cause = { λ _. codes "its calls are used up" };

    fn put_whole(&mut self, bytes: &[u8]) -> Result<(), DeviceErr> {
        write_all(self, bytes)?;
        if self.calls_left == 0 {
            self.failed = true;
            return Err(DeviceErr);
        }
        self.calls_left -= 1;
        self.whole = true;
        Ok(())
    }

    fn name(&self) -> &str {
        "page"
    }

    fn why(&self) -> &str {
        "its calls are used up"
    }
}

const IMAGE: &[u8] = b"495249310100060000000000000000000100130580049308200073000000\
3305a5009308100073000000";

const TRACE: &[u8] = b"4952543101000000e8030000000000000600000000000000019000000000000000";

const COMMANDS: &[u8] = b"step 0 3\nregs 0\nstep 0 9\n";

const ANSWERS: &[u8] = b"ready\nat 3\npc 0001000c\n\
zero=00000000 ra=00000000 sp=00110000 gp=00000000\n\
tp=00000000 t0=00000000 t1=00000000 t2=00000000\n\
s0=00000000 s1=00000000 a0=00000048 a1=00000000\n\
a2=00000000 a3=00000000 a4=00000000 a5=00000000\n\
a6=00000000 a7=00000002 s2=00000000 s3=00000000\n\
s4=00000000 s5=00000000 s6=00000000 s7=00000000\n\
s8=00000000 s9=00000000 s10=00000000 s11=00000000\n\
t3=00000000 t4=00000000 t5=00000000 t6=00000000\n\
at 6 end\n";

pub const ENDLESS: u64 = 1_000_000;

pub fn empty_page(rt: &impl AllocGlobal, most: usize, calls_left: u64) -> Page
    ensures { result.failed ≡ false }
{
    Page {
        bytes: Vec::new(rt.alloc()),
        most,
        calls_left,
        failed: false,
        whole: false,
    }
}

fn lines_of(
    rt: &impl AllocGlobal,
    image: &[u8],
    trace: &[u8],
    commands: &[u8],
) -> Result<Vec<u8>, Fail> {
    let mut all = Vec::from_slice(rt.alloc(), image)?;
    all.push(b'\n')?;
    all.extend_from_slice(trace)?;
    all.push(b'\n')?;
    all.extend_from_slice(commands)?;
    Ok(all)
}

// What a bundle of these lines answers, the fault that it reports, and its exit status.
fn answered<R: AllocGlobal + Threads + Clock + Sync>(
    rt: &R,
    image: &[u8],
    trace: &[u8],
    commands: &[u8],
    most: usize,
) -> Result<(Page, Page, u8), Fail> {
    let all = lines_of(rt, image, trace, commands)?;
    let mut reader = Bytes {
        left: all.as_slice(),
        calls_left: ENDLESS,
        failed: false,
    };
    let mut writer = empty_page(rt, most, ENDLESS);
    let mut faults = empty_page(rt, most, ENDLESS);
    let status = bundle(
        &Given::new(rt, rt.alloc(), &OpenGate),
        &mut reader,
        &mut writer,
        &mut faults,
    );
    Ok((writer, faults, status.number()))
}

// Each row: a trace line, commands, the answers, and the exit status.
const ROWS: [(&[u8], &[u8], &[u8], u8); 4] = [
    (TRACE, COMMANDS, ANSWERS, 0),
    (
        b"4952543101000000e8030000000000000700000000000000019000000000000000",
        b"step 0 1\n",
        b"thread 0 disagrees event 0 step 5\n",
        4,
    ),
    (
        TRACE,
        b"regs 1\n \t\nfoo\nstep 0\nstep 0 0x2\r\nquit\nstep 0 1\n",
        b"ready\nrefused 3 no such thread\nrefused 1 unknown command\nrefused 2 bad argument\nat 2\nbye\n",
        0,
    ),
    (
        b"4952543101000000e80300000000000006000000000000000190000000000000",
        b"",
        b"trace refused 1\n",
        3,
    ),
];

#[test]
fn rows(rt: HostRuntime) -> Result<(), Fail> {
    for &(trace, commands, answers, code) in &ROWS {
        for most in [1, 100] {
            let (writer, faults, status) = answered(&rt, IMAGE, trace, commands, most)?;
            assert_eq!(rt; writer.bytes.as_slice(), answers);
            assert!(rt; faults.bytes.is_empty());
            assert_eq!(rt; status, code);
        }
    }
    Ok(())
}

// Both lines as they are, the answers, and the exit status: capitals and a carriage return are taken, what isn't
// there is empty, and what is no digit is reported.
const DIGITS: [(&[u8], &[u8], u8); 9] = [
    (b"49524931010\n4952543101\n", b"", 1),
    (b"4g\n4952543101\n", b"", 1),
    (b" 49524931 \n4952543101\n", b"", 1),
    (b"49524931\nzz\n", b"", 1),
    (b"", b"image refused 1\n", 3),
    (b"\n4952543101\n", b"image refused 1\n", 3),
    (b"49524931010006\r\n", b"image refused 1\n", 3),
    (
        b"495249310100060000000000000000000100130580049308200073000000\
3305A5009308100073000000",
        b"trace refused 1\n",
        3,
    ),
    (
        b"495249310100060000000000000000000100130580049308200073000000\
3305A5009308100073000000\r\n\
4952543101000000E8030000000000000600000000000000019000000000000000\r\nstep 0 6\r\nstep 0 0\r",
        b"ready\nat 6 end\nat 6 end\n",
        0,
    ),
];

#[test]
fn lines_of_digits(rt: HostRuntime) {
    for &(input, answers, wanted) in &DIGITS {
        let mut reader = Bytes {
            left: input,
            calls_left: ENDLESS,
            failed: false,
        };
        let mut writer = empty_page(&rt, 100, ENDLESS);
        let mut faults = empty_page(&rt, 100, ENDLESS);
        let status = bundle(
            &Given::new(&rt, rt.alloc(), &OpenGate),
            &mut reader,
            &mut writer,
            &mut faults,
        );
        assert_eq!(rt; writer.bytes.as_slice(), answers);
        assert_eq!(rt; status.number(), wanted);
        let is_told = faults.bytes.as_slice().starts_with(b"ir: a line of the");
        assert_eq!(rt; is_told, wanted == 1);
    }
}

// After the failed read of this number, what was written is all answers to the lines that were read whole.
#[test]
fn each_read_fails(rt: HostRuntime) -> Result<(), Fail> {
    let all = lines_of(&rt, IMAGE, TRACE, COMMANDS)?;
    for calls_left in 0..all.len() as u64 + 1 {
        let mut reader = Bytes {
            left: all.as_slice(),
            calls_left,
            failed: false,
        };
        let mut writer = empty_page(&rt, 100, ENDLESS);
        let ended = bundled(
            &Given::new(&rt, rt.alloc(), &OpenGate),
            &mut reader,
            &mut writer,
        );
        assert!(rt; matches!(ended, Err(ProgramErr::Read)));
        assert!(rt; ANSWERS.starts_with(writer.bytes.as_slice()));
    }
    Ok(())
}

#[test]
fn each_write_fails(rt: HostRuntime) -> Result<(), Fail> {
    let all = lines_of(&rt, IMAGE, TRACE, COMMANDS)?;
    for calls_left in 0..ANSWERS.len() as u64 {
        let mut reader = Bytes {
            left: all.as_slice(),
            calls_left: ENDLESS,
            failed: false,
        };
        let mut writer = empty_page(&rt, 1, calls_left);
        let ended = bundled(
            &Given::new(&rt, rt.alloc(), &OpenGate),
            &mut reader,
            &mut writer,
        );
        assert!(rt; matches!(ended, Err(ProgramErr::Write)));
        assert_eq!(rt; writer.bytes.len() as u64, calls_left);
        assert!(rt; ANSWERS.starts_with(writer.bytes.as_slice()));
    }
    Ok(())
}
