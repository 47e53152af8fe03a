use super::*;
use std::alloc::Global;
use std::test::Fail;

// A mark for what was found.
fn mark(found: Found) -> u8 {
    match found {
        Found::Packet => b'p',
        Found::BadSum => b'b',
        Found::TooLong => b'l',
        Found::Interrupt => b'i',
        Found::Acknowledged => b'+',
        Found::Refused => b'-',
    }
}

// The marks of what a reader finds in a stream, and each payload after its mark.
fn found_in(alloc: Global, stream: &[u8]) -> Result<Vec<u8>, Fail> {
    let mut reader = Reader::new(alloc)?;
    let mut marks = Vec::new(alloc);
    for byte in stream {
        if let Some(found) = reader.take(*byte) {
            marks.push(mark(found))?;
            if found == Found::Packet {
                marks.extend_from_slice(reader.payload())?;
            }
        }
    }
    Ok(marks)
}

#[test]
fn streams(rt: HostRuntime) -> Result<(), Fail> {
    let cases: [(&[u8], &[u8]); 15] = [
        (b"", b""),
        (b"$#00", b"p"),
        (b"+$g#67", b"+pg"),
        (b"$g#67$?#3f", b"pgp?"),
        (b"$g#68", b"b"),
        (b"$g#6x", b"b"),
        (b"$m4,}\x03#4d", b"pm4,#"),
        (b"$J#4a$j#6A", b"pJpj"),
        (b"\x03junk-+", b"i-+"),
        (b"$a\x03+#8f", b"pa\x03+"),
        (b"$m10$g#67", b"pg"),
        (b"$g#6", b""),
        (b"$g", b""),
        (b"$}#7d", b"p"),
        (b"$g#67$g#67+", b"pgpg+"),
    ];
    for (stream, want) in cases {
        assert_eq!(rt; found_in(rt.alloc(), stream)?.as_slice(), want);
    }
    Ok(())
}

// A payload of at most 6,000 bytes as a packet.
fn packet(alloc: Global, payload: &[u8]) -> Result<Vec<u8>, Fail> {
    let payload = &payload[..payload.len().min(6000)];
    let mut out = Vec::with_capacity(alloc, 2 * payload.len() + 4)?;
    put_packet(&mut out, payload);
    Ok(out)
}

#[test]
fn the_longest_packet_is_read(rt: HostRuntime) -> Result<(), Fail> {
    let payload = [b'a'; 5000];
    let found = found_in(rt.alloc(), &packet(rt.alloc(), &payload[..4096])?)?;
    assert_eq!(rt; found.len(), 4097);
    assert_eq!(rt; found.first().copied(), Some(b'p'));
    for size in [4097, 5000] {
        let mut stream = packet(rt.alloc(), &payload[..size])?;
        stream.extend_from_slice(b"$g#67")?;
        assert_eq!(rt;
            found_in(rt.alloc(), &stream)?.as_slice(),
            b"lpg".as_slice()
        );
    }
    Ok(())
}

#[test]
fn each_byte_is_read_back(rt: HostRuntime) -> Result<(), Fail> {
    for byte in 0..=255u8 {
        let out = packet(rt.alloc(), &[byte])?;
        assert_eq!(rt;
            found_in(rt.alloc(), &out)?.as_slice(),
            [b'p', byte].as_slice()
        );
    }
    Ok(())
}

#[test]
fn replies_are_written(rt: HostRuntime) -> Result<(), Fail> {
    let mut payload = Vec::with_capacity(rt.alloc(), 16)?;
    put_word(&mut payload, 0x0001_8cfe);
    put_hex(&mut payload, &[0x09, 0xa0]);
    assert_eq!(rt; payload.as_slice(), b"fe8c010009a0".as_slice());
    let mut out = Vec::with_capacity(rt.alloc(), 100)?;
    put_packet(&mut out, b"OK");
    put_packet(&mut out, b"");
    assert_eq!(rt; out.as_slice(), b"$OK#9a$#00".as_slice());
    Ok(())
}

// The first of these payloads that asks something else than what is beside it.
fn first_wrong(cases: &[(&[u8], Request)]) -> Option<usize> {
    for i in 0..cases.len() {
        let (payload, want) = cases[i];
        if request_of(payload) != want {
            return Some(i);
        }
    }
    None
}

#[test]
fn packets_about_the_target_are_read(rt: HostRuntime) -> Result<(), Fail> {
    let cases: [(&[u8], Request); 23] = [
        (b"qSupported:multiprocess+;swbreak+", Request::Supported),
        (b"QStartNoAckMode", Request::NoAcknowledgements),
        (b"?", Request::Reason),
        (b"Hg0", Request::General(Who::Any)),
        (b"Hg-1", Request::General(Who::Any)),
        (b"Hg2", Request::General(Who::Thread(2))),
        (b"Hgx", Request::Malformed),
        (b"Hc1f", Request::Choose(Who::Thread(31))),
        (b"Hc", Request::Malformed),
        (b"T3", Request::Alive(3)),
        (b"T", Request::Malformed),
        (
            b"qXfer:features:read:target.xml:0,fff",
            Request::Description(0, 4095),
        ),
        (b"qXfer:threads:read::7D,10", Request::Threads(125, 16)),
        (b"qXfer:threads:read::7D", Request::Malformed),
        (b"qXfer:memory-map:read::0,fff", Request::Unknown),
        (b"qAttached", Request::Attached),
        (b"qOffsets", Request::Offsets),
        (b"qSymbol::", Request::Symbols),
        (b"vCont?", Request::Motions),
        (b"D", Request::Detach),
        (b"k", Request::Kill),
        (b"", Request::Unknown),
        (b"vMustReplyEmpty", Request::Unknown),
    ];
    assert_eq!(rt; first_wrong(&cases), None);
    Ok(())
}

#[test]
fn packets_about_registers_memory_and_points_are_read(rt: HostRuntime) -> Result<(), Fail> {
    let cases: [(&[u8], Request); 20] = [
        (b"g", Request::Registers),
        (b"g1", Request::Malformed),
        (b"p20", Request::Register(32)),
        (b"p21", Request::Malformed),
        (b"m100000,4", Request::Memory(0x10_0000, 4)),
        (b"mFFFFffff,1", Request::Memory(u32::MAX, 1)),
        (b"m100000000,1", Request::Malformed),
        (b"m100000", Request::Malformed),
        (b"m,4", Request::Malformed),
        (b"M100000,1:00", Request::Change),
        (b"P1=00000000", Request::Change),
        (b"G00", Request::Change),
        (b"X100000,0:", Request::Unknown),
        (b"Z0,10010,4", Request::SetBreak(0x10010, false)),
        (b"Z1,10010,4", Request::SetBreak(0x10010, true)),
        (b"z1,10010,4", Request::ClearBreak(0x10010, true)),
        (b"Z2,100008,2", Request::SetWatch(0x10_0008, 2)),
        (b"z2,100008,2", Request::ClearWatch(0x10_0008, 2)),
        (b"Z3,100008,2", Request::Unknown),
        (b"Z0,10010", Request::Malformed),
    ];
    assert_eq!(rt; first_wrong(&cases), None);
    Ok(())
}

#[test]
fn conditions_are_read(rt: HostRuntime) -> Result<(), Fail> {
    let cases: [(&[u8], Request); 13] = [
        (b"Z0,10010,4;X3,220127", Request::SetBreakIf(0x10010, false)),
        (b"Z1,10010,4;X3,220127", Request::SetBreakIf(0x10010, true)),
        (
            b"Z0,10010,4;X3,220127X1,27",
            Request::SetBreakIf(0x10010, false),
        ),
        (
            b"Z0,10010,4;X3,220127;X1,27",
            Request::SetBreakIf(0x10010, false),
        ),
        (b"Z0,10010,4;", Request::SetBreakIf(0x10010, false)),
        (b"Z0,10010,4;X0,", Request::SetBreakIf(0x10010, false)),
        (b"Z0,10010;X3,220127", Request::Malformed),
        (b"Z0,10010,4;X3,2201", Request::Malformed),
        (b"Z0,10010,4;X3,22012x", Request::Malformed),
        (b"Z0,10010,4;X3,22012700", Request::Malformed),
        (b"Z0,10010,4;X,220127", Request::Malformed),
        (b"Z0,10010,4;Xffffffff,220127", Request::Malformed),
        (b"Z0,10010,4;cmds:0,X3,220127", Request::Malformed),
    ];
    assert_eq!(rt; first_wrong(&cases), None);
    let conditions = break_conditions(rt.alloc(), b"Z0,10010,4;X3,220127Xa,26000a1620226413270e")?;
    assert_eq!(rt; conditions.len(), 2);
    assert_eq!(rt; conditions[0].code(), b"\x22\x01\x27".as_slice());
    assert_eq!(rt;
        conditions[1].code(),
        b"\x26\x00\x0a\x16\x20\x22\x64\x13\x27\x0e".as_slice()
    );
    assert_eq!(rt; break_conditions(rt.alloc(), b"Z0,10010,4")?.len(), 0);
    assert_eq!(rt; break_conditions(rt.alloc(), b"Z0,10010,4;X9,22")?.len(), 0);
    Ok(())
}

#[test]
fn moves_are_read(rt: HostRuntime) -> Result<(), Fail> {
    let cases: [(&[u8], Request); 11] = [
        (b"vCont;s:1", Request::Move(Motion::Step, Mover::Alone(1))),
        (b"vCont;s:1;c", Request::Move(Motion::Step, Mover::Among(1))),
        (
            b"vCont;s:1;C0b:2;c",
            Request::Move(Motion::Step, Mover::Among(1)),
        ),
        (b"vCont;s:1;C0b:2", Request::Malformed),
        (
            b"vCont;C05:2;c",
            Request::Move(Motion::Continue, Mover::Among(2)),
        ),
        (b"vCont;c", Request::Move(Motion::Continue, Mover::Any)),
        (b"vCont;c:-1", Request::Move(Motion::Continue, Mover::Any)),
        (
            b"vCont;r10000,10008:1",
            Request::Move(Motion::Range(0x1_0000, 0x1_0008), Mover::Alone(1)),
        ),
        (b"vCont;t:1", Request::Malformed),
        (b"bc", Request::Move(Motion::ContinueBack, Mover::Chosen)),
        (b"s", Request::Move(Motion::Step, Mover::Chosen)),
    ];
    assert_eq!(rt; first_wrong(&cases), None);
    Ok(())
}

#[test]
fn restarts_are_read(rt: HostRuntime) -> Result<(), Fail> {
    let cases: [(&[u8], Request); 8] = [
        (b"!", Request::Extended),
        (b"!x", Request::Malformed),
        (b"vRun;", Request::Restart),
        (b"vRun;612e656c66", Request::Restart),
        (b"vRun;612e656c66;313034", Request::RestartAt(104)),
        (b"vRun;;", Request::Malformed),
        (b"vRun;;2d31", Request::Malformed),
        (b"vKill;1", Request::EndProcess),
    ];
    assert_eq!(rt; first_wrong(&cases), None);
    Ok(())
}

#[test]
fn a_line_is_read(rt: HostRuntime) -> Result<(), Fail> {
    let mut line = Vec::with_capacity(rt.alloc(), 64)?;
    assert_eq!(rt; request_of(b"qRcmd,706f73"), Request::Console);
    assert_eq!(rt; request_of(b"qRcmd,706f7"), Request::Malformed);
    assert_eq!(rt; request_of(b"qRcmd,7x"), Request::Malformed);
    put_line(&mut line, b"qRcmd,706f73");
    assert_eq!(rt; line.as_slice(), b"pos".as_slice());
    Ok(())
}

#[test]
fn stops_are_written(rt: HostRuntime) -> Result<(), Fail> {
    let mut out = Vec::with_capacity(rt.alloc(), 200)?;
    let stop = Stop {
        interrupted: false,
        thread: 2,
        reason: Reason::Watch(0x10_0008),
        pc: 0x1_0010,
        sp: 0x10_fff0,
        fp: 0,
        ra: 0x1_0004,
    };
    put_stop(&mut out, &stop);
    assert_eq!(rt;
        out.as_slice(),
        b"T05thread:00000002;watch:00100008;20:10000100;02:f0ff1000;08:00000000;01:04000100;".as_slice()
    );
    Ok(())
}

#[test]
fn pieces_are_written(rt: HostRuntime) -> Result<(), Fail> {
    let cases: [(u32, u32, &[u8]); 5] = [
        (0, 3, b"mabc"),
        (3, 2, b"mde"),
        (3, 3, b"ldef"),
        (6, 9, b"l"),
        (u32::MAX, u32::MAX, b"l"),
    ];
    for (from, most, want) in cases {
        let mut out = Vec::with_capacity(rt.alloc(), 16)?;
        put_piece(&mut out, b"abcdef", from, most);
        assert_eq!(rt; out.as_slice(), want);
    }
    Ok(())
}
