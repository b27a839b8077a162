use sfc_desk::{Desk, MemoryDesk, Port};
use std::test::Fail;
use wire_base::List;

#[test]
fn a_failed_read_in_mid_stream_loses_no_byte(rt: HostRuntime) -> Result<(), Fail> {
    // calls are counted from 0: the bind, two reads, the read that fails, and the reads after it
    let mut fail = List::new(rt.alloc());
    fail.push(3)?;
    let mut desk = MemoryDesk::new(rt.alloc(), 2, fail, 0)?;
    desk.add_file("in", b"abcde")?;
    desk.bind(Port::Capture, "in")?;
    let mut into = [0u8; 4];
    assert_eq!(rt; desk.read(Port::Capture, &mut into)?, 2);
    assert_eq!(rt; desk.read(Port::Capture, &mut into[..1])?, 1);
    assert_eq!(rt; into, [b'c', b'b', 0, 0]);
    assert!(rt; desk.read(Port::Capture, &mut into).is_err());
    assert_eq!(rt; desk.read(Port::Capture, &mut into)?, 2);
    assert_eq!(rt; into, [b'd', b'e', 0, 0]);
    assert_eq!(rt; desk.read(Port::Capture, &mut into)?, 0);
    Ok(())
}

#[test]
fn a_write_past_the_room_takes_nothing(rt: HostRuntime) -> Result<(), Fail> {
    let mut desk = MemoryDesk::new(rt.alloc(), 1, List::new(rt.alloc()), 3)?;
    desk.bind(Port::Egress, "out")?;
    assert_eq!(rt; desk.write(Port::Egress, b"ab")?, 2);
    assert!(rt; desk.write(Port::Egress, b"cd").is_err());
    assert_eq!(rt; desk.write(Port::Egress, b"c")?, 1);
    assert_eq!(rt; desk.write(Port::Report, b"xyz")?, 3);
    assert_eq!(rt; desk.output(Port::Egress), b"abc".as_slice());
    assert_eq!(rt; desk.output(Port::Report), b"xyz".as_slice());
    Ok(())
}

#[test]
fn an_absent_input_is_no_fault_and_is_tried_first(rt: HostRuntime) -> Result<(), Fail> {
    let mut fail = List::new(rt.alloc());
    fail.push(0)?;
    fail.push(1)?;
    let mut desk = MemoryDesk::new(rt.alloc(), 1, fail, 1)?;
    desk.add_file("in", b"")?;
    assert!(rt; desk.bind(Port::Setup, "out").is_err());
    assert!(rt; desk.bind(Port::Setup, "in").is_err());
    desk.bind(Port::Setup, "in")?;
    assert_eq!(rt; desk.read(Port::Setup, &mut [0u8; 1])?, 0);
    Ok(())
}
