use std::test::Fail;
use wire_base::{
    Bytes, CodeTable, Fixed, FrontBuffer, InstanceId, List, NextHop, RoomBuffer, Spi,
    attribute_kinds, be_u16, be_u24, be_u32, be_u64, function_words, next_protocols, put_u16,
    put_u24, put_u32, put_u64,
};

#[test]
fn numbers_are_read_highest_byte_first(rt: HostRuntime) {
    let bytes = [0x01, 0x02, 0x03, 0x04, 0x05, 0x06, 0x07, 0x08, 0x09];
    assert_eq!(rt; be_u16(&bytes), 258);
    assert_eq!(rt; be_u24(&bytes), 66_051);
    assert_eq!(rt; be_u32(&bytes), 16_909_060);
    assert_eq!(rt; be_u64(&bytes), 72_623_859_790_382_856);
}

#[test]
fn numbers_are_written_in_place(rt: HostRuntime) {
    let mut bytes = [0xAA; 10];
    put_u16(&mut bytes, 0x0102);
    put_u24(&mut bytes[2..], 0x00_002A);
    put_u32(&mut bytes[5..], 0xFFFF_0001);
    assert_eq!(rt;
        bytes,
        [0x01, 0x02, 0x00, 0x00, 0x2A, 0xFF, 0xFF, 0x00, 0x01, 0xAA]
    );
    put_u64(&mut bytes, 1);
    assert_eq!(rt; bytes, [0, 0, 0, 0, 0, 0, 0, 1, 0x01, 0xAA]);
}

#[test]
fn fixed_bytes_have_their_length(rt: HostRuntime) -> Result<(), Fail> {
    assert!(rt; Fixed::<4>::of(&[1, 2, 3]).is_none());
    let fixed = Fixed::<4>::of(&[1, 2, 3, 4]).ok_or("four bytes")?;
    assert_eq!(rt; fixed.bytes(), [1, 2, 3, 4].as_slice());
    assert!(rt; NextHop::Four(fixed) == NextHop::Four(fixed));
    Ok(())
}

#[test]
fn a_path_number_has_24_bits(rt: HostRuntime) -> Result<(), Fail> {
    let spi = Spi::of(16_777_215).ok_or("the last one")?;
    assert_eq!(rt; spi.number(), 16_777_215);
    assert!(rt; Spi::of(16_777_216).is_none());
    Ok(())
}

#[test]
fn bytes_grow_and_are_cut_in_front(rt: HostRuntime) -> Result<(), Fail> {
    let mut bytes = Bytes::new(rt.alloc());
    bytes.push_all(&[1, 2, 3])?;
    bytes.push_all(&[4])?;
    bytes.cut_front(2);
    assert_eq!(rt; bytes.as_slice(), [3, 4].as_slice());
    Ok(())
}

#[test]
fn a_list_grows_and_gives_its_last_back(rt: HostRuntime) -> Result<(), Fail> {
    let mut ids = List::new(rt.alloc());
    ids.push(InstanceId(7))?;
    ids.push(InstanceId(9))?;
    ids.as_mut_slice()[0] = InstanceId(8);
    assert_eq!(rt; ids.as_slice(), [InstanceId(8), InstanceId(9)].as_slice());
    assert_eq!(rt; ids.pop(), Some(InstanceId(9)));
    assert_eq!(rt; ids.pop(), Some(InstanceId(8)));
    assert_eq!(rt; ids.pop(), None);
    Ok(())
}

#[test]
fn numbers_are_appended_highest_byte_first(rt: HostRuntime) -> Result<(), Fail> {
    let mut bytes = Bytes::new(rt.alloc());
    bytes.reserve(17)?;
    bytes.push_u16(0x0102)?;
    bytes.push_u24(0x03_0405)?;
    bytes.push_u32(0x0607_0809)?;
    bytes.push_u64(0x0A0B_0C0D_0E0F_1011)?;
    assert_eq!(rt;
        bytes.as_slice(),
        [1, 2, 3, 4, 5, 6, 7, 8, 9, 10, 11, 12, 13, 14, 15, 16, 17].as_slice()
    );
    Ok(())
}

#[test]
fn a_copy_is_the_same_until_one_is_written(rt: HostRuntime) -> Result<(), Fail> {
    let mut bytes = Bytes::copy_of(rt.alloc(), &[1, 2])?;
    let copy = bytes.copy(rt.alloc())?;
    assert!(rt; copy.same(&bytes));
    bytes.as_mut_slice()[1] = 3;
    assert!(rt; !copy.same(&bytes));
    Ok(())
}

#[test]
fn a_front_buffer_takes_in_what_was_read(rt: HostRuntime) -> Result<(), Fail> {
    let mut buffer = FrontBuffer::new(rt.alloc());
    buffer.make_room(4)?;
    buffer.room()[..3].copy_from_slice(&[1, 2, 3]);
    buffer.filled(3);
    buffer.pass(1);
    assert_eq!(rt; buffer.passed(), [1].as_slice());
    buffer.push_all(&[4])?;
    assert_eq!(rt; buffer.rest(), [2, 3, 4].as_slice());
    Ok(())
}

#[test]
fn a_room_buffer_holds_as_much_as_its_room(rt: HostRuntime) -> Result<(), Fail> {
    let mut buffer = RoomBuffer::with_room(rt.alloc(), 3)?;
    assert!(rt; buffer.fill(&[1, 2, 3]).is_ok());
    assert!(rt; buffer.push_all(&[4]).is_err());
    buffer.cut_front(1);
    assert_eq!(rt; buffer.as_slice(), [2, 3].as_slice());
    Ok(())
}

/// A table with the rows (1, a) and (2, b).
fn small_table() -> CodeTable<2> {
    let mut table = CodeTable::new();
    table.add(1, "a");
    table.add(2, "b");
    table
}

#[test]
fn a_table_takes_rising_codes_and_new_names(rt: HostRuntime) {
    let mut table = CodeTable::<2>::new();
    assert!(rt; table.add(1, "a"));
    assert!(rt; !table.add(1, "b"));
    assert!(rt; !table.add(2, "a"));
    assert!(rt; table.add(2, "b"));
}

#[test]
fn a_full_table_takes_no_row(rt: HostRuntime) {
    let mut table = small_table();
    assert_eq!(rt; table.name_of(2), Some("b"));
    assert_eq!(rt; table.code_of("c"), None);
    assert!(rt; !table.add(3, "c"));
}

#[test]
fn codes_on_the_wire_have_their_names(rt: HostRuntime) {
    assert_eq!(rt; next_protocols().name_of(4), Some("nsh"));
    assert_eq!(rt; next_protocols().code_of("experiment-2"), Some(255));
    assert_eq!(rt; attribute_kinds().name_of(37), Some("sfp"));
    assert_eq!(rt; attribute_kinds().name_of(9), None);
    assert_eq!(rt; function_words().code_of("clear-meta"), Some(9));
}
