use super::*;
use std::test::Fail;

/// The identifier with these two leading digits, and zeros behind them.
fn at(leading: u8) -> Id {
    Id((leading as u128) << 120)
}

#[test]
fn distances_and_digits(rt: HostRuntime) {
    assert_eq!(rt; cw(at(0x30), at(0x10)), 0xe0 << 120);
    assert_eq!(rt; dist(at(0x30), at(0x10)), 0x20 << 120);
    assert_eq!(rt; dist(at(0x00), at(0x80)), 1 << 127);
    assert!(rt; between(at(0x30), at(0x10), at(0x20)));
    assert!(rt; between(at(0x30), at(0x10), at(0x30)));
    assert_eq!(rt; digit(at(0x30), 0), 3);
    assert_eq!(rt; digit(Id(7), 31), 7);
    assert_eq!(rt; shared(at(0x10), at(0x1f)), 1);
    assert_eq!(rt; shared(at(0x10), at(0x10)), 32);
}

/// Of two nodes at one distance from a key, the one counterclockwise of it is nearer.
#[test]
fn ties(rt: HostRuntime) {
    assert!(rt; nearer(at(0x10), at(0x30), at(0x20)));
    assert!(rt; !nearer(at(0x30), at(0x10), at(0x20)));
    assert!(rt; nearer(at(0x30), at(0x10), Id((0x20 << 120) + 1)));
}

/// The messages of FIPS 180-4's examples, by the first 16 bytes of their digests.
#[test]
fn names(rt: HostRuntime) {
    assert_eq!(rt; id_of_name(b"abc"), Id(0xa9993e364706816aba3e25717850c26c));
    assert_eq!(rt; id_of_name(b""), Id(0xda39a3ee5e6b4b0d3255bfef95601890));
    let long = b"abcdbcdecdefdefgefghfghighijhijkijkljklmklmnlmnomnopnopq";
    assert_eq!(rt; id_of_name(long), Id(0x84983e441c3bd26ebaae4aa1f95129e5));
}

/// The digest is that of another program, `sha1sum`.
#[test]
fn files(rt: HostRuntime) {
    let file = file_id(b"photo.jpg", b"alice", &[1, 2, 3, 4, 5, 6, 7, 8]);
    let digest = [
        0x81, 0xba, 0xc9, 0x0b, 0x95, 0x08, 0x66, 0x09, 0x38, 0xf3, 0x81, 0xd5, 0xe3, 0xe4, 0x03,
        0x9f, 0xa5, 0x5e, 0xe8, 0x1f,
    ];
    assert_eq!(rt; file, FileId(digest));
    assert_eq!(rt; key_of(&file), Id(0x81bac90b9508660938f381d5e3e4039f));
}

#[test]
fn texts(rt: HostRuntime) {
    let text = id_to_hex(Id(0x00ff10));
    assert_eq!(rt; text, *b"0000000000000000000000000000ff10");
    assert_eq!(rt; id_from_hex(&text), Ok(Id(0x00ff10)));
    assert_eq!(rt;
        id_from_hex(b"0000000000000000000000000000Ff1A"),
        Ok(Id(0x00ff1a))
    );
    assert_eq!(rt; id_from_hex(b"00ff10"), Err(IdFault::Length { found: 6 }));
    let two_faults = id_from_hex(b"000g000000000000000000000000000-");
    assert_eq!(rt; two_faults, Err(IdFault::Digit { place: 3 }));
}

#[test]
fn ids_are_at_most_so_many(rt: HostRuntime) -> Result<(), Fail> {
    let mut ids = IdsBuilder::new();
    for i in 0..17u8 {
        assert!(rt; ids.push(at(i)));
    }
    assert!(rt; !ids.push(at(17)));
    assert_eq!(rt; ids.as_slice().len(), 17);
    let ids = ids.finish(rt.alloc())?;
    assert_eq!(rt; ids.as_slice().get(16).copied(), Some(at(16)));
    Ok(())
}

#[test]
fn a_copy_outlives_its_source(rt: HostRuntime) -> Result<(), Fail> {
    let mut ids = IdsBuilder::new();
    assert!(rt; ids.push(at(1)));
    let ids = ids.finish(rt.alloc())?;
    let copy = ids.copy(rt.alloc())?;
    drop(ids);
    assert_eq!(rt; copy.as_slice(), [at(1)].as_slice());

    let one = FileIds::copy_of(rt.alloc(), &[FileId([1; 20])])?;
    let copy = one.copy(rt.alloc())?;
    drop(one);
    assert_eq!(rt; copy.as_slice(), [FileId([1; 20])].as_slice());
    let none = FileIds::of(Vec::new(rt.alloc()))?;
    assert_eq!(rt; none.copy(rt.alloc())?.as_slice().len(), 0);
    Ok(())
}

fn is_shared<T: Send + Sync>(_value: &T) {}

#[test]
fn threads_share_lists(rt: HostRuntime) -> Result<(), Fail> {
    is_shared(&Bytes::copy_of(rt.alloc(), b"shared")?);
    is_shared(&IdsBuilder::new().finish(rt.alloc())?);
    is_shared(&FileIds::of(Vec::new(rt.alloc()))?);
    Ok(())
}

#[test]
fn bytes_are_at_most_4096(rt: HostRuntime) -> Result<(), Fail> {
    let bytes = Bytes::copy_of(rt.alloc(), &[7; 4096])
        .ok()
        .expect(&rt, "4,096 bytes fit");
    let copy = bytes.copy(rt.alloc())?;
    assert_eq!(rt; copy.as_slice().len(), 4096);
    let too_long = Bytes::copy_of(rt.alloc(), &[7; 4097]).err();
    assert_eq!(rt; too_long, Some(BytesFault::TooLong { found: 4097 }));
    Ok(())
}
