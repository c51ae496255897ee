// A key and a value of each kind there and back, and what is refused.
use crate::{Fingerprint, Key, KindFault, Number, Sealed, Serial, Value, Window, same_key};
use std::test::Fail;

#[test]
fn numbers(rt: HostRuntime) {
    let mut out = [0u8; 8];
    0x0102_0304_0506_0708u64.put(&mut out);
    assert_eq!(rt; out, [1, 2, 3, 4, 5, 6, 7, 8]);
    assert_eq!(rt; u64::take(&out), 0x0102_0304_0506_0708);
    0xfffe_fdfcu32.put(&mut out[0..4]);
    assert_eq!(rt; out, [0xff, 0xfe, 0xfd, 0xfc, 5, 6, 7, 8]);
    assert_eq!(rt; u32::take(&out[0..4]), 0xfffe_fdfc);
    9u8.put(&mut out[7..8]);
    assert_eq!(rt; u8::take(&out[7..8]), 9);
}

#[test]
fn keys(rt: HostRuntime) {
    let mut room = [0u8; 32];
    let serial = Serial {
        value: 0xfedc_ba98_7654_3210,
    };
    serial.encode(&mut room[0..8]);
    assert_eq!(rt; room[0], 0xfe);
    assert_eq!(rt; room[7], 0x10);
    let back: Serial = <Serial as Key>::decode(&room[0..8]);
    assert!(rt; same_key(&serial, &back));
    assert!(rt; !same_key(&serial, &Serial { value: 7 }));
    let digest = [3u8; 32];
    let print: Fingerprint = <Fingerprint as Key>::decode(&digest);
    print.encode(&mut room);
    assert_eq!(rt; room, digest);
    room[31] = 4;
    let other: Fingerprint = <Fingerprint as Key>::decode(&room);
    assert!(rt; !same_key(&print, &other));
}

#[test]
fn windows(rt: HostRuntime) -> Result<(), Fail> {
    assert_eq!(rt; Window::check(5, 5), Err(KindFault::NoValue));
    assert_eq!(rt; Window::check(6, 5), Err(KindFault::NoValue));
    assert_eq!(rt; KindFault::NoValue.number(), 18);
    Window::check(5, u64::MAX)?;
    let window = Window::new(5, u64::MAX);
    let mut room = [0u8; 16];
    assert_eq!(rt; window.encode(&mut room), 16);
    assert_eq!(rt;
        room,
        [
            0, 0, 0, 0, 0, 0, 0, 5, 0xff, 0xff, 0xff, 0xff, 0xff, 0xff, 0xff, 0xff,
        ]
    );
    assert_eq!(rt; <Window as Value>::decode(&room), Some(window));
    assert_eq!(rt; <Window as Value>::decode(&room[0..15]), None);
    assert_eq!(rt; <Window as Value>::decode(&[0u8; 16]), None);
    assert_eq!(rt; (window.first(), window.end()), (5, u64::MAX));
    Ok(())
}

fn seals_back(bytes: &[u8]) -> Result<(), Fail> {
    Sealed::check(bytes)?;
    let sealed = Sealed::new(bytes);
    if sealed.encode_size() != bytes.len() {
        return Err(Fail::new("an encoding has another size"));
    }
    let Some(back) = <Sealed as Value>::decode(sealed.as_bytes()) else {
        return Err(Fail::new("an encoding was not decoded"));
    };
    if back.as_bytes() != bytes {
        return Err(Fail::new("an encoding was decoded to another value"));
    }
    Ok(())
}

#[test]
fn seals(rt: HostRuntime) -> Result<(), Fail> {
    let bytes = [7u8; 513];
    assert_eq!(rt; Sealed::check(&bytes), Err(KindFault::NoValue));
    assert!(rt; <Sealed as Value>::decode(&bytes).is_none());
    for len in 0..513usize {
        seals_back(&bytes[0..len])?;
    }
    let mut room = [1u8; 4];
    assert_eq!(rt; Sealed::new(&[]).encode(&mut room), 0);
    assert_eq!(rt; Sealed::new(&bytes[0..3]).encode(&mut room), 3);
    assert_eq!(rt; room, [7, 7, 7, 1]);
    Ok(())
}
