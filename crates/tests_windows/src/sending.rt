//! The send window, with ample memory.

use it_types::CepId;
use std::test::*;
use win_ring::{SendWin, WinKey};

const KEY: WinKey = WinKey {
    addr: 0x0a000001,
    cep: CepId(1),
    start: 65536,
};

// Fifty rounds of 200 bytes go through a window of 256, so they reach the end of its memory at many places.
#[test]
fn bytes_go_around_the_memory(rt: HostRuntime) -> Result<(), Fail> {
    let mut window = SendWin::open(rt.alloc(), 256, KEY)?;
    assert_eq!(rt; window.key(), KEY);
    for round in 0..50u8 {
        let load = [round; 200];
        assert_eq!(rt; window.put(&load), 200);
        assert_eq!(rt; window.room(), 56);
        assert_eq!(rt; window.place(), (u64::from(round) + 1) * 200);
        let mut out = [255; 201];
        assert_eq!(rt; window.bytes(0, &mut out), 200);
        assert_eq!(rt; &out[..200], load.as_slice(), "the round {round}");
        window.acked(200);
    }
    Ok(())
}

#[test]
fn takes_what_has_room(rt: HostRuntime) -> Result<(), Fail> {
    let mut window = SendWin::open(rt.alloc(), 256, KEY)?;
    assert_eq!(rt; window.room(), 256);
    assert_eq!(rt; window.put(&[1; 255]), 255);
    assert_eq!(rt; window.put(b"abc"), 1);
    assert_eq!(rt; window.put(b"abc"), 0);
    assert_eq!(rt; window.room(), 0);
    window.acked(254);
    assert_eq!(rt; window.put(b"de"), 2);
    let mut out = *b"........";
    assert_eq!(rt; window.bytes(1, &mut out), 3);
    assert_eq!(rt; &out, b"ade.....");
    assert_eq!(rt; window.bytes(4, &mut out), 0);
    assert_eq!(rt; window.bytes(9, &mut out), 0);
    assert_eq!(rt; &out, b"ade.....");
    assert_eq!(rt; window.bytes(0, &mut out[..2]), 2);
    assert_eq!(rt; &out, b"\x01ae.....");
    assert_eq!(rt; window.place(), 258);
    Ok(())
}

#[test]
fn the_greatest_window(rt: HostRuntime) -> Result<(), Fail> {
    let mut window = SendWin::open(rt.alloc(), 65280, KEY)?;
    assert_eq!(rt; window.put(&[7; 65281]), 65280);
    let mut out = [0; 2];
    assert_eq!(rt; window.bytes(65279, &mut out), 1);
    assert_eq!(rt; &out, &[7, 0]);
    Ok(())
}
