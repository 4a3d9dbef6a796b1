//! The receive window, with ample memory.

use it_types::CepId;
use std::test::*;
use win_ring::{RecvWin, WinKey};

const KEY: WinKey = WinKey {
    addr: 0x0a000002,
    cep: CepId(16),
    start: 131072,
};

#[test]
fn early_bytes_wait_for_those_before_them(rt: HostRuntime) -> Result<(), Fail> {
    let mut window = RecvWin::open(rt.alloc(), 256, KEY)?;
    assert_eq!(rt; window.key(), KEY);
    window.arrive(3, b"lo");
    assert_eq!(rt; window.have(), 0);
    window.arrive(0, b"hel");
    window.grow(5);
    assert_eq!(rt; window.have(), 5);
    let mut out = *b"........";
    assert_eq!(rt; window.take(&mut out[..4]), 4);
    assert_eq!(rt; &out, b"hell....");
    assert_eq!(rt; window.take(&mut out), 1);
    assert_eq!(rt; &out, b"oell....");
    assert_eq!(rt; window.take(&mut out), 0);
    Ok(())
}

#[test]
fn a_later_byte_replaces_an_earlier_one(rt: HostRuntime) -> Result<(), Fail> {
    let mut window = RecvWin::open(rt.alloc(), 256, KEY)?;
    window.arrive(0, b"abcd");
    window.arrive(1, b"XY");
    window.grow(4);
    let mut out = [0; 4];
    assert_eq!(rt; window.take(&mut out), 4);
    assert_eq!(rt; &out, b"aXYd");
    Ok(())
}

#[test]
fn what_lies_past_the_window_is_left_out(rt: HostRuntime) -> Result<(), Fail> {
    let mut window = RecvWin::open(rt.alloc(), 256, KEY)?;
    window.arrive(254, b"abc");
    window.arrive(256, b"d");
    window.arrive(4294967295, b"e");
    window.grow(256);
    window.arrive(0, b"f");
    let mut out = [9; 257];
    assert_eq!(rt; window.take(&mut out), 256);
    assert_eq!(rt; &out[..4], [0; 4].as_slice());
    assert_eq!(rt; &out[253..], b"\x00ab\x09".as_slice());
    Ok(())
}

// The second round goes past the end of the memory.
#[test]
fn a_byte_ahead_stays_ahead(rt: HostRuntime) -> Result<(), Fail> {
    let mut window = RecvWin::open(rt.alloc(), 256, KEY)?;
    let mut out = [0; 200];
    let mut last = [0; 1];
    window.arrive(200, b"a");
    window.arrive(0, &[1; 200]);
    window.grow(200);
    assert_eq!(rt; window.take(&mut out), 200);
    assert_eq!(rt; &out, &[1; 200]);
    window.grow(1);
    assert_eq!(rt; window.take(&mut last), 1);
    assert_eq!(rt; &last, b"a");
    window.arrive(200, b"b");
    window.arrive(0, &[2; 200]);
    window.grow(200);
    assert_eq!(rt; window.take(&mut out), 200);
    assert_eq!(rt; &out, &[2; 200]);
    window.grow(1);
    assert_eq!(rt; window.take(&mut last), 1);
    assert_eq!(rt; &last, b"b");
    Ok(())
}
