use it_types::{NoMemory, PackNo};
use rand_core::utils::NextWord;
use rand_pcg::Lcg64Xsh32;
use std::process::Abort;
use std::test::*;
use w_link::Link;

// The first words of a key on stream 1. They come from the reference implementation of PCG32 in C (O'Neill, pcg-random.org), by
// `pcg32_srandom_r` of the key and the sequence 1 and then `pcg32_random_r`.
const WORDS_OF_KEY_0: [u32; 12] = [
    0x0f5deba9, 0x184296dd, 0x357643f4, 0xf8e84c31, 0xaac1ca89, 0x4555f003, 0x24d8217a, 0x3e18cb9c,
    0x537b339d, 0xe981425e, 0x059ec9a4, 0x359def9d,
];

const WORDS_OF_KEY_1: [u32; 12] = [
    0xc9828f91, 0x1592e274, 0xc0262657, 0xa5c2b6d3, 0xaf811256, 0x6c1c2879, 0x30130b26, 0x9cc21c33,
    0xd137ef42, 0x908262ab, 0xd24d7799, 0xaa1118ab,
];

const WORDS_OF_LAST_KEY: [u32; 12] = [
    0xe2393051, 0xd4ee9aa6, 0x724075bd, 0xdbc6f13b, 0xbfc7dd95, 0x7b2d3585, 0x07f0a249, 0xdcb78f67,
    0x86cf0e77, 0xaa9871fa, 0x709767b6, 0xdeae0880,
];

fn expect_words(rt: &impl Abort, key: u64, words: &[u32]) {
    let mut generator = Lcg64Xsh32::new(key, 1);
    for word in words {
        let next: u32 = generator.next_word();
        assert_eq!(rt; next, *word);
    }
}

#[test]
fn words_of_the_reference_implementation(rt: HostRuntime) {
    expect_words(&rt, 0, &WORDS_OF_KEY_0);
    expect_words(&rt, 1, &WORDS_OF_KEY_1);
    expect_words(&rt, u64::MAX, &WORDS_OF_LAST_KEY);
}

// What the link gives at the tick, one after another, is these packets and no more.
fn expect_due(rt: &impl Abort, link: &mut Link, now: u64, packets: &[u32]) {
    for packet in packets {
        assert_eq!(rt; link.next(now), Some(PackNo(*packet)));
    }
    assert_eq!(rt; link.next(now), None);
}

// By those words, where 3 of 16 are lost, 2 delivered twice and none is later than 7 ticks: packet 0 is lost, packet 1 comes after 6
// ticks and its second copy after 1, packet 2 comes after 3 ticks and packet 3 after 1.
#[test]
fn lost_doubled_and_late(rt: HostRuntime) -> Result<(), NoMemory> {
    let mut link = Link::open(rt.alloc(), 1, 3, 2, 7);
    assert!(rt; link.idle());
    link.sent(PackNo(0), 10)?;
    assert!(rt; link.idle());
    link.sent(PackNo(1), 10)?;
    link.sent(PackNo(2), 10)?;
    expect_due(&rt, &mut link, 10, &[]);
    expect_due(&rt, &mut link, 11, &[1]);
    link.sent(PackNo(3), 11)?;
    expect_due(&rt, &mut link, 12, &[3]);
    assert!(rt; !link.idle());
    expect_due(&rt, &mut link, 20, &[2, 1]);
    assert!(rt; link.idle());
    Ok(())
}

// With the last key packet 0 is lost, packet 1 comes twice after 5 ticks, packet 2 twice after 7 ticks, and packet 3 after 6 ticks
// and at once.
#[test]
fn several_at_one_tick(rt: HostRuntime) -> Result<(), NoMemory> {
    let mut link = Link::open(rt.alloc(), u64::MAX, 4, 8, 7);
    for number in 0..4 {
        link.sent(PackNo(number), 0)?;
    }
    expect_due(&rt, &mut link, 100, &[3, 1, 1, 3, 2, 2]);
    assert!(rt; link.idle());
    Ok(())
}

#[test]
fn sound_link(rt: HostRuntime) -> Result<(), NoMemory> {
    let mut link = Link::open(rt.alloc(), 0, 0, 0, 0);
    for number in 0..100 {
        link.sent(PackNo(number), 3)?;
    }
    for number in 0..100 {
        assert_eq!(rt; link.next(3), Some(PackNo(number)));
    }
    assert!(rt; link.idle());
    Ok(())
}

#[test]
fn broken_link(rt: HostRuntime) -> Result<(), NoMemory> {
    let mut link = Link::open(rt.alloc(), 0, 16, 0, 1000);
    for number in 0..100 {
        link.sent(PackNo(number), 0)?;
    }
    assert!(rt; link.idle());
    assert_eq!(rt; link.next(5000), None);
    Ok(())
}
