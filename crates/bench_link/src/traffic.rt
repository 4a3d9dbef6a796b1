ghost use Rattle.std.specs.Prelude.{◌≤◌};

use it_types::{NoMemory, PackNo};
use w_link::Link;

/// Sends as many packets, all at tick 0.
pub fn send_all(link: &mut Link, count: u32) -> Result<(), NoMemory> {
    for number in 0..count {
        link.sent(PackNo(number), 0)?;
    }
    Ok(())
}

/// Takes the first delivery as many times, at the tick `now`, and tells how often there was one.
pub fn take_all(link: &mut Link, count: u32, now: u64) -> u32
    ensures { result ≤ count }
{
    let mut taken = 0;
    for _ in 0..count {
        if link.next(now).is_some() {
            taken += 1;
        }
    }
    taken
}
