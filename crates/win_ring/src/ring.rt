ghost use Rattle.std.specs.Prelude.{◌≡◌, ◌+◌, ◌≤◌, length, take, drop, replicate, IfOk};
ghost use Rattle.win_ring.specs.Rings.{turned, written};

use it_types::NoMemory;
use std::alloc::Global;
use std::marker::Model;

// Copies the bytes into the memory, from a place on.
fn put_at(memory: &mut [u8], place: usize, load: &[u8])
    requires { place + length load.now ≤ length memory.old }
    ensures { memory.new ≡ written place load.now memory.old }
{
    memory[place..place + load.len()].copy_from_slice(load);
}

// Copies the bytes of the memory from a place on, as many as `out` holds.
fn get_at(memory: &[u8], place: usize, out: &mut [u8])
    requires { place + length out.old ≤ length memory.now }
    ensures { out.new ≡ take (length out.old) (drop place memory.now) }
{
    let end = place + out.len();
    out.copy_from_slice(&memory[place..end]);
}

// Writes the bytes over those from the place `at` on, counted from the head: up to the end of the memory, and the rest at its
// start.
fn put_around(memory: &mut [u8], head: usize, at: usize, load: &[u8])
    requires head { head ≤ length memory.old }
    requires within { at + length load.now ≤ length memory.old }
    ensures bytes { turned head memory.new ≡ written at load.now (turned head memory.old) }
    ensures size { length memory.new ≡ length memory.old }
{
    let to_end = memory.len() - head;
    if at < to_end {
        let first = load.len().min(to_end - at);
        put_at(memory, head + at, &load[..first]);
        put_at(memory, 0, &load[first..]);
    } else {
        put_at(memory, at - to_end, load);
    }
}

// Copies the bytes from the place `at` on, counted from the head: up to the end of the memory, and the rest from its start.
fn get_around(memory: &[u8], head: usize, at: usize, out: &mut [u8])
    requires head { head ≤ length memory.now }
    requires within { at + length out.old ≤ length memory.now }
    ensures { out.new ≡ take (length out.old) (drop at (turned head memory.now)) }
{
    let to_end = memory.len() - head;
    if at < to_end {
        let first = out.len().min(to_end - at);
        get_at(memory, head + at, &mut out[..first]);
        get_at(memory, 0, &mut out[first..]);
    } else {
        get_at(memory, at - to_end, out);
    }
}

/// Bytes in a memory of a fixed size, which go on at its start where they reach its end. The first of them stands at the head.
#[derive(Debug, Drop)]
pub(crate) struct Ring {
    memory: Vec<u8>,
    head: usize,
}

impl Model for Ring {
    ghost use Rattle.std.specs.Prelude.{List, ℕ, ◌≤◌, length};
    ghost use Rattle.win_ring.specs.Rings.{turned};

    ghost Value = { List ℕ };

    ghost view = { λ r. turned r.head r.memory.items };

    ghost invariant = { λ r. r.head ≤ length r.memory.items };
}

impl Ring {
    /// A ring of `size` bytes, which are 0.
    pub(crate) fn open(alloc: Global, size: usize) -> Result<Ring, NoMemory>
        ensures { IfOk result (λ r. r ≡ replicate size 0) }
    {
        Ok(Ring {
            memory: vec![in alloc; 0u8; size]?,
            head: 0,
        })
    }

    /// Writes the bytes over those from the place `at` on, counted from the head.
    pub(crate) fn write(&mut self, at: usize, load: &[u8])
        requires { at + length load.now ≤ length self.old }
        ensures { self.new ≡ written at load.now self.old }
    {
        put_around(&mut self.memory, self.head, at, load);
    }

    /// Copies the bytes from the place `at` on, counted from the head, as many as `out` holds.
    pub(crate) fn read(&self, at: usize, out: &mut [u8])
        requires { at + length out.old ≤ length self.now }
        ensures { out.new ≡ take (length out.old) (drop at self.now) }
    {
        get_around(&self.memory, self.head, at, out);
    }

    /// The first `n` bytes become the last ones. No byte moves in the memory.
    pub(crate) fn turn(&mut self, n: usize)
        requires { n ≤ length self.old }
        ensures { self.new ≡ turned n self.old }
    {
        let to_end = self.memory.len() - self.head;
        self.head = if n < to_end {
            self.head + n
        } else {
            n - to_end
        };
    }
}
