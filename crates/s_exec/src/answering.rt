ghost use Rattle.std.specs.Prelude.{◌≡◌, IfOk, OnOk, drop};
ghost use Rattle.spec_script.specs.Interpreter.{taken, unsent, handed_over, with_buffer, with_datagram, with_peer, peer_in, brought_datagram};

use crate::exec::Exec;
use it_types::{E_BOVR, E_OK, EndPt, Er, NoMemory, Req};
use std::alloc::Global;

impl<'a> Exec<'a> {
    /// Keeps what the answer of this call brings.
    pub(crate) fn take(
        &mut self,
        alloc: Global,
        req: &Req,
        buf: bool,
        code: Er,
        bytes: &[u8],
    ) -> Result<(), NoMemory>
        ensures { OnOk result (self.new ≡ taken req.now buf code bytes.now self.old) }
    {
        match *req {
            Req::TcpSndDat { .. } => self.drop_sent(buf, code),
            Req::TcpSndBuf { .. } => self.hand_over(buf, code),
            Req::TcpRcvDat { .. } => self.receive(alloc, code.0 >= 0, bytes)?,
            Req::TcpRcvBuf { .. } => self.receive(alloc, code.0 >= 0, after(4, bytes))?,
            Req::UdpRcvDat { .. } => {
                self.receive_datagram(alloc, code.0 >= 0 || code == E_BOVR, bytes)?
            }
            Req::TcpAcpCep { .. } => self.learn_peer(code.0 >= 0, bytes),
            _ => {}
        }
        Ok(())
    }

    /// Drops of the buffer what was sent of it: so many bytes as the code says.
    fn drop_sent(&mut self, buf: bool, code: Er)
        ensures { self.new ≡ unsent buf code self.old }
    {
        if buf && code.0 >= 0 {
            let len = self.buffer.len();
            let sent = (code.0 as usize).min(len);
            self.buffer.rotate_left(sent);
            self.buffer.truncate(len - sent);
        }
    }

    /// Empties the buffer where all of it was sent.
    fn hand_over(&mut self, buf: bool, code: Er)
        ensures { self.new ≡ handed_over buf code self.old }
    {
        if buf && code == E_OK {
            self.buffer.clear();
        }
    }

    fn receive(&mut self, alloc: Global, received: bool, bytes: &[u8]) -> Result<(), NoMemory>
        ensures { OnOk result (self.new ≡ with_buffer received bytes.now self.old) }
    {
        if received {
            self.buffer = Vec::from_slice(alloc, bytes)?;
        }
        Ok(())
    }

    /// Takes the data of a datagram, and of its first six bytes where it comes from.
    fn receive_datagram(
        &mut self,
        alloc: Global,
        received: bool,
        bytes: &[u8],
    ) -> Result<(), NoMemory>
        ensures { OnOk result (self.new ≡ with_datagram received bytes.now self.old) }
    {
        if received {
            self.buffer = Vec::from_slice(alloc, after(6, bytes))?;
            self.peer = peer_in(bytes, self.peer);
        }
        Ok(())
    }

    fn learn_peer(&mut self, received: bool, bytes: &[u8])
        ensures { self.new ≡ with_peer received bytes.now self.old }
    {
        if received {
            self.peer = peer_in(bytes, self.peer);
        }
    }
}

/// The bytes after the first so many.
fn after(len: usize, bytes: &[u8]) -> &[u8]
    ensures { result.now ≡ drop len bytes.now }
{
    if len <= bytes.len() {
        &bytes[len..]
    } else {
        &[]
    }
}

/// The end point in the first six bytes, in network order; this one where there are fewer.
fn peer_in(bytes: &[u8], peer: EndPt) -> EndPt
    ensures { result ≡ peer_in bytes.now peer }
{
    match *bytes {
        [a, b, c, d, e, f, ..] => EndPt {
            addr: u32::from_be_bytes([a, b, c, d]),
            port: u16::from_be_bytes([e, f]),
        },
        _ => peer,
    }
}
