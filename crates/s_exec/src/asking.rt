ghost use Rattle.std.specs.Prelude.{◌≡◌, IfOk};
ghost use Rattle.spec_script.specs.Interpreter.{data_of, destination_of, request_with};

use crate::exec::Exec;
use it_types::{Bytes, EndPt, NoMemory, Req};
use std::alloc::Global;

impl<'a> Exec<'a> {
    /// The call as it is made: with the buffer and the peer where it sends these.
    pub(crate) fn request(
        &self,
        alloc: Global,
        req: &Req,
        buf: bool,
        peer: bool,
    ) -> Result<Req, NoMemory>
        ensures { IfOk result (λ r. r ≡ request_with req.now buf peer self.now.buffer self.now.peer) }
    {
        match *req {
            Req::TcpSndDat { cep, ref load, tmo } => Ok(Req::TcpSndDat {
                cep,
                load: self.data(alloc, buf, load)?,
                tmo,
            }),
            Req::TcpSndBuf { cep, ref load } => Ok(Req::TcpSndBuf {
                cep,
                load: self.data(alloc, buf, load)?,
            }),
            Req::UdpSndDat {
                cep,
                dest,
                ref load,
                tmo,
            } => Ok(Req::UdpSndDat {
                cep,
                dest: self.destination(peer, dest),
                load: self.data(alloc, buf, load)?,
                tmo,
            }),
            _ => req.copy(alloc),
        }
    }

    fn data(&self, alloc: Global, buf: bool, load: &Bytes) -> Result<Bytes, NoMemory>
        ensures { IfOk result (λ sent. sent ≡ data_of buf self.now.buffer load.now) }
    {
        if buf {
            Bytes::of(alloc, self.buffer.as_slice())
        } else {
            Bytes::of(alloc, load.as_slice())
        }
    }

    fn destination(&self, peer: bool, dest: EndPt) -> EndPt
        ensures { result ≡ destination_of peer self.now.peer dest }
    {
        if peer { self.peer } else { dest }
    }
}
