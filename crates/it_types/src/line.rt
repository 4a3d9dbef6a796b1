ghost use Rattle.std.specs.Prelude.{◌≡◌, ◌&&◌};
ghost use Rattle.it_types.specs.Kinds.{Task, Object, Reception, Point, Number, Port, Delay, Time, Mode, Destination, Load, Timeout, TcpFunction, UdpFunction};
ghost use Rattle.it_types.specs.Fields.{field_at};
ghost use Rattle.it_types.specs.Lines.{Reads};
ghost use Rattle.it_types.specs.Standings.{standing};

use crate::cursor::after;
use crate::handler::{TCP_FUNCTIONS, UDP_FUNCTIONS};
use crate::kinds::{
    delay_of, destination_at, function_at, load_at, mode_at, object_of, point_of, reception_of,
    task_of, timeout_at,
};
use crate::numbers::{number_at, u16_of, u32_of, u63_of};
use crate::stop::Stop;
use crate::{Bytes, CepId, EndPt, FnCode, ObjId, RepId, TaskId, Tmo};
use std::alloc::Global;

/// The rest of the line of a call, whose fields are taken one by one.
#[derive(Drop)]
pub(crate) struct Line<'a> {
    /// The most bytes of data.
    pub(crate) limit: usize,
    /// Whether each field so far was in its range.
    pub(crate) fits: bool,
    pub(crate) rest: &'a [u8],
}

impl<'a> Line<'a> {
    /// A field was read, and these bytes are left.
    fn go_on(&mut self, rest: &'a [u8], fits: bool)
        ensures { standing self.new ≡ record { limit = self.old.limit; fits = self.old.fits && fits; rest = rest.now } }
    {
        self.fits = self.fits && fits;
        self.rest = rest;
    }

    #[tactic(auto, unfolding(crate::specs::Cursor::and_then, crate::specs::Fields::field_at, crate::specs::Kinds::number_as))]
    pub(crate) fn task(&mut self) -> Result<TaskId, Stop>
        ensures { Reads (field_at Task (standing self.old)) result (standing self.new) }
    {
        let bytes = after(b" ", self.rest).ok_or(Stop::NoRequest)?;
        let (number, rest) = number_at(bytes).ok_or(Stop::NoRequest)?;
        let task = task_of(number);
        self.go_on(rest, task.is_some());
        Ok(task.unwrap_or_default())
    }

    #[tactic(auto, unfolding(crate::specs::Cursor::and_then, crate::specs::Fields::field_at, crate::specs::Kinds::number_as))]
    pub(crate) fn object(&mut self) -> Result<ObjId, Stop>
        ensures { Reads (field_at Object (standing self.old)) result (standing self.new) }
    {
        let bytes = after(b" ", self.rest).ok_or(Stop::NoRequest)?;
        let (number, rest) = number_at(bytes).ok_or(Stop::NoRequest)?;
        let object = object_of(number);
        self.go_on(rest, object.is_some());
        Ok(object.unwrap_or_default())
    }

    #[tactic(auto, unfolding(crate::specs::Cursor::and_then, crate::specs::Fields::field_at, crate::specs::Kinds::number_as))]
    pub(crate) fn reception(&mut self) -> Result<RepId, Stop>
        ensures { Reads (field_at Reception (standing self.old)) result (standing self.new) }
    {
        let bytes = after(b" ", self.rest).ok_or(Stop::NoRequest)?;
        let (number, rest) = number_at(bytes).ok_or(Stop::NoRequest)?;
        let reception = reception_of(number);
        self.go_on(rest, reception.is_some());
        Ok(reception.unwrap_or_default())
    }

    #[tactic(auto, unfolding(crate::specs::Cursor::and_then, crate::specs::Fields::field_at, crate::specs::Kinds::number_as))]
    pub(crate) fn point(&mut self) -> Result<CepId, Stop>
        ensures { Reads (field_at Point (standing self.old)) result (standing self.new) }
    {
        let bytes = after(b" ", self.rest).ok_or(Stop::NoRequest)?;
        let (number, rest) = number_at(bytes).ok_or(Stop::NoRequest)?;
        let point = point_of(number);
        self.go_on(rest, point.is_some());
        Ok(point.unwrap_or_default())
    }

    #[tactic(auto, unfolding(crate::specs::Cursor::and_then, crate::specs::Fields::field_at, crate::specs::Kinds::number_as))]
    pub(crate) fn number(&mut self) -> Result<u32, Stop>
        ensures { Reads (field_at Number (standing self.old)) result (standing self.new) }
    {
        let bytes = after(b" ", self.rest).ok_or(Stop::NoRequest)?;
        let (number, rest) = number_at(bytes).ok_or(Stop::NoRequest)?;
        let value = u32_of(number);
        self.go_on(rest, value.is_some());
        Ok(value.unwrap_or(0))
    }

    #[tactic(auto, unfolding(crate::specs::Cursor::and_then, crate::specs::Fields::field_at, crate::specs::Kinds::number_as))]
    pub(crate) fn port(&mut self) -> Result<u16, Stop>
        ensures { Reads (field_at Port (standing self.old)) result (standing self.new) }
    {
        let bytes = after(b" ", self.rest).ok_or(Stop::NoRequest)?;
        let (number, rest) = number_at(bytes).ok_or(Stop::NoRequest)?;
        let port = u16_of(number);
        self.go_on(rest, port.is_some());
        Ok(port.unwrap_or(0))
    }

    #[tactic(auto, unfolding(crate::specs::Cursor::and_then, crate::specs::Fields::field_at, crate::specs::Kinds::number_as))]
    pub(crate) fn delay(&mut self) -> Result<u32, Stop>
        ensures { Reads (field_at Delay (standing self.old)) result (standing self.new) }
    {
        let bytes = after(b" ", self.rest).ok_or(Stop::NoRequest)?;
        let (number, rest) = number_at(bytes).ok_or(Stop::NoRequest)?;
        let ticks = delay_of(number);
        self.go_on(rest, ticks.is_some());
        Ok(ticks.unwrap_or(0))
    }

    #[tactic(auto, unfolding(crate::specs::Cursor::and_then, crate::specs::Fields::field_at, crate::specs::Kinds::number_as))]
    pub(crate) fn time(&mut self) -> Result<u64, Stop>
        ensures { Reads (field_at Time (standing self.old)) result (standing self.new) }
    {
        let bytes = after(b" ", self.rest).ok_or(Stop::NoRequest)?;
        let (number, rest) = number_at(bytes).ok_or(Stop::NoRequest)?;
        let time = u63_of(number);
        self.go_on(rest, time.is_some());
        Ok(time.unwrap_or(0))
    }

    #[tactic(auto, unfolding(crate::specs::Cursor::and_then, crate::specs::Fields::field_at))]
    pub(crate) fn mode(&mut self) -> Result<bool, Stop>
        ensures { Reads (field_at Mode (standing self.old)) result (standing self.new) }
    {
        let bytes = after(b" ", self.rest).ok_or(Stop::NoRequest)?;
        let (all, rest) = mode_at(bytes).ok_or(Stop::NoRequest)?;
        self.go_on(rest, true);
        Ok(all)
    }

    #[tactic(auto, unfolding(crate::specs::Cursor::and_then, crate::specs::Fields::field_at))]
    pub(crate) fn destination(&mut self) -> Result<EndPt, Stop>
        ensures { Reads (field_at Destination (standing self.old)) result (standing self.new) }
    {
        let bytes = after(b" ", self.rest).ok_or(Stop::NoRequest)?;
        let (end, rest) = destination_at(bytes).ok_or(Stop::NoRequest)?;
        self.go_on(rest, end.is_some());
        Ok(end.unwrap_or_default())
    }

    #[tactic(auto, unfolding(crate::specs::Cursor::and_then, crate::specs::Fields::field_at))]
    pub(crate) fn load(&mut self, alloc: Global) -> Result<Bytes, Stop>
        ensures { Reads (field_at Load (standing self.old)) result (standing self.new) }
    {
        let bytes = after(b" ", self.rest).ok_or(Stop::NoRequest)?;
        let (load, rest) = load_at(alloc, self.limit, bytes)?.ok_or(Stop::NoRequest)?;
        self.go_on(rest, true);
        Ok(load)
    }

    #[tactic(auto, unfolding(crate::specs::Cursor::and_then, crate::specs::Fields::field_at))]
    pub(crate) fn timeout(&mut self) -> Result<Tmo, Stop>
        ensures { Reads (field_at Timeout (standing self.old)) result (standing self.new) }
    {
        let bytes = after(b" ", self.rest).ok_or(Stop::NoRequest)?;
        let (timeout, rest) = timeout_at(bytes).ok_or(Stop::NoRequest)?;
        self.go_on(rest, timeout.is_some());
        Ok(timeout.unwrap_or(Tmo::Pol))
    }

    #[tactic(auto, unfolding(crate::specs::Cursor::and_then, crate::specs::Fields::field_at))]
    pub(crate) fn tcp_function(&mut self) -> Result<FnCode, Stop>
        ensures { Reads (field_at TcpFunction (standing self.old)) result (standing self.new) }
    {
        let bytes = after(b" ", self.rest).ok_or(Stop::NoRequest)?;
        let (function, rest) = function_at(&TCP_FUNCTIONS, bytes).ok_or(Stop::NoRequest)?;
        self.go_on(rest, true);
        Ok(function)
    }

    #[tactic(auto, unfolding(crate::specs::Cursor::and_then, crate::specs::Fields::field_at))]
    pub(crate) fn udp_function(&mut self) -> Result<FnCode, Stop>
        ensures { Reads (field_at UdpFunction (standing self.old)) result (standing self.new) }
    {
        let bytes = after(b" ", self.rest).ok_or(Stop::NoRequest)?;
        let (function, rest) = function_at(&UDP_FUNCTIONS, bytes).ok_or(Stop::NoRequest)?;
        self.go_on(rest, true);
        Ok(function)
    }
}
