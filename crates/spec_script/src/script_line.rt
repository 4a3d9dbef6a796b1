use crate::Line;

/// A line of a script's text. A number is `None` where it is 2^64 or more.
#[derive(Debug, Drop)]
pub enum ScriptLine {
    /// `itron 1`
    Itron,
    /// `link KEY LOSE TWICE DELAY`
    Link {
        key: Option<u64>,
        lose: Option<u64>,
        twice: Option<u64>,
        delay: Option<u64>,
    },
    /// `ticks T`
    Ticks {
        ticks: Option<u64>,
    },
    /// `node 0 ADDR ISN TOP`
    FirstNode(NodeLine),
    /// `node 1 ADDR ISN TOP`
    SecondNode(NodeLine),
    /// `sem ID fifo INIT MAX`, or with `pri` for `fifo`
    Sem {
        id: Option<u64>,
        pri: bool,
        init: Option<u64>,
        max: Option<u64>,
    },
    /// `flg ID fifo one clr INIT`, or with `pri`, `many` and `keep`
    Flg {
        id: Option<u64>,
        pri: bool,
        many: bool,
        clr: bool,
        init: Option<u64>,
    },
    /// `dtq ID fifo CAP`, or with `pri`
    Dtq {
        id: Option<u64>,
        pri: bool,
        cap: Option<u64>,
    },
    /// `task ID PRI act`, or with `dor`
    Task {
        id: Option<u64>,
        pri: Option<u64>,
        act: bool,
    },
    /// `cyc ID PERIOD PHASE on`, or with `off`
    Cyc {
        id: Option<u64>,
        period: Option<u64>,
        phase: Option<u64>,
        on: bool,
    },
    /// `cbr ID`
    Cbr {
        id: Option<u64>,
    },
    /// A line of a body; `fits` says that each of its numbers is in its range, and one that isn't has another in its place.
    Body {
        line: Line,
        fits: bool,
    },
    /// `end`
    End,
}

/// What stands in a line that begins a node: the address is `None` where one of its parts is above 255.
#[derive(Clone, Copy, Debug)]
pub struct NodeLine {
    pub addr: Option<u32>,
    pub isn0: Option<u64>,
    pub top0: Option<u64>,
}
