use it_types::{CycDecl, DtqDecl, FlgDecl, List, ObjId, Req, SemDecl, TaskDecl};

/// A declaration of a node.
#[derive(Debug, Drop)]
pub enum Decl {
    Task(TaskDecl, Body),
    Sem(SemDecl),
    Flg(FlgDecl),
    Dtq(DtqDecl),
    Cyc(CycDecl, Body),
    /// A callback routine.
    Cbr(ObjId, Body),
}

/// What a task or a handler does, line by line.
#[derive(Debug, Drop)]
pub struct Body {
    pub lines: List<Line>,
}

/// A line of a body.
#[derive(Debug, Drop)]
pub enum Line {
    /// Makes a call. Where `buf` holds it sends the buffer, and the request itself has no data; where `peer` holds it sends to the
    /// peer, and the request's own destination is 0.0.0.0:0.
    Call { req: Req, buf: bool, peer: bool },
    /// Sets the buffer to so many bytes of the pattern, at most 65,280.
    Fill(u32),
    /// Begins a loop, which runs so many times at most: from 1 to 65,535.
    Loop(u32),
    /// Ends the innermost loop.
    Pool,
    /// Leaves the innermost loop where the last answer is at most 0.
    UntilEnd,
    /// Leaves the innermost loop where the last answer is below 0.
    UntilFail,
    /// Leaves the innermost loop where the buffer is empty.
    UntilEmpty,
}
