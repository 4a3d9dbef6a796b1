use it_types::Req;

/// What a body does next.
#[derive(Debug, Drop)]
pub enum Want {
    /// It makes this call.
    Call(Req),
    /// The handler finishes.
    Finish,
}
