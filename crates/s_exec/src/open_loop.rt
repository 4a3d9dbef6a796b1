use spec_script::Line;

/// A loop that is open.
#[derive(Drop)]
pub(crate) struct OpenLoop<'a> {
    /// From its first line to the end of the body.
    pub(crate) lines: &'a [Line],
    /// How many rounds may follow this one.
    pub(crate) rounds: u32,
}
