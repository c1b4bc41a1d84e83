/// The response of a thread under a schedule, and its bound.
#[derive(Clone, Copy, Debug)]
pub struct Row {
    /// The thread's number.
    pub thread: u32,
    /// In steps: from the first at which all parents of the thread's first vertex have run, to that of its last.
    pub response: u64,
    /// The competitors' work, in vertices.
    pub work: u64,
    /// The span, in vertices.
    pub span: u64,
    /// What the response is at most, in steps: the work plus the span for each core but one, divided by the cores.
    pub bound: u64,
}
