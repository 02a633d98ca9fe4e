/// How urgent a job is.
#[derive(Clone, Copy, Debug, PartialEq, Eq)]
pub enum Priority {
    VeryHigh,
    High,
    Normal,
    Low,
    VeryLow,
}
