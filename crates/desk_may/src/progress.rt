//! Progress of a long answer.

/// Receives the progress of a long answer.
pub trait Progress {
    /// Reports that this many of so many lays and tokens of a company have been tried.
    fn tell(&mut self, done: usize, of: usize);
}
