//! A thread that has nothing to do, which is started before the threads that work.

use std::thread::{JoinHandle, Threads, spawn};

/// A thread that ends at once.
///
/// If a busy thread starts another, Linux may keep both on one processor for some milliseconds, which is long compared
/// with the work on a capture. A second thread that it starts runs on another processor at once. So several jobs start
/// after an idle one.
#[derive(Drop)]
pub struct IdleThread {
    handle: Option<JoinHandle<()>>,
}

impl IdleThread {
    /// Starts it before this number of jobs. There is none if one job works alone, or if no thread can be made.
    pub fn start<T: Threads>(rt: &T, jobs: usize) -> IdleThread {
        let handle = if jobs < 2 {
            None
        } else {
            spawn(rt, || {}).ok()
        };
        IdleThread { handle }
    }

    /// Waits until the thread has ended.
    pub fn end<T: Threads>(self, rt: &T) {
        let IdleThread { handle } = self;
        if let Some(handle) = handle {
            handle.join(rt);
        }
    }
}
