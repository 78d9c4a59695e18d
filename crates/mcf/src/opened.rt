//! The devices that a task read, as it left them.

use runs::End;

/// The devices of a task's texts. What each has given is what the task read: it was opened for the task.
#[derive(Drop)]
pub enum Opened<F, I> {
    /// The problem is on the standard input.
    Typed { problem: I, answer: I, commands: I },
    /// The problem is in a file.
    Filed { problem: F, answer: I, commands: I },
    /// The problem and the answer are in files.
    Both { problem: F, answer: F, commands: I },
}

/// How a task ended, and its devices, where all of them were opened.
#[derive(Drop)]
pub struct Run<F, I> {
    pub end: End,
    pub opened: Option<Opened<F, I>>,
}

/// The exit status of a run, whose end was told, and its devices, where all of them were opened.
#[derive(Drop)]
pub struct Told<F, I> {
    pub status: u8,
    pub opened: Option<Opened<F, I>>,
}
