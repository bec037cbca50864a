//! Contexts: how they are derived, and how they end.

/// How a context is derived from its parent (Go 1.23, package context). Times are in nanoseconds.
#[derive(Clone, Copy, Debug, PartialEq, Eq)]
pub enum Form {
    /// It can be canceled (`WithCancel`).
    Cancel,
    /// It can be canceled with a cause (`WithCancelCause`).
    Cause,
    /// It ends `d` after it is made, with the error at this place of the declarations as its cause where one is named (`WithTimeout`,
    /// `WithTimeoutCause`).
    Timeout { d: u64, cause: Option<u32> },
    /// Its parent's end and deadline do not reach it (`WithoutCancel`).
    Without,
}

/// The error of a context that has ended.
#[derive(Clone, Copy, Debug, PartialEq, Eq)]
pub enum ErrVal {
    /// `context canceled`.
    Canceled,
    /// `context deadline exceeded`.
    DeadlineExceeded,
}

/// The cause of a context's end.
#[derive(Clone, Copy, Debug, PartialEq, Eq)]
pub enum CauseVal {
    /// The error `context canceled`.
    Canceled,
    /// The error `context deadline exceeded`.
    DeadlineExceeded,
    /// The error at this place of the declarations.
    Named(u32),
}

/// The error and the cause that a context keeps from its end on.
#[derive(Clone, Copy, Debug, PartialEq, Eq)]
pub struct End {
    pub err: ErrVal,
    pub cause: CauseVal,
}

/// What is kept of a context that was made.
#[derive(Clone, Copy, Debug, PartialEq, Eq)]
pub struct Context {
    /// The world in which it was made.
    pub world: u32,
    /// Its own deadline, in nanoseconds.
    pub own: Option<u64>,
    /// Its error and cause, once it has ended.
    pub end: Option<End>,
}

/// What has become of a function that starts at the end of a context.
#[derive(Clone, Copy, Debug, PartialEq, Eq)]
pub enum HookState {
    /// It was not registered yet.
    Unregistered,
    /// It waits for its context's end.
    Waiting,
    /// It was started.
    Started,
    /// It was kept from being started.
    Stopped,
}
