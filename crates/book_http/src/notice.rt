//! What an answer says in a line of its own before its body.

use crate::method::Method;

/// What an answer says beside its status and its body.
#[derive(Clone, Copy)]
pub enum Notice {
    /// The path takes this method.
    Allow(Method),
    /// The same request may be sent again after a second.
    RetryAfter,
}
