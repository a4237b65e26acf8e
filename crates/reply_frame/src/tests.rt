//! A reply of each kind.

mod replies;
