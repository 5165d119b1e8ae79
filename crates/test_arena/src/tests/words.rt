//! The arena's own calls on hands, and threads that share it.
mod calls;
mod keys;
mod locks;
mod owner;
mod threads;
