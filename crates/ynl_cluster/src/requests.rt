//! What live applications want, by numbers, and that it is what the model says.

pub mod laws;
