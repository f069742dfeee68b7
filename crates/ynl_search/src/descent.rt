//! The first of some requests in the order of service, found by one descent of the tree of queues.

pub use descent::descend;
pub use standing::Standing;
pub use tree::Tree;

mod descent;
mod standing;
mod tree;
