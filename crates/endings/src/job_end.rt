//! The end of a job.

use jobs::Job;
use nar::Tree;

/// A job that ends with an output: the place of the user who leads it, and the tree whose archive the
/// output is, if it is one.
#[derive(Clone, Copy)]
pub(crate) struct JobEnd<'a> {
    pub(crate) leader: usize,
    pub(crate) job: &'a Job,
    pub(crate) tree: Option<&'a Tree>,
}
