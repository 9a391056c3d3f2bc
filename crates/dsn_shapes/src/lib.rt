//! Shapes, keepouts and outlines of a design, names that a section states, and the quota for items.
#![tactic(auto)]

mod ahead;
mod drawn;
mod keepouts;
mod outlines;
mod quotas;
mod rings;

pub use ahead::names_ahead;
pub use drawn::{add_shapes, shapes_at};
pub use keepouts::{keep_at, keep_kind};
pub use outlines::add_outlines;
pub use quotas::{Quota, quota_behind, quota_for, whole_quota};
