//! Rows of a plan.

use item_model::SharedRow;

/// A row of a listing, with its key if it is a member of a container.
#[derive(Drop)]
pub struct PlanRow {
    pub member: Option<u32>,
    pub row: SharedRow,
}
