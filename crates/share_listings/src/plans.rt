//! Plans listings from their rows.

ghost use Rattle.std.specs.Prelude.{◌≡◌};
ghost use Rattle.listing_plan.specs.Plans.{AreRowsOf, AreGone, keyed, delta_plan as plan_of_delta};
ghost use Rattle.listing_plan.specs.declared.plan.Plan.TheVariants.{Rows};
ghost use Rattle.share_history.specs.Listings.{full_of};

use crate::changed::Changed;
use crate::ranges::in_range;
use item_model::{Look, Target};
use listing_plan::{Plan, PlanRow};

/// Plans the full listing that has these rows before the range.
pub(crate) fn full_plan(target: Target, revision: u32, look: Look, rows: Vec<PlanRow>) -> Plan
    requires { AreRowsOf target rows.items }
    ensures { result ≡ Rows (record {
      target = target;
      listing = full_of revision target look
          (keyed rows.items);
    }) }
{
    let total = rows.len() as u32;
    let listed = in_range(look.range, rows);
    Plan::full(target, revision, total, listed, look.meta)
}

/// Plans the delta that lists these rows and deletes these keys.
pub(crate) fn delta_plan(target: Target, revision: u32, look: Look, changed: Changed) -> Plan
    requires rows { AreRowsOf target changed.rows.items }
    requires gone { AreGone changed.gone.items }
    ensures { result ≡ Rows (record {
      target = target;
      listing = plan_of_delta target revision
          changed.rows.items changed.gone.items look.meta;
    }) }
{
    Plan::delta(target, revision, changed.rows, changed.gone, look.meta)
}
